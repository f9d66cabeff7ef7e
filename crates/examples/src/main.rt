// Runs the examples of the rules that are not proved as a table, and one of each refusal, a line for each.
#![tactic(auto)]

mod calls;
mod files;
mod grid;
mod judged;
mod listed;
mod say;

use std::io;

fn main(rt: HostRuntime) -> io::Result<()> {
    grid::examples(&rt)?;
    files::refusals(&rt)?;
    judged::refusals(&rt)?;
    calls::refusals(&rt)?;
    listed::examples(&rt)
}
