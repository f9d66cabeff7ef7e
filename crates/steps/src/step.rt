// One step of a job over its program's bytes: which item is to come decides the step.
ghost use Rattle.steps.specs.Stepping.{Begins, Starts, Ready, Comes, Goes, Steps};

use crate::back::give_back;
use crate::blocks::{branch, repeat};
use crate::call::call;
use crate::floor::Floor;
use crate::frames::Frame;
use crate::job::Job;
use crate::kinds::operation;
use crate::slots::Slots;
use crate::{Effect, Stepped};
use answers::Fault;
use program::functions::FunctionTable;
use rules::place::Location;
use rules::positions::block_end;
use rules::statements::Kind;

// A job that has taken no step: main's statements are to come, and no slot is bound.
pub fn start(s: &[u8], main: usize) -> Job
    requires { Begins s.now main }
    ensures { Starts s.now main result }
{
    let mut top = Frame::new(Slots::empty(), [Location(0); 16], 0);
    let below = [top; 15];
    top.push(main + 2, block_end(s, main));
    Job {
        top,
        below,
        depth: 0,
    }
}

// The statement to come, by its kind.
// Where it stands is a clause (`Comes`) and no type: it is of the job before the step, and over once the job has moved.
fn go_on(
    s: &[u8],
    functions: &FunctionTable,
    at: usize,
    floor: &Floor<'_>,
    job: &mut Job,
    outcome: bool,
) -> Result<Effect, Fault>
    requires { Ready s.now functions.now job.old × Comes s.now job.old at }
    ensures { Goes s.now functions.now at floor.now.rows.now floor.now.owned floor.now.map.now outcome job.old job.new result }
{
    match Kind::known(s[at]) {
        Kind::If => branch(s, at, job),
        Kind::While => repeat(s, at, job),
        Kind::Call => call(s, functions, at, floor, job),
        Kind::Init
        | Kind::Magic
        | Kind::Free
        | Kind::Gate
        | Kind::Measure
        | Kind::Merge
        | Kind::Ref
        | Kind::Get
        | Kind::Set
        | Kind::Bool => operation(s, at, floor, job, outcome),
    }
}

// A frame at its end is main's, and the job is finished, or a callee's, and returns; else the statement to come decides.
pub fn step(
    s: &[u8],
    functions: &FunctionTable,
    floor: &Floor<'_>,
    job: &mut Job,
    outcome: bool,
) -> Stepped
    requires { Ready s.now functions.now job.old }
    ensures { Steps s.now functions.now floor.now.rows.now floor.now.owned floor.now.map.now outcome job.old job.new result }
{
    if job.top.n == 0 {
        if job.depth == 0 {
            return Stepped::finished();
        }
        let at = give_back(s, job) as usize;
        return Stepped::told(Ok(Effect::QUIET), at);
    }
    let at = job.top.here();
    Stepped::told(go_on(s, functions, at, floor, job, outcome), at)
}
