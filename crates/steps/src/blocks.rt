// An if and a while: which block comes before the rest.
ghost use Rattle.std.specs.Prelude.{◌≡◌};
ghost use Rattle.rules.specs.Basics.{byte};
ghost use Rattle.steps.specs.Stepping.{Comes, Anyway};

use crate::Effect;
use crate::job::Job;
use answers::Fault;
use rules::bytes::slot;
use rules::positions::block_end;

// An if goes on with the block that its bool chooses.
pub fn branch(s: &[u8], at: usize, job: &mut Job) -> Result<Effect, Fault>
    requires { Comes s.now job.old at × (byte s.now at ≡ 10) }
    ensures { Anyway s.now at job.old job.new result }
{
    let b = job.top.slots.boolean(slot(s, at + 1))?;
    let first = at + 2;
    let middle = block_end(s, first);
    let end = block_end(s, middle);
    job.top.advance(end);
    if b {
        job.top.push(first + 2, middle);
    } else {
        job.top.push(middle + 2, end);
    }
    Ok(Effect::QUIET)
}

// A while whose reference holds true goes on with its body and stays to come; else it is passed.
// (It shares with an if the test alone: what comes next differs.)
pub fn repeat(s: &[u8], at: usize, job: &mut Job) -> Result<Effect, Fault>
    requires { Comes s.now job.old at × (byte s.now at ≡ 11) }
    ensures { Anyway s.now at job.old job.new result }
{
    let b = job.top.slots.reference(slot(s, at + 1))?;
    let body = at + 2;
    let end = block_end(s, body);
    if b {
        job.top.push(body + 2, end);
    } else {
        job.top.advance(end);
    }
    Ok(Effect::QUIET)
}
