// The operation to come, by its kind.
ghost use Rattle.rules.specs.Basics.{byte};
ghost use Rattle.steps.specs.Performing.{Operable, Operates};
ghost use Rattle.steps.specs.Stepping.{Comes, NoBlock, Acts};

use crate::Effect;
use crate::floor::Floor;
use crate::job::Job;
use crate::merge::merge;
use crate::operations::{
    Performed, constant, free, gate, get_reference, init, measure, new_reference, set_reference,
};
use answers::Fault;
use rules::bytes::slot;
use rules::statements::Kind;

// The operation at an offset: of the kinds it is asked of, none is a block or a call.
pub fn operate(
    s: &[u8],
    at: usize,
    floor: &Floor<'_>,
    job: &Job,
    outcome: bool,
) -> Result<Performed, Fault>
    requires { Operable s.now at job.now }
    ensures { Operates s.now at job.now floor.now.rows.now floor.now.owned floor.now.map.now outcome result }
{
    let slots = &job.top.slots;
    match Kind::known(s[at]) {
        Kind::Init | Kind::Magic => init(slots, slot(s, at + 1), job.located(s[at + 2]), floor),
        Kind::Free => free(slots, slot(s, at + 1)),
        Kind::Gate => gate(slots, slot(s, at + 2)),
        Kind::Measure => measure(slots, slot(s, at + 1), slot(s, at + 3), outcome),
        Kind::Merge => {
            let (y, x, z) = (slot(s, at + 1), slot(s, at + 3), slot(s, at + 5));
            merge(slots, y, x, z, floor, outcome)
        }
        Kind::Ref => new_reference(slots, slot(s, at + 1), slot(s, at + 2)),
        Kind::Get => get_reference(slots, slot(s, at + 1), slot(s, at + 2)),
        Kind::Set => set_reference(slots, slot(s, at + 1), slot(s, at + 2)),
        // beside the last operation the three that are none: `Operable` says that none of them stands there
        Kind::Bool | Kind::If | Kind::While | Kind::Call => {
            constant(slots, slot(s, at + 1), s[at + 2] == 1)
        }
    }
}

// The operation to come as a step: where it moved, it is passed.
pub fn operation(
    s: &[u8],
    at: usize,
    floor: &Floor<'_>,
    job: &mut Job,
    outcome: bool,
) -> Result<Effect, Fault>
    requires { Comes s.now job.old at × NoBlock (byte s.now at) }
    ensures { Acts s.now at floor.now.rows.now floor.now.owned floor.now.map.now outcome job.old job.new result }
{
    let done = operate(s, at, floor, job, outcome)?;
    job.top.advance(at + Kind::known(s[at]).size());
    job.top.slots = done.slots;
    Ok(Effect {
        edges: done.edges,
        act: done.act,
    })
}
