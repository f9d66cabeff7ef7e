// A call: what it asks, and the callee's frame on top.
ghost use Rattle.std.specs.Prelude.{◌≡◌, ◌≤◌, ◌<◌};
ghost use Rattle.rules.specs.Basics.{byte};
ghost use Rattle.steps.specs.Calling.{Enters};
ghost use Rattle.steps.specs.Stepping.{Ready, Comes, Calls};

use crate::Effect;
use crate::asks::{actuals, callable};
use crate::floor::Floor;
use crate::frames::Frame;
use crate::job::Job;
use crate::slots::Slots;
use answers::Fault;
use program::functions::FunctionTable;
use rules::place::{Location, SlotNumber};
use rules::positions::block_end;

// The callee's frame with nothing to come yet: argument i is a qubit in slot i at location i.
pub fn callee(places: [Location; 16], m: u8, at: usize) -> Frame
    requires { (m ≤ 16) × (at < 65536) }
    ensures { Enters places m at result }
{
    let mut slots = Slots::empty();
    for i in 0..m {
        slots = slots.occupy(SlotNumber::known(i), places[i as usize]);
    }
    Frame::new(slots, places, at)
}

// What is asked being granted, the caller is passed and the callee goes on top.
pub fn call(
    s: &[u8],
    functions: &FunctionTable,
    at: usize,
    floor: &Floor<'_>,
    job: &mut Job,
) -> Result<Effect, Fault>
    requires { Ready s.now functions.now job.old × Comes s.now job.old at × (byte s.now at ≡ 12) }
    ensures { Calls s.now functions.now at floor.now.owned floor.now.map.now job.old job.new result }
{
    let k = s[at + 2] as usize;
    let m = s[at + 3] as usize;
    let slots_at = at + 4 + k;
    let end = slots_at + m;
    let places = actuals(&s[at + 4..slots_at], job);
    callable(&job.top.slots, &s[slots_at..end], &places[..k], floor)?;
    let body = functions.head(s[at + 1]).body;
    let mut inner = callee(places, s[at + 3], at);
    inner.push(body + 2, block_end(s, body));
    job.top.advance(end);
    job.enter(job.top, inner);
    Ok(Effect::QUIET)
}
