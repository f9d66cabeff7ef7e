// A return: the caller's frame on top again. The caller's slot given for argument i stays bound exactly when callee slot i is a qubit at location i.
ghost use Rattle.std.specs.Prelude.{◌≡◌, ℕ, ◌≤◌, ◌<◌, length};
ghost use Rattle.rules.specs.Basics.{byte};
ghost use Rattle.steps.specs.State.{slots_of};
ghost use Rattle.steps.specs.Calling.{handed_back};
ghost use Rattle.steps.specs.Stepping.{Steady, Returns};

use crate::frames::Frame;
use crate::job::Job;
use crate::slots::Slots;
use rules::place::SlotNumber;

// The caller's slots after the callee's frame, the arguments being given in slots: from the last argument to the first.
// (`Call::after` of typing also gives the place back: here the callee's own frees have told the map.)
pub fn hand_back(given: &[u8], callee: &Frame, caller: Slots) -> Slots
    requires { (length given.now ≤ 16) × ((i : ℕ) → i < length given.now → byte given.now i < 32) }
    ensures { slots_of result ≡ handed_back callee.now 0 given.now (length given.now) (slots_of caller) }
{
    let mut slots = caller;
    // by number: it is the argument's, which the callee keeps or not
    for i in (0..given.len()).rev() {
        if callee.keeps(i) {
            continue;
        }
        slots = slots.release(SlotNumber::known(given[i]));
    }
    slots
}

// Goes back to the caller, and says the call's offset.
pub fn give_back(s: &[u8], job: &mut Job) -> u16
    requires { Steady s.now job.old × (job.old.top.n ≡ 0) × (0 < job.old.depth) }
    ensures { Returns s.now job.old job.new result }
{
    let callee = job.top;
    let at = callee.call as usize;
    let slots_at = at + 4 + s[at + 2] as usize;
    let given = &s[slots_at..slots_at + s[at + 3] as usize];
    job.leave();
    job.top.slots = hand_back(given, &callee, job.top.slots);
    callee.call
}
