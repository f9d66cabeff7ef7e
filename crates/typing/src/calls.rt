// A call: what it asks of its locations and arguments, and the arguments that it loses.
ghost use Rattle.std.specs.Prelude.{◌≡◌, ℕ, ◌≤◌, ◌<◌, length, slice_index_or};
ghost use Rattle.answers.specs.Said.{said};
ghost use Rattle.rules.specs.Basics.{byte};
ghost use Rattle.rules.specs.Syntax.{Side};
ghost use Rattle.rules.specs.Slots.{arguments_at, callable};
ghost use Rattle.rules.specs.Typing.{Env as Environment, Context, Signature, kinds, after_call};
ghost use Rattle.typing.specs.Stands.{EnvIs, Within};
ghost use Rattle.typing.specs.Cases.{StatementCase, StatementTyped};

use super::body::Body;
use super::endings::Endings;
use super::env::{Env, Typed};
use super::slots::Slot;
use answers::{Fault, Refusal};
use rules::place::SlotNumber;
use sets::LocationSet;
use sets::bytes::{all_in, no_repeat};

// The callee, the locations of its places, and the slots of its arguments, which are at the first of the locations.
// Both lists are the file's own bytes, which are no copies, so that a clause has the bound of the slots.
#[derive(Clone, Copy)]
pub struct Call<'a> {
    pub callee: u8,
    pub places: &'a [u8],
    pub slots: &'a [u8],
    ghost earlier: { callee < 15 },
    ghost most: { length slots.now ≤ 8 },
    ghost fewer: { length slots.now ≤ length places.now },
    ghost known: { (i : ℕ) → i < length slots.now → slice_index_or slots.now i 0 < 32 },
}

impl<'a> Call<'a> {
    ghost use Rattle.typing.specs.Calls.{CallAt, CallIs};

    // The call that stands at `at`.
    fn read(s: &'a [u8], at: usize) -> Self
        requires { CallAt s.now at }
        ensures { CallIs s.now at result }
    {
        let places = at + 4;
        let slots = places + s[at + 2] as usize;
        let end = slots + s[at + 3] as usize;
        Call {
            callee: s[at + 1],
            places: &s[places..slots],
            slots: &s[slots..end],
        }
    }
}

impl Call<'_> {
    ghost use Rattle.typing.specs.Calls.{places, Ends};

    // Each argument in turn is a qubit (11) at its location (16).
    fn need_arguments(&self, env: Env, at: usize) -> Result<(), Refusal>
        ensures { (d : Side) (n : ℕ) (C : Context d) (Γ : Environment d) → EnvIs n env Γ
            → said result ≡ arguments_at (kinds C Γ) at Γ.slots self.now.slots.now (places d self.now.places.now) }
    {
        // by number: the bound of an argument's slot is known by its place in the list
        for i in 0..self.slots.len() {
            let place = env.need_qubit(SlotNumber::known(self.slots[i]), at)?;
            if place != self.places[i] {
                return Err(Fault::Elsewhere.at(at));
            }
        }
        Ok(())
    }

    // 13 for each location, 15 for either list, 11 and 16 by argument, 14 for the locations that hold no argument.
    fn need_callable(&self, inside: LocationSet, env: Env, at: usize) -> Result<(), Refusal>
        ensures { (d : Side) (n : ℕ) (C : Context d) (Γ : Environment d) → Within inside n C → EnvIs n env Γ
            → said result ≡ callable (kinds C Γ) at Γ.slots (places d self.now.places.now) self.now.slots.now }
    {
        if !all_in(self.places, inside) {
            return Err(Fault::Outside.at(at));
        }
        if !no_repeat(self.places) || !no_repeat(self.slots) {
            return Err(Fault::Twice.at(at));
        }
        self.need_arguments(env, at)?;
        if !all_in(&self.places[self.slots.len()..], env.free) {
            return Err(Fault::Taken.at(at));
        }
        Ok(())
    }

    // The environment after the call: an argument that the callee ends without is unbound, and its location free.
    fn after(&self, endings: Endings, env: Env) -> Env
        ensures { (d : Side) (n : ℕ) (Γ : Environment d) (g : Signature) → EnvIs n env Γ → Ends self.now endings n g
            → EnvIs n result (after_call g (places d self.now.places.now) self.now.slots.now Γ) }
    {
        let mut after = env;
        // by number: it is the argument's, which the endings are kept by
        for i in (0..self.slots.len()).rev() {
            if !endings.keeps(self.callee, i as u8) {
                after = after
                    .bind(SlotNumber::known(self.slots[i]), Slot::Unbound)
                    .give(self.places[i]);
            }
        }
        after
    }
}

impl Body<'_> {
    pub fn type_call(&self, env: Env, at: usize) -> Result<Typed, Refusal>
        requires stands { StatementCase self.now env at }
        requires starts { byte self.now.bytes.now at ≡ 12 }
        ensures { StatementTyped self.now env at result }
    {
        let call = Call::read(self.bytes, at);
        call.need_callable(self.inside, env, at)?;
        Ok(Typed {
            next: at + 4 + call.places.len() + call.slots.len(),
            env: call.after(self.endings, env),
        })
    }
}
