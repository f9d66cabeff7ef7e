// The operations that touch no block and no other function: what each asks of the slots and places, in the order of the refusals, and what it does.
ghost use Rattle.std.specs.Prelude.{Bool, ◌≡◌, ℕ, ◌<◌, IfOk};
ghost use Rattle.answers.specs.Check.{need};
ghost use Rattle.answers.specs.Said.{said};
ghost use Rattle.rules.specs.Syntax.{Side, Preparation, init, free, gate, measure, merge, new_ref, get_ref, set_ref, constant};
ghost use Rattle.rules.specs.Slots.{slot, is_unbound, need_qubit, need_bool, need_ref};
ghost use Rattle.rules.specs.Typing.{Env as Environment};
ghost use Rattle.typing.specs.Stands.{EnvIs, place_said};
ghost use Rattle.typing.specs.Cases.{Placed, Performed};

use super::env::{Env, Typed};
use super::slots::Slot;
use answers::{Fault, Refusal};
use rules::place::SlotNumber;
use sets::LocationSet;

// What is asked of a slot.
impl Env {
    // 12: it holds nothing.
    // Each test of the rules has its own name: one function over the case and the fault would hide which.
    pub fn need_unbound(self, x: SlotNumber, at: usize) -> Result<(), Refusal>
        ensures { (d : Side) (n : ℕ) (Γ : Environment d) → EnvIs n self Γ → said result ≡ need (is_unbound (slot Γ.slots x)) 12 at }
    {
        if self.held(x) == Slot::Unbound {
            Ok(())
        } else {
            Err(Fault::Bound.at(at))
        }
    }

    // 11: it holds a qubit, at the place that is answered.
    pub fn need_qubit(self, x: SlotNumber, at: usize) -> Result<u8, Refusal>
        ensures place { (d : Side) (n : ℕ) (Γ : Environment d) → EnvIs n self Γ → place_said result ≡ need_qubit (slot Γ.slots x) at }
        ensures there { (d : Side) (n : ℕ) (Γ : Environment d) → EnvIs n self Γ → IfOk result (λ l. l < n) }
    {
        self.held(x).qubit().ok_or(Fault::NotHeld.at(at))
    }

    // 11: it holds a bool.
    pub fn need_bool(self, x: SlotNumber, at: usize) -> Result<(), Refusal>
        ensures { (d : Side) (n : ℕ) (Γ : Environment d) → EnvIs n self Γ → said result ≡ need_bool (slot Γ.slots x) at }
    {
        if self.held(x) == Slot::Bool {
            Ok(())
        } else {
            Err(Fault::NotHeld.at(at))
        }
    }

    // 11: it holds a reference.
    pub fn need_reference(self, x: SlotNumber, at: usize) -> Result<(), Refusal>
        ensures { (d : Side) (n : ℕ) (Γ : Environment d) → EnvIs n self Γ → said result ≡ need_ref (slot Γ.slots x) at }
    {
        if self.held(x) == Slot::Reference {
            Ok(())
        } else {
            Err(Fault::NotHeld.at(at))
        }
    }
}

// The operation at `at`, whose statement ends at `next`.
// `at` is for refusals and `next` for the answer: a struct of the two would be made at one call and taken apart in nine.
impl Env {
    // A qubit at a place in slot x: 12, 13, 14.
    pub fn init(
        self,
        inside: LocationSet,
        at: usize,
        next: usize,
        x: SlotNumber,
        place: u8,
    ) -> Result<Typed, Refusal>
        ensures { (q : Preparation) → Placed inside self (λ d. init q x (record { no = place })) at next result }
    {
        self.need_unbound(x, at)?;
        if !inside.contains(place) {
            return Err(Fault::Outside.at(at));
        }
        if !self.free.contains(place) {
            return Err(Fault::Taken.at(at));
        }
        let env = self.bind(x, Slot::Qubit(place)).take(place);
        Ok(Typed { next, env })
    }

    // The qubit in slot x is gone and its place free.
    pub fn free(self, at: usize, next: usize, x: SlotNumber) -> Result<Typed, Refusal>
        ensures { Performed self (λ d. free x) at next result }
    {
        let place = self.need_qubit(x, at)?;
        let env = self.bind(x, Slot::Unbound).give(place);
        Ok(Typed { next, env })
    }

    pub fn gate(self, at: usize, next: usize, x: SlotNumber) -> Result<Typed, Refusal>
        ensures { (g : ℕ) → Performed self (λ d. gate g x) at next result }
    {
        self.need_qubit(x, at)?;
        Ok(Typed { next, env: self })
    }

    // The outcome of qubit x becomes the bool y.
    pub fn measure(
        self,
        at: usize,
        next: usize,
        y: SlotNumber,
        x: SlotNumber,
    ) -> Result<Typed, Refusal>
        ensures { (b : ℕ) → Performed self (λ d. measure y b x) at next result }
    {
        self.need_unbound(y, at)?;
        self.need_qubit(x, at)?;
        let env = self.bind(y, Slot::Bool);
        Ok(Typed { next, env })
    }

    // The outcome of the merge of qubits x and z becomes the bool y.
    pub fn merge(
        self,
        at: usize,
        next: usize,
        y: SlotNumber,
        x: SlotNumber,
        z: SlotNumber,
    ) -> Result<Typed, Refusal>
        ensures { (b c : ℕ) → Performed self (λ d. merge y b x c z) at next result }
    {
        self.need_unbound(y, at)?;
        self.need_qubit(x, at)?;
        self.need_qubit(z, at)?;
        if x.index() == z.index() {
            return Err(Fault::Twice.at(at));
        }
        let env = self.bind(y, Slot::Bool);
        Ok(Typed { next, env })
    }

    // A reference r to a copy of the bool y.
    pub fn new_reference(
        self,
        at: usize,
        next: usize,
        r: SlotNumber,
        y: SlotNumber,
    ) -> Result<Typed, Refusal>
        ensures { Performed self (λ d. new_ref r y) at next result }
    {
        self.need_unbound(r, at)?;
        self.need_bool(y, at)?;
        let env = self.bind(r, Slot::Reference);
        Ok(Typed { next, env })
    }

    // The bool y from the reference r.
    pub fn get_reference(
        self,
        at: usize,
        next: usize,
        y: SlotNumber,
        r: SlotNumber,
    ) -> Result<Typed, Refusal>
        ensures { Performed self (λ d. get_ref y r) at next result }
    {
        self.need_unbound(y, at)?;
        self.need_reference(r, at)?;
        let env = self.bind(y, Slot::Bool);
        Ok(Typed { next, env })
    }

    // The reference r holds the bool y.
    pub fn set_reference(
        self,
        at: usize,
        next: usize,
        r: SlotNumber,
        y: SlotNumber,
    ) -> Result<Typed, Refusal>
        ensures { Performed self (λ d. set_ref r y) at next result }
    {
        self.need_reference(r, at)?;
        self.need_bool(y, at)?;
        let env = self.bind(r, Slot::Reference);
        Ok(Typed { next, env })
    }

    pub fn constant(self, at: usize, next: usize, y: SlotNumber) -> Result<Typed, Refusal>
        ensures { (v : Bool) → Performed self (λ d. constant y v) at next result }
    {
        self.need_unbound(y, at)?;
        let env = self.bind(y, Slot::Bool);
        Ok(Typed { next, env })
    }
}
