// The slots of a frame: each unbound, a qubit at a location, a bool, or a reference to a bool.
ghost use Rattle.std.specs.Prelude.{◌≡◌, ℕ, set, replicate};
ghost use Rattle.answers.specs.Check.{need};
ghost use Rattle.rules.specs.Slots.{unbound, qubit, slot, need_qubit, need_bool, need_ref, holds_no_qubit, is_qubit_at};
ghost use Rattle.steps.specs.Said.{said_at, itself};
ghost use Rattle.steps.specs.State.{place_of, slot_of, slots_of};

use answers::Fault;
use rules::place::{Location, SlotNumber};

#[derive(Clone, Copy, Debug, PartialEq, Eq)]
pub enum Slot {
    Unbound,
    Qubit(Location),
    Bool(bool),
    Reference(bool),
}

#[derive(Clone, Copy)]
pub struct Slots {
    pub slots: [Slot; 32],
}

impl Slots {
    // No slot bound.
    pub fn empty() -> Self
        ensures { slots_of result ≡ replicate 32 unbound }
    {
        Slots {
            slots: [Slot::Unbound; 32],
        }
    }

    // What a slot holds.
    pub fn held(&self, x: SlotNumber) -> Slot
        ensures { slot_of result ≡ slot (slots_of self.now) x }
    {
        self.slots[x.index()]
    }

    // Where the qubit of a slot is.
    pub fn qubit(&self, x: SlotNumber) -> Result<Location, Fault>
        ensures { (o : ℕ) → said_at place_of result o ≡ need_qubit (slot (slots_of self.now) x) o }
    {
        match self.held(x) {
            Slot::Qubit(l) => Ok(l),
            _ => Err(Fault::NotHeld),
        }
    }

    // `boolean` and `reference` differ in the case that they match, which is all there is of them.
    pub fn boolean(&self, x: SlotNumber) -> Result<bool, Fault>
        ensures { (o : ℕ) → said_at itself result o ≡ need_bool (slot (slots_of self.now) x) o }
    {
        match self.held(x) {
            Slot::Bool(b) => Ok(b),
            _ => Err(Fault::NotHeld),
        }
    }

    // The bool of a slot's reference.
    pub fn reference(&self, x: SlotNumber) -> Result<bool, Fault>
        ensures { (o : ℕ) → said_at itself result o ≡ need_ref (slot (slots_of self.now) x) o }
    {
        match self.held(x) {
            Slot::Reference(b) => Ok(b),
            _ => Err(Fault::NotHeld),
        }
    }

    // A slot may be bound unless it is a qubit.
    pub fn may_bind(&self, x: SlotNumber) -> Result<(), Fault>
        ensures { (o : ℕ) → said_at itself result o ≡ need (holds_no_qubit (slot (slots_of self.now) x)) 12 o }
    {
        match self.held(x) {
            Slot::Qubit(_) => Err(Fault::Bound),
            _ => Ok(()),
        }
    }

    // Whether a slot is a qubit at a location.
    pub fn holds_at(&self, x: SlotNumber, l: Location) -> bool
        ensures { result ≡ is_qubit_at (slot (slots_of self.now) x) (place_of l) }
    {
        self.held(x) == Slot::Qubit(l)
    }

    pub fn bind(mut self, x: SlotNumber, v: Slot) -> Self
        ensures { slots_of result ≡ set (slots_of self) x (slot_of v) }
    {
        self.slots[x.index()] = v;
        self
    }

    // The slot is a qubit at a location.
    pub fn occupy(self, x: SlotNumber, l: Location) -> Self
        ensures { slots_of result ≡ set (slots_of self) x (qubit (place_of l)) }
    {
        self.bind(x, Slot::Qubit(l))
    }

    // The slot is unbound.
    pub fn release(self, x: SlotNumber) -> Self
        ensures { slots_of result ≡ set (slots_of self) x unbound }
    {
        self.bind(x, Slot::Unbound)
    }
}
