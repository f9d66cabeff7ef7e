// Environments: what each slot holds, and which places are free.
ghost use Rattle.std.specs.Prelude.{not, ◌&&◌, ◌||◌, ◌≡◌, ℕ, eqb, replicate};
ghost use Rattle.sets.specs.Sets.{has};
ghost use Rattle.typing.specs.Stands.{slot_of, bound};

use super::slots::Slot;
use rules::place::SlotNumber;
use sets::LocationSet;

// Which environment of the rules it stands for is no invariant: the same slots serve main and functions, with any number of places.
#[derive(Clone, Copy)]
pub struct Env {
    pub slots: [Slot; 32],
    pub free: LocationSet,
}

// What is typed up to a position, which is where typing goes on, and the environment there.
#[derive(Clone, Copy)]
pub struct Typed {
    pub next: usize,
    pub env: Env,
}

impl Env {
    // Every slot unbound, these places free.
    pub fn new(free: LocationSet) -> Self
        ensures { result ≡ record { slots = replicate 32 Slot.Unbound; free = free } }
    {
        Env {
            slots: [Slot::Unbound; 32],
            free,
        }
    }

    // What a slot holds.
    pub fn held(&self, x: SlotNumber) -> Slot
        ensures { result ≡ slot_of self.now x }
    {
        self.slots[x.index()]
    }

    pub fn bind(mut self, x: SlotNumber, slot: Slot) -> Self
        ensures { result ≡ bound self x slot }
    {
        self.slots[x.index()] = slot;
        self
    }

    // The place is free no more.
    pub fn take(self, place: u8) -> Self
        ensures slots { result.slots ≡ self.slots }
        ensures free { (y : ℕ) → has result.free y ≡ (not (eqb y place) && has self.free y) }
    {
        Env {
            free: self.free.remove(place),
            ..self
        }
    }

    // The place is free again.
    pub fn give(self, place: u8) -> Self
        ensures slots { result.slots ≡ self.slots }
        ensures free { (y : ℕ) → has result.free y ≡ (eqb y place || has self.free y) }
    {
        Env {
            free: self.free.add(place),
            ..self
        }
    }
}
