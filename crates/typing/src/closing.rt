// The end of a block: a live qubit sits where it sat on entry (17), and a bool or a reference that the block made is forgotten. The end of main's
// own block: its live qubits are counted.
ghost use Rattle.std.specs.Prelude.{not, ◌||◌, ◌≡◌, ℕ, ◌≤◌};
ghost use Rattle.rules.specs.Basics.{how_many};
ghost use Rattle.rules.specs.Syntax.{Side};
ghost use Rattle.rules.specs.Slots.{holds_no_qubit};
ghost use Rattle.rules.specs.Typing.{Env as Environment, Typed as TypedBlock, same_kind, all_stay, narrowed, close};
ghost use Rattle.typing.specs.Stands.{kind_of, EnvIs, Answers, left_of};

use super::env::{Env, Typed};
use super::slots::Slot;
use answers::{Fault, Refusal};

// Whether a slot that held this on entry holds a live qubit now, and not the one that it held.
fn strays(before: Slot, after: Slot) -> bool
    ensures { (d : Side) → result ≡ not (holds_no_qubit (kind_of d after) || same_kind (kind_of d before) (kind_of d after)) }
{
    after.qubit().is_some() && before != after
}

// What is left in a slot.
fn left(before: Slot, after: Slot) -> Slot
    ensures { result ≡ left_of before after }
{
    if after.is_classical() && !before.is_classical() {
        Slot::Unbound
    } else {
        after
    }
}

impl Env {
    fn stays(self, entry: Env) -> bool
        ensures { (d : Side) (n : ℕ) (Γ Δ : Environment d) → EnvIs n entry Γ → EnvIs n self Δ
            → result ≡ all_stay Γ.slots Δ.slots }
    {
        // one number for the two arrays: they are read at the same slots
        for x in 0..32 {
            if strays(entry.slots[x], self.slots[x]) {
                return false;
            }
        }
        true
    }

    fn narrowed(self, entry: Env) -> Env
        ensures { (d : Side) (n : ℕ) (Γ Δ : Environment d) → EnvIs n entry Γ → EnvIs n self Δ
            → EnvIs n result (record { slots = narrowed Γ.slots Δ.slots; free = Δ.free }) }
    {
        // `array::from_fn` says of each item only that some call gave it.
        let mut slots = self.slots;
        for x in 0..32 {
            slots[x] = left(entry.slots[x], self.slots[x]);
        }
        Env { slots, ..self }
    }

    // How many slots hold a qubit.
    pub fn live(self) -> usize
        ensures value { (d : Side) (n : ℕ) (Γ : Environment d) → EnvIs n self Γ → result ≡ how_many (λ v. not (holds_no_qubit v)) Γ.slots }
        ensures most { result ≤ 32 }
    {
        self.slots
            .iter()
            .filter(|slot| slot.qubit().is_some())
            .count()
    }
}

impl Typed {
    // The closing of the block whose length word is at `at`, entered with `entry`.
    pub fn close(self, entry: Env, at: usize) -> Result<Typed, Refusal>
        ensures { (d : Side) (n : ℕ) (Γ : Environment d) (t : TypedBlock d) → EnvIs n entry Γ → EnvIs n self.env t.env
            → Answers n self.next (close at Γ t) result }
    {
        if !self.env.stays(entry) {
            return Err(Fault::LeftLive.at(at));
        }
        let env = self.env.narrowed(entry);
        Ok(Typed { env, ..self })
    }
}
