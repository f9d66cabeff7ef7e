// What a caller knows of the functions before it: which arguments each ends with.
ghost use Rattle.std.specs.Prelude.{false, ◌≡◌, ℕ, ◌+◌, ◌*◌, ◌≤◌, ◌<◌};
ghost use Rattle.sets.specs.Sets.{has};
ghost use Rattle.typing.specs.Functions.{Remembers};

use super::env::Env;
use super::slots::Slot;
use sets::LocationSet;

// The numbers 8 * f + i for which function f ends with its argument i: a set of numbers below 256 serves, since f is below 15 and i below 8.
#[derive(Clone, Copy)]
pub struct Endings {
    pub kept: LocationSet,
}

impl Endings {
    // No function is known yet.
    pub fn new() -> Self
        ensures { (y : ℕ) → has result.kept y ≡ false }
    {
        Endings {
            kept: LocationSet::empty(),
        }
    }

    // Whether function f ends with its argument i.
    pub fn keeps(self, f: u8, i: u8) -> bool
        requires { (f < 16) × (i < 8) }
        ensures { result ≡ has self.kept (8 * f + i) }
    {
        self.kept.contains(8 * f + i)
    }

    // With function f, which has m arguments and ends with this environment.
    pub fn remember(self, f: u8, m: u8, env: Env) -> Self
        requires { (f < 16) × (m ≤ 8) }
        ensures { Remembers self f m env result }
    {
        let mut kept = self.kept;
        // by number: argument i is looked for in slot i, at place i
        for i in 0..m {
            kept = kept.add_if(8 * f + i, env.slots[i as usize] == Slot::Qubit(i));
        }
        Endings { kept }
    }
}
