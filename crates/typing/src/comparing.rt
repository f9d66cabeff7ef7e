// Equal environments: what an if asks of its blocks (18), and a while of its body (19).
ghost use Rattle.std.specs.Prelude.{true, false, not, ◌≡◌, ℕ};
ghost use Rattle.rules.specs.Syntax.{Side};
ghost use Rattle.rules.specs.Typing.{Env as Environment, same_env};
ghost use Rattle.sets.specs.Sets.{has};
ghost use Rattle.typing.specs.Stands.{EnvIs};

use super::env::Env;
use sets::LocationSet;

// Whether no place is in one set alone.
// By members, as every clause of sets speaks: `==` on the words would need that sets with the same members have the same words, which none says.
fn same_places(a: LocationSet, b: LocationSet) -> bool
    ensures same { result ≡ true → (y : ℕ) → has a y ≡ has b y }
    ensures differ { result ≡ false → (y : ℕ) × (has a y ≡ not (has b y)) }
{
    a.without(b).union(b.without(a)).is_empty()
}

impl Env {
    // Equal slot by slot and place by place.
    pub fn same(self, other: Env) -> bool
        ensures { (d : Side) (n : ℕ) (Γ Δ : Environment d) → EnvIs n self Γ → EnvIs n other Δ → result ≡ same_env Γ Δ }
    {
        self.slots == other.slots && same_places(self.free, other.free)
    }
}
