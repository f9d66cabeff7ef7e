// What the members of a set in one word are joined to.
ghost use Rattle.std.specs.Prelude.{Bool, ℕ, ◌+◌, ◌*◌, ◌<◌};
ghost use Rattle.route.specs.Sweeps.{Word, Joined};

use sets::LocationSet;
use sets::rows::Rows;
use sets::words::Bits;

// With what the members in word i of a set are joined to.
pub fn join_word(rows: &Rows, i: u8, word: u64, to: LocationSet) -> LocationSet
    requires { i < 4 }
    ensures { (S : ℕ → Bool) → Word S i word → Joined rows.now S (i * 64) to
        → Joined rows.now S (i * 64 + 64) result }
{
    let mut out = to;
    for j in Bits(word) {
        out = out.union(rows.row(i * 64 + j));
    }
    out
}
