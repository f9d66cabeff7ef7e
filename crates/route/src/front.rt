// One level further: which of the locations that are left the members of a set are joined to, and for each of them the first such member, its hop.
ghost use Rattle.std.specs.Prelude.{Bool, true, false, List, ◌≡◌, ℕ, ◌+◌, ◌*◌, ◌≤◌, ◌<◌};
ghost use Rattle.sets.specs.Sets.{has};
ghost use Rattle.route.specs.Sweeps.{Noted, Spread};

use sets::LocationSet;
use sets::rows::Rows;
use sets::words::Bits;

// The locations that are left, and the level that comes next. The hops are lent beside it: with them it were no value that goes from word to word.
#[derive(Clone, Copy)]
pub struct Front {
    pub left: LocationSet,
    pub next: LocationSet,
}

// The level after a level, out of the locations that are left, and the hops of its members.
pub fn further(rows: &Rows, from: Front, hop: &mut [u8; 256]) -> Front
    ensures { Spread rows.now (has from.next) 256 (has from.left) hop.old result.left result.next hop.new }
{
    let mut front = Front {
        left: from.left,
        next: LocationSet::empty(),
    };
    for i in 0..4 {
        front = reach_word(rows, from.next, i, front, hop);
    }
    front
}

// With what the members in one word of the set reach. This loop and the one in `note_word` stand in functions of their own: within the loops over the
// words, the search takes a fifth longer.
fn reach_word(rows: &Rows, s: LocationSet, i: u8, to: Front, hop: &mut [u8; 256]) -> Front
    requires { i < 4 }
    ensures { (L : ℕ → Bool) (h : List ℕ)
        → Spread rows.now (has s) (i * 64) L h to.left to.next hop.old
        → Spread rows.now (has s) (i * 64 + 64) L h result.left result.next hop.new }
{
    let mut front = to;
    for j in Bits(s.words[i as usize]) {
        front = reach(rows, i * 64 + j, front, hop);
    }
    front
}

// With what one member reaches.
pub fn reach(rows: &Rows, x: u8, front: Front, hop: &mut [u8; 256]) -> Front
    ensures { (S L : ℕ → Bool) (h : List ℕ) (n : ℕ) → S x ≡ true → n ≤ x → ((z : ℕ) → n ≤ z → z < x → S z ≡ false)
        → Spread rows.now S n L h front.left front.next hop.old
        → Spread rows.now S (x + 1) L h result.left result.next hop.new }
{
    let new = rows.row(x).common(front.left);
    note(new, x, hop);
    Front {
        left: front.left.without(new),
        next: front.next.union(new),
    }
}

// A hop for each member of a set.
fn note(s: LocationSet, v: u8, hop: &mut [u8; 256])
    ensures { Noted (has s) v 256 hop.old hop.new }
{
    for i in 0..4 {
        note_word(s, i, v, hop);
    }
}

// A hop for each member in one word of the set.
fn note_word(s: LocationSet, i: u8, v: u8, hop: &mut [u8; 256])
    requires { i < 4 }
    ensures { (h : List ℕ) → Noted (has s) v (i * 64) h hop.old → Noted (has s) v (i * 64 + 64) h hop.new }
{
    for j in Bits(s.words[i as usize]) {
        hop[(i * 64 + j) as usize] = v;
    }
}
