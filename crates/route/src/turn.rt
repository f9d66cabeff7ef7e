// One end's turn: its next level, which is no longer left, with what that level is joined to; none where it meets what the other end's newest level is
// joined to.
ghost use Rattle.std.specs.Prelude.{Bool, ◌&&◌, ◌≡◌, ℕ, ◌+◌, ◌*◌, ◌<◌};
ghost use Rattle.sets.specs.Sets.{has};
ghost use Rattle.route.specs.Sweeps.{Put, Advanced, Turned};

use super::joined::join_word;
use sets::LocationSet;
use sets::rows::Rows;

// What is left after a turn, what the new level is joined to, and some word of the level that is not 0, or 0 where the level has no location: as a bool it
// takes a register more, and the search over a line a third longer; as a case of its own it would be tested in each word.
#[derive(Clone, Copy)]
pub struct Turn {
    pub left: LocationSet,
    pub joined: LocationSet,
    pub any: u64,
}

// The turn of the end whose newest level is joined to a set, while the other end's is joined to another. The words are four calls: as a loop over them,
// the compiler keeps the sets in memory, and the search takes ten times as long; with whole sets in place of words, it takes a fifth longer.
pub fn advance(
    rows: &Rows,
    joined: LocationSet,
    other: LocationSet,
    left: LocationSet,
) -> Option<Turn>
    ensures { (N : ℕ → Bool) → ((y : ℕ) → N y ≡ (has joined y && has left y)) → Turned rows.now N (has other) (has left) 256 result }
{
    let start = Turn {
        left,
        joined: LocationSet::empty(),
        any: 0,
    };
    let first = advance_word(rows, joined, other, 0, start)?;
    let second = advance_word(rows, joined, other, 1, first)?;
    let third = advance_word(rows, joined, other, 2, second)?;
    advance_word(rows, joined, other, 3, third)
}

// With the turn in one word. The level itself is put to what it is joined to: it does no harm there, since it is no longer left, and as no two words
// are then treated alike the compiler keeps each in a register of its own, which is faster here than a vector.
fn advance_word(
    rows: &Rows,
    joined: LocationSet,
    other: LocationSet,
    i: u8,
    to: Turn,
) -> Option<Turn>
    requires { i < 4 }
    ensures { (N L : ℕ → Bool) → ((y : ℕ) → N y ≡ (has joined y && L y)) → Advanced rows.now N (has other) L (i * 64) to
        → Turned rows.now N (has other) L (i * 64 + 64) result }
{
    let n = i as usize;
    let near = joined.words[n];
    let new = near & to.left.words[n];
    if new == 0 {
        return Some(to);
    }
    if (new & other.words[n]) != 0 {
        return None;
    }
    let own = put(to.joined, i, to.joined.words[n] | new);
    Some(Turn {
        left: put(to.left, i, to.left.words[n] ^ new),
        joined: join_word(rows, i, new, own),
        any: new,
    })
}

// The set with another word.
fn put(mut s: LocationSet, i: u8, w: u64) -> LocationSet
    requires { i < 4 }
    ensures { Put s i w result }
{
    s.words[i as usize] = w;
    s
}
