// Sets of the device's locations, as 256 bits. What a function does is said pointwise over `has`, for every number: from 256 on no set has any.
#![tactic(auto)]

ghost use Rattle.std.specs.Prelude.{true, false, not, ◌&&◌, ◌||◌, MatchOption, ◌≡◌, ℕ, ◌/◌, ◌%◌, ◌^◌, ◌≤◌, ◌<◌, eqb, get_or};
ghost use Rattle.sets.specs.Sets.{has, First, FirstFrom};

pub mod bytes;
pub mod rows;
pub mod words;

use words::low;

#[derive(Clone, Copy)]
pub struct LocationSet {
    pub words: [u64; 4],
}

impl LocationSet {
    pub fn empty() -> Self
        ensures { (y : ℕ) → has result y ≡ false }
    {
        LocationSet { words: [0; 4] }
    }

    pub fn contains(self, x: u8) -> bool
        ensures { result ≡ has self x }
    {
        self.words[word_of(x)] & bit(x) != 0
    }

    pub fn add(mut self, x: u8) -> Self
        ensures { (y : ℕ) → has result y ≡ (eqb y x || has self y) }
    {
        self.insert(x);
        self
    }

    pub fn remove(mut self, x: u8) -> Self
        ensures { (y : ℕ) → has result y ≡ (not (eqb y x) && has self y) }
    {
        self.erase(x);
        self
    }

    // Adds x to the set where it stands: to copy a set out of a table and back takes longer than the rest.
    pub fn insert(&mut self, x: u8)
        ensures { (y : ℕ) → has self.new y ≡ (eqb y x || has self.old y) }
    {
        self.words[word_of(x)] |= bit(x);
    }

    // Removes x from the set where it stands.
    pub fn erase(&mut self, x: u8)
        ensures { (y : ℕ) → has self.new y ≡ (not (eqb y x) && has self.old y) }
    {
        self.words[word_of(x)] &= !bit(x);
    }

    // With x, where a test says so.
    pub fn add_if(self, x: u8, test: bool) -> Self
        ensures { (y : ℕ) → has result y ≡ ((test && eqb y x) || has self y) }
    {
        if test { self.add(x) } else { self }
    }

    // The members of either.
    pub fn union(self, o: LocationSet) -> Self
        ensures { (y : ℕ) → has result y ≡ (has self y || has o y) }
    {
        self.zip_with(o, |v, w| v | w)
    }

    // The members of both.
    pub fn common(self, o: LocationSet) -> Self
        ensures { (y : ℕ) → has result y ≡ (has self y && has o y) }
    {
        self.zip_with(o, |v, w| v & w)
    }

    // The members that the other has not.
    pub fn without(self, o: LocationSet) -> Self
        ensures { (y : ℕ) → has result y ≡ (has self y && not (has o y)) }
    {
        self.zip_with(o, |v, w| v & !w)
    }

    // The set whose words are made of the words of two.
    fn zip_with<F: Fn(u64, u64) -> u64>(self, o: LocationSet, f: F) -> Self
        requires { F.IsAlwaysCallable f }
        ensures { (i : ℕ) → i < 4 → F.post f (get_or self.words i 0) (get_or o.words i 0) (get_or result.words i 0) }
    {
        let [a, b, c, d] = self.words;
        let [p, q, r, s] = o.words;
        LocationSet {
            words: [f(a, p), f(b, q), f(c, r), f(d, s)],
        }
    }

    // The first member, if any.
    pub fn first(self) -> Option<u8>
        ensures { MatchOption result ((y : ℕ) → has self y ≡ false) (First self) }
    {
        self.first_from(0)
    }

    // The first member from a number on, if any.
    pub fn first_from(self, start: usize) -> Option<u8>
        requires { start ≤ 256 }
        ensures { MatchOption result ((y : ℕ) → start ≤ y → has self y ≡ false) (FirstFrom self start) }
    {
        for i in start / 64..4 {
            let from = start.max(i * 64);
            let w = self.words[i] >> (from % 64);
            if w != 0 {
                return Some(from as u8 + low(w));
            }
        }
        None
    }

    pub fn is_empty(self) -> bool
        ensures none { result ≡ true → (y : ℕ) → has self y ≡ false }
        ensures some { result ≡ false → (y : ℕ) × (has self y ≡ true) }
    {
        self.words == [0; 4]
    }
}

// The word of a set that has the bit of a location.
fn word_of(x: u8) -> usize
    ensures { result ≡ x / 64 }
{
    (x / 64) as usize
}

// The bit of a location in its word.
fn bit(x: u8) -> u64
    ensures { result ≡ 2 ^ (x % 64) }
{
    1 << (x % 64)
}
