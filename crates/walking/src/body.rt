// The places of a body on the device: in main a place is its location; in a function place i is the location that the call named for it.
ghost use Rattle.std.specs.Prelude.{false, ◌≡◌, ℕ, ◌+◌, ◌<◌, ◌≤◌, length};
ghost use Rattle.rules.specs.Basics.{byte};
ghost use Rattle.walking.specs.Names.{placed, names_of, named};

use rules::place::Location;

// A body that is walked: how many functions come before it, and the locations that its call named, none in main.
#[derive(Clone, Copy)]
pub struct Body<'a> {
    pub before: usize,
    pub names: Option<&'a [u8; 16]>,
}

impl Body<'_> {
    // The location that a place byte stands for.
    pub fn location_of(&self, place: u8) -> Location
        requires { (names_of self.now).main ≡ false → place < 16 }
        ensures { result.0 ≡ named (names_of self.now) place }
    {
        match self.names {
            None => Location(place),
            Some(names) => Location(names[place as usize]),
        }
    }

    // A call in this body names the k places of its callee from p on: these are the callee's names, and in its frame on entry slot i has its argument at
    // place i. Both are filled in one loop, and lent, as to hand them over takes longer.
    pub fn enter(&self, s: &[u8], p: usize, k: usize, inner: &mut [u8; 16], frame: &mut [u8; 32])
        requires { (k ≤ 16) × (p + k ≤ length s.now)
            × ((i : ℕ) → i < k → (names_of self.now).main ≡ false → byte s.now (p + i) < 16) }
        ensures named { (i : ℕ) → i < k → placed inner.new i ≡ named (names_of self.now) (byte s.now (p + i)) }
        ensures passed { (i : ℕ) → i < k → placed frame.new i ≡ named (names_of self.now) (byte s.now (p + i)) }
        ensures rest { (i : ℕ) → k ≤ i → placed frame.new i ≡ placed frame.old i }
    {
        for i in 0..k {
            let location = self.location_of(s[p + i]);
            inner[i] = location.0;
            frame[i] = location.0;
        }
    }
}
