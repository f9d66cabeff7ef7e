// The bits of a word that are set, from the lowest on.
ghost use Rattle.std.specs.Prelude.{◌<◌};
ghost use Rattle.std.specs.Iterator.{at_most};
ghost use Rattle.sets.specs.Sets.{Lowest};
ghost use Rattle.sets.specs.NextBit.{next_bit};

// What is left of the word.
#[derive(Drop)]
pub struct Bits(pub u64);

impl Iterator for Bits {
    type Item = u8;

    ghost next_gives = { next_bit };

    ghost remaining = { λ s. at_most s.0 };

    fn next(&mut self) -> Option<u8> {
        if self.0 == 0 {
            return None;
        }
        let t = low(self.0);
        self.0 &= self.0 - 1;
        Some(t)
    }
}

// The lowest bit that is set.
pub fn low(w: u64) -> u8
    requires { 0 < w }
    ensures { Lowest w result }
{
    w.trailing_zeros() as u8
}
