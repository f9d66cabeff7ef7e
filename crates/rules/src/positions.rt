// Where a block and a call end, from the bytes that they begin with. Positions go beside the bytes here and in the readers: a struct of the two would be
// made anew at every step, and a refusal answers the position.
ghost use Rattle.std.specs.Prelude.{◌≡◌, ◌+◌, ◌≤◌, length};
ghost use Rattle.rules.specs.Basics.{byte, word};

use crate::bytes::word_at;

// The position after the block whose length word is at `at`.
pub fn block_end(s: &[u8], at: usize) -> usize
    requires { (at + 2 ≤ length s.now) × (length s.now ≤ 4096) }
    ensures { result ≡ at + 2 + word s.now at }
{
    at + 2 + word_at(s, at)
}

// The position after the call at `at` and its lists.
pub fn call_end(s: &[u8], at: usize) -> usize
    requires { (at + 4 ≤ length s.now) × (length s.now ≤ 4096) }
    ensures { result ≡ at + 4 + byte s.now (at + 2) + byte s.now (at + 3) }
{
    at + 4 + s[at + 2] as usize + s[at + 3] as usize
}
