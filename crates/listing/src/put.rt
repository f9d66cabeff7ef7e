// Putting characters, words and numbers into a buffer, from a place on. What lies past the buffer's end is not written.
ghost use Rattle.std.specs.Prelude.{◌≡◌, ◌+◌, ◌≤◌, ◌<◌, set};
ghost use Rattle.rules.specs.Words.{decimal};
ghost use Rattle.rules.specs.Table.{word_of};
ghost use Rattle.listing.specs.Puts.{PutsAt};

use crate::writer::Writer;
use rules::words::Word;

// One character, where the buffer has room for it. It is a function of its own since the reader of listings puts bytes at places that it counts itself.
pub fn put(out: &mut [u8], at: usize, c: u8)
    ensures { out.new ≡ set out.old at c }
{
    if at < out.len() {
        out[at] = c;
    }
}

// Word `w` of the rules, from `at` on: where it ends.
pub fn put_word(out: &mut [u8], at: usize, w: usize) -> usize
    requires { (w < 26) × (at ≤ 10000000) }
    ensures puts { PutsAt out.old at (word_of w) result out.new }
    ensures upper_bound { result ≤ at + 9 }
{
    let mut writer = Writer {
        buffer: out,
        end: at,
    };
    writer.word(Word::numbered(w));
    writer.end
}

// A number in decimal, from `at` on: where it ends.
pub fn put_number(out: &mut [u8], at: usize, n: u8) -> usize
    requires { at ≤ 10000000 }
    ensures puts { PutsAt out.old at (decimal n) result out.new }
    ensures upper_bound { result ≤ at + 3 }
{
    let mut writer = Writer {
        buffer: out,
        end: at,
    };
    writer.number(n);
    writer.end
}
