// What writes a listing into a buffer: characters, words and numbers, each where the text so far ends. A character past the buffer's end goes nowhere and is
// counted all the same, so that a pass over an empty buffer measures.
ghost use Rattle.std.specs.Prelude.{[], ◌∷◌, ◌+◌, ◌<◌};
ghost use Rattle.rules.specs.Words.{decimal};
ghost use Rattle.rules.specs.Kinds.{text_of};
ghost use Rattle.listing.specs.Puts.{Puts};

use crate::put::put;
use rules::words::Word;

// A buffer, and where the text in it ends. The buffer is lent, not held: no heap. No `fmt::Write`: that one may refuse, and this counts on past the
// buffer's end.
#[derive(Drop)]
pub struct Writer<'a> {
    pub buffer: &'a mut [u8],
    pub end: usize,
}

impl Writer<'_> {
    pub fn character(&mut self, c: u8)
        ensures { Puts self.old (c ∷ []) self.new }
    {
        put(self.buffer, self.end, c);
        self.end = self.end.saturating_add(1); // the last position is past every buffer's end
    }

    pub fn characters(&mut self, text: &[u8])
        ensures { Puts self.old text.now self.new }
    {
        for c in text {
            self.character(*c);
        }
    }

    pub fn word(&mut self, word: Word)
        ensures { Puts self.old (text_of word) self.new }
    {
        self.characters(word.letters());
    }

    // A number in decimal.
    pub fn number(&mut self, n: u8)
        ensures { Puts self.old (decimal n) self.new }
    {
        if 100 <= n {
            self.digit(n / 100);
        }
        if 10 <= n {
            self.digit(n / 10 % 10);
        }
        self.digit(n % 10);
    }

    fn digit(&mut self, n: u8)
        requires { n < 10 }
        ensures { Puts self.old ((0x30 + n) ∷ []) self.new }
    {
        self.character(b'0' + n);
    }
}
