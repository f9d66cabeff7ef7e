// The lines of a listing.
ghost use Rattle.std.specs.Prelude.{[], ◌∷◌, map, ◌+◌, ◌≤◌, ◌≡◌, length};
ghost use Rattle.rules.specs.Basics.{byte};
ghost use Rattle.rules.specs.Words.{space, join, written};
ghost use Rattle.rules.specs.Kinds.{text_of, byte_of};
ghost use Rattle.rules.specs.Table.{size_of};
ghost use Rattle.rules.specs.Listing.{indented, fixed_line};
ghost use Rattle.listing.specs.Puts.{Puts};
ghost use Rattle.listing.specs.Lines.{text_of_item, spaces, call_line};

use crate::items::Item;
use crate::writer::Writer;
use rules::statements::Kind;
use rules::words::Word;

impl Writer<'_> {
    // A line: its first word, two spaces further in for each depth, and the items behind it.
    pub fn line(&mut self, depth: usize, first: Word, items: &[Item])
        ensures { Puts self.old (written (indented depth (text_of first ∷ map text_of_item items.now) ∷ [])) self.new }
    {
        self.indent(depth);
        self.word(first);
        for item in items {
            self.item(*item);
        }
        self.character(b'\n');
    }

    // The line of the statement at `at`, which is no call.
    pub fn statement_line(&mut self, kind: Kind, s: &[u8], at: usize, depth: usize)
        requires { (byte_of kind ≡ byte s.now at) × (at + size_of (byte s.now at) ≤ length s.now) }
        ensures { Puts self.old (written (indented depth (fixed_line s.now at) ∷ [])) self.new }
    {
        self.fixed_part(kind, s, at, depth);
        self.character(b'\n');
    }

    // The line of the call at `at`, with its two lists.
    pub fn call_line(&mut self, s: &[u8], at: usize, depth: usize)
        requires { (byte s.now at ≡ 12) × (at + 4 + byte s.now (at + 2) + byte s.now (at + 3) ≤ length s.now) }
        ensures { Puts self.old (call_line s.now depth at) self.new }
    {
        self.fixed_part(Kind::Call, s, at, depth);
        let places = at + 4;
        let slots = places + s[at + 2] as usize;
        self.list(Word::At, &s[places..slots]);
        self.list(Word::With, &s[slots..slots + s[at + 3] as usize]);
        self.character(b'\n');
    }

    // The statement at `at` behind its indent: its name and its operands.
    fn fixed_part(&mut self, kind: Kind, s: &[u8], at: usize, depth: usize)
        requires { (byte_of kind ≡ byte s.now at) × (at + size_of (byte s.now at) ≤ length s.now) }
        ensures { Puts self.old (join space (indented depth (fixed_line s.now at))) self.new }
    {
        self.indent(depth);
        self.word(Word::Name(kind));
        let operands = kind.operands();
        for i in 0..operands.len() {
            self.operand(operands[i], s[at + 1 + i]);
        }
    }

    fn indent(&mut self, depth: usize)
        ensures { Puts self.old (spaces depth) self.new }
    {
        for _ in 0..depth {
            self.characters(b"  ");
        }
    }
}
