// The words of a line behind their spaces: an item, an operand, a list.
ghost use Rattle.std.specs.Prelude.{◌∷◌, ◌≡◌};
ghost use Rattle.rules.specs.Words.{space, behind};
ghost use Rattle.rules.specs.Kinds.{text_of};
ghost use Rattle.rules.specs.Listing.{listed};
ghost use Rattle.listing.specs.Puts.{Puts};
ghost use Rattle.listing.specs.Lines.{text_of_item, line_of, said};

use crate::writer::Writer;
use rules::statements::Operand;
use rules::words::Word;

// What a line is made of. A gate or a basis is given by its number, and has no letter where there is no such gate.
#[derive(Clone, Copy)]
pub enum Item {
    Word(Word),
    Number(u8),
    Gate(u8),
}

impl Item {
    // An operand byte as it is said; a call's k and m are its callee's, and are not.
    fn operand(kind: Operand, byte: u8) -> Option<Item>
        ensures { line_of result ≡ said kind byte }
    {
        match kind {
            Operand::Gate | Operand::Basis => Some(Item::Gate(byte)),
            Operand::Slot | Operand::Location | Operand::Value | Operand::Callee => {
                Some(Item::Number(byte))
            }
            Operand::CalleeK | Operand::CalleeM | Operand::Nothing => None,
        }
    }
}

impl Writer<'_> {
    // An item behind a space.
    pub fn item(&mut self, item: Item)
        ensures { Puts self.old (space ∷ text_of_item item) self.new }
    {
        self.character(b' ');
        match item {
            Item::Word(word) => self.word(word),
            Item::Number(n) => self.number(n),
            Item::Gate(number) => {
                if let Some(word) = Word::gate(number) {
                    self.word(word);
                }
            }
        }
    }

    // An operand byte behind a space; nothing where its kind is not said.
    pub fn operand(&mut self, kind: Operand, byte: u8)
        ensures { Puts self.old (behind space (said kind byte)) self.new }
    {
        if let Some(item) = Item::operand(kind, byte) {
            self.item(item);
        }
    }

    // A list of a call: its word and its numbers; nothing where there are none.
    pub fn list(&mut self, word: Word, numbers: &[u8])
        ensures { Puts self.old (behind space (listed (text_of word) numbers.now)) self.new }
    {
        if numbers.is_empty() {
            return;
        }
        self.item(Item::Word(word));
        for n in numbers {
            self.item(Item::Number(*n));
        }
    }
}
