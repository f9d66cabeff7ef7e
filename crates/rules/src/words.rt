// The words of a listing, and their letters.
ghost use Rattle.std.specs.Prelude.{◌≡◌, ◌+◌, ◌-◌, ◌≤◌, ◌<◌, length, drop, take};
ghost use Rattle.rules.specs.Kinds.{text_of, letter_row, gate_word, numbered};
ghost use Rattle.rules.specs.Table.{word_of};

use crate::statements::Kind;

// The empty word, the words around names, the letters of gates and bases, and the names of the statement kinds.
#[derive(Clone, Copy, Debug, PartialEq, Eq)]
pub enum Word {
    Empty,
    Program,
    Function,
    Locations,
    Arguments,
    Main,
    Else,
    At,
    With,
    X,
    Z,
    H,
    S,
    Name(Kind),
}

// All words, one behind the other.
const LETTERS: [u8; 104] =
    *b"programfunctionlocationsargumentsmainelseatwithXZHSinitmagicfreegatemeasuremergerefgetsetifwhilecallbool";

// The four gates; bases are the first two.
const GATES: [Word; 4] = [Word::X, Word::Z, Word::H, Word::S];

impl Word {
    // The word of a number, in the order of the rules: the empty word is 0, and the names stand last.
    pub fn numbered(w: usize) -> Word
        requires { w < 26 }
        ensures value { result ≡ numbered w }
        ensures text { text_of result ≡ word_of w }
    {
        match w {
            0 => Word::Empty,
            1 => Word::Program,
            2 => Word::Function,
            3 => Word::Locations,
            4 => Word::Arguments,
            5 => Word::Main,
            6 => Word::Else,
            7 => Word::At,
            8 => Word::With,
            9 => Word::X,
            10 => Word::Z,
            11 => Word::H,
            12 => Word::S,
            13 => Word::Name(Kind::Init),
            14 => Word::Name(Kind::Magic),
            15 => Word::Name(Kind::Free),
            16 => Word::Name(Kind::Gate),
            17 => Word::Name(Kind::Measure),
            18 => Word::Name(Kind::Merge),
            19 => Word::Name(Kind::Ref),
            20 => Word::Name(Kind::Get),
            21 => Word::Name(Kind::Set),
            22 => Word::Name(Kind::If),
            23 => Word::Name(Kind::While),
            24 => Word::Name(Kind::Call),
            _ => Word::Name(Kind::Bool),
        }
    }

    // The word of a gate or a basis, by its number.
    pub fn gate(number: u8) -> Option<Word>
        ensures { result ≡ gate_word number }
    {
        GATES.get(number as usize).copied()
    }

    // Its characters: a part of the one row of all of them.
    pub fn letters(self) -> &'static [u8]
        ensures value { result.now ≡ text_of self }
        ensures few { length result.now ≤ 9 }
    {
        let (from, to) = self.span();
        &LETTERS[from..to]
    }

    // Where its characters stand in the row. Numbers, and no slices: a table of slices is data that a program must mend when it is loaded.
    fn span(self) -> (usize, usize)
        ensures part { take (result.1 - result.0) (drop result.0 letter_row) ≡ text_of self }
        ensures within { (result.0 ≤ result.1) × (result.1 ≤ result.0 + 9) × (result.1 ≤ 104) }
    {
        match self {
            Word::Empty => (0, 0),
            Word::Program => (0, 7),
            Word::Function => (7, 15),
            Word::Locations => (15, 24),
            Word::Arguments => (24, 33),
            Word::Main => (33, 37),
            Word::Else => (37, 41),
            Word::At => (41, 43),
            Word::With => (43, 47),
            Word::X => (47, 48),
            Word::Z => (48, 49),
            Word::H => (49, 50),
            Word::S => (50, 51),
            Word::Name(kind) => name_span(kind),
        }
    }
}

// The same of the name of a statement kind.
fn name_span(kind: Kind) -> (usize, usize)
    ensures part { take (result.1 - result.0) (drop result.0 letter_row) ≡ text_of (Word.Name kind) }
    ensures within { (result.0 ≤ result.1) × (result.1 ≤ result.0 + 9) × (result.1 ≤ 104) }
{
    match kind {
        Kind::Init => (51, 55),
        Kind::Magic => (55, 60),
        Kind::Free => (60, 64),
        Kind::Gate => (64, 68),
        Kind::Measure => (68, 75),
        Kind::Merge => (75, 80),
        Kind::Ref => (80, 83),
        Kind::Get => (83, 86),
        Kind::Set => (86, 89),
        Kind::If => (89, 91),
        Kind::While => (91, 96),
        Kind::Call => (96, 100),
        Kind::Bool => (100, 104),
    }
}
