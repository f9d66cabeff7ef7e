// Words of a line: where one ends, and which word it is. Callers pass the characters of the word that stands there.
ghost use Rattle.std.specs.Prelude.{◌≡◌, ◌≤◌, ◌<◌, not, false, eqb, length};
ghost use Rattle.rules.specs.Basics.{same_list};
ghost use Rattle.rules.specs.Words.{opens};
ghost use Rattle.std.specs.List.{prefix_len};
ghost use Rattle.rules.specs.Listing.{silent};
ghost use Rattle.reading.specs.Cursor.{LineEnd, WordEnd, spelling, Digit, Numeral, Named, Valued, numbered_token, token_for};

use rules::statements::{Kind, Operand};
use rules::words::Word;

// A word of the grammar: one of the vocabulary, or a decimal.
#[derive(Clone, Copy, Debug, PartialEq, Eq)]
pub enum Token {
    Word(Word),
    Decimal(u8),
}

impl Token {
    // The token of a word's number: the vocabulary and the names, then the decimals.
    pub fn numbered(w: usize) -> Token
        requires { w < 282 }
        ensures { result ≡ numbered_token w }
    {
        if w < 26 {
            Token::Word(Word::numbered(w))
        } else {
            Token::Decimal((w - 26) as u8)
        }
    }

    // Its characters; those of a decimal are put into `room`, since there is no heap.
    fn letters(self, room: &mut [u8; 3]) -> &[u8]
        ensures { result.now ≡ spelling self }
    {
        match self {
            Token::Word(word) => word.letters(),
            Token::Decimal(n) => {
                *room = [b'0' + n / 100, b'0' + n / 10 % 10, b'0' + n % 10];
                if n < 10 {
                    &room[2..]
                } else if n < 100 {
                    &room[1..]
                } else {
                    room
                }
            }
        }
    }
}

// How many characters stand before the first separator.
fn until(text: &[u8], separator: u8) -> usize
    ensures { result ≡ prefix_len (λ c. not (eqb c separator)) text.now }
{
    text.iter().take_while(|c| **c != separator).count()
}

// Where the line at `at` ends: at its newline, or with the text.
pub fn line_end(text: &[u8], at: usize) -> usize
    requires { at ≤ length text.now }
    ensures within { (at ≤ result) × (result ≤ length text.now) }
    ensures line_end { LineEnd text.now at result }
{
    at + until(&text[at..], b'\n')
}

// Where the word at `at` ends: at the next space, or with the line.
pub fn word_end(text: &[u8], at: usize, end: usize) -> usize
    requires { (at ≤ end) × (end ≤ length text.now) }
    ensures within { (at ≤ result) × (result ≤ end) }
    ensures word_end { WordEnd text.now at end result }
{
    at + until(&text[at..end], b' ')
}

// Whether what is written begins a word: its first characters, or all of them.
pub fn begins(part: &[u8], token: Token) -> bool
    ensures { result ≡ opens part.now (spelling token) }
{
    let mut room = [0; 3];
    token.letters(&mut room).starts_with(part)
}

// Whether a word is written.
pub fn is_word(part: &[u8], token: Token) -> bool
    ensures { result ≡ same_list eqb part.now (spelling token) }
{
    let mut room = [0; 3];
    part == token.letters(&mut room)
}

// A digit's value.
fn digit(c: u8) -> Option<usize>
    ensures { Digit c result }
{
    match c {
        b'0'..=b'9' => Some((c - b'0') as usize),
        _ => None,
    }
}

// The number below 1,000 that is written, in decimal without leading zeros. (No `parse`: it takes a sign and leading zeros.)
pub fn number(part: &[u8]) -> Option<usize>
    ensures { Numeral part.now result }
{
    if part.is_empty() || 3 < part.len() {
        return None;
    }
    if 1 < part.len() && part[0] == b'0' {
        return None; // a leading zero
    }
    let mut n = 0;
    for c in part {
        n = 10 * n + digit(*c)?;
    }
    Some(n)
}

// The statement kind whose name is written.
pub fn kind_named(part: &[u8]) -> Option<Kind>
    ensures { Named part.now result }
{
    // by the bytes and not over `KINDS`: that proof needs what stands at each place of it
    for byte in 1..14 {
        let kind = Kind::known(byte);
        if is_word(part, Token::Word(Word::Name(kind))) {
            return Some(kind);
        }
    }
    None
}

// The number of the gate or basis that is written: as above, over another table.
fn gate(part: &[u8]) -> Option<usize>
    ensures gates { Valued Operand.Gate part.now result }
    ensures bases { Valued Operand.Basis part.now result }
{
    for g in 0..4 {
        if is_word(part, word_for(Operand::Gate, g)) {
            return Some(g as usize);
        }
    }
    None
}

// The operand that is written, which counts only where it is below how many there are.
pub fn value(part: &[u8], operand: Operand) -> Option<usize>
    requires { silent operand ≡ false }
    ensures { Valued operand part.now result }
{
    match operand {
        Operand::Gate | Operand::Basis => gate(part),
        _ => number(part),
    }
}

// The word for operand `v`. A gate above the four has no word, and gets the one whose number comes next: no line asks for it, as callers go over numbers below
// how many words there are.
pub fn word_for(operand: Operand, v: u8) -> Token
    ensures { result ≡ token_for operand v }
{
    match operand {
        Operand::Gate | Operand::Basis => Token::numbered(9 + v as usize),
        _ => Token::Decimal(v),
    }
}
