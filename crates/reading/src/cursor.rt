// Reading a line word by word. Words stand from a position on; where that is past the line's end none is left. The last word of an unfinished line may be
// unfinished too.
ghost use Rattle.std.specs.Prelude.{◌≤◌};
ghost use Rattle.reading.specs.Cursor.{spelling};
ghost use Rattle.reading.specs.Hearing.{in_line, NextWord, Expects, Indents, Numbers, Onto, NumberOnto, Blank};

use crate::cursor::Unread::{Begun, Not};
use crate::line::Line;
use crate::words;
use crate::words::Token;

// Why a line was not read: it begins nothing, or it is unfinished and begins a line.
#[derive(Clone, Copy, Debug, PartialEq, Eq)]
pub enum Unread {
    Not,
    Begun,
}

// The word at a position: none is left; it is unfinished; or it ends at a position. An option or a result says less than these three. Who reads a word
// matches on them: one function for all would take what begins and what is read as two closures.
#[derive(Clone, Copy, Debug, PartialEq, Eq)]
pub enum Next {
    Nothing,
    Unfinished,
    To(usize),
}

impl Line<'_> {
    pub fn next_word(&self, at: usize) -> Next
        requires { at ≤ self.now.stop }
        ensures { in_line NextWord self.now at result }
    {
        if self.end < at {
            return Next::Nothing;
        }
        let to = words::word_end(self.text, at, self.end);
        if to == self.stop {
            Next::Unfinished
        } else {
            Next::To(to)
        }
    }

    // One word must stand here, and `lives` says whether any line goes on behind it.
    pub fn expect(&self, at: usize, token: Token, lives: bool) -> Result<usize, Unread>
        requires { at ≤ self.now.stop }
        ensures expects { in_line Expects self.now at (spelling token) lives result }
        ensures onto { Onto at self.now.stop result }
    {
        match self.next_word(at) {
            Next::Unfinished if lives && words::begins(&self.text[at..self.end], token) => Err(
                Begun,
            ),
            Next::To(to) if words::is_word(&self.text[at..to], token) => Ok(to + 1),
            _ => Err(Not),
        }
    }

    // Two spaces for each depth, as so many empty words.
    pub fn indent(&self, at: usize, depth: usize, lives: bool) -> Result<usize, Unread>
        requires { (at ≤ self.now.stop) × (depth ≤ 8) }
        ensures indents { in_line Indents self.now at depth lives result }
        ensures onto { Onto at self.now.stop result }
        ensures blank { Blank self.now.text.now at self.now.end depth result }
    {
        let mut p = at;
        for _ in 0..2 * depth {
            match self.next_word(p) {
                Next::To(to) if to == p => p = to + 1,
                Next::Unfinished if p == self.end && lives => return Err(Begun),
                _ => return Err(Not),
            }
        }
        Ok(p)
    }

    // A decimal below `limit` must stand here, and behind each of them some line goes on: the number, and the position behind its word.
    pub fn number_below(&self, at: usize, limit: usize) -> Result<(u8, usize), Unread>
        requires { (at ≤ self.now.stop) × (limit ≤ 256) }
        ensures numbers { in_line Numbers self.now at limit result }
        ensures onto { NumberOnto at self.now.stop limit result }
    {
        match self.next_word(at) {
            Next::Nothing => Err(Not),
            Next::Unfinished => {
                for v in 0..limit {
                    if words::begins(&self.text[at..self.end], Token::Decimal(v as u8)) {
                        return Err(Begun);
                    }
                }
                Err(Not)
            }
            Next::To(to) => match words::number(&self.text[at..to]) {
                Some(v) if v < limit => Ok((v as u8, to + 1)),
                _ => Err(Not),
            },
        }
    }
}
