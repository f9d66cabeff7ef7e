// Which statements may stand next, and whether any line goes on behind a part of one: there must be room for its bytes, a depth for its blocks, and for each
// operand that is still to come at least one word.
ghost use Rattle.std.specs.Prelude.{true, ◌≡◌, ◌+◌, ◌≤◌, ◌<◌, eqb};
ghost use Rattle.rules.specs.Basics.{chosen};
ghost use Rattle.rules.specs.Kinds.{byte_of};
ghost use Rattle.rules.specs.Table.{operand_at};
ghost use Rattle.rules.specs.Listing.{silent};
ghost use Rattle.standing.specs.Numbers.{Short, Few, room_of, block_bytes, fits_of, words_of, count_of, worded_of, worded_from, unwritten_of, call_lives};
ghost use Rattle.standing.specs.Numbers.{rest_lives, row_lives, statement_lives, name_begins, offers, operand_begins};

use crate::state::{Head, Standing};
use reading::words::{Token, begins, word_for};
use rules::program::ProgramHeader;
use rules::statements::{KINDS, Kind, Operand};
use rules::words::Word;

// The length words that a statement's blocks take.
fn block_bytes(kind: Kind) -> usize
    ensures value { result ≡ block_bytes (byte_of kind) }
    ensures few { result ≤ 4 }
{
    match kind {
        Kind::If => 4,
        Kind::While => 2,
        Kind::Init
        | Kind::Magic
        | Kind::Free
        | Kind::Gate
        | Kind::Measure
        | Kind::Merge
        | Kind::Ref
        | Kind::Get
        | Kind::Set
        | Kind::Call
        | Kind::Bool => 0,
    }
}

// A call's k and m are its callee's, and are not written.
pub fn is_silent(operand: Operand) -> bool
    ensures { result ≡ silent operand }
{
    matches!(
        operand,
        Operand::CalleeK | Operand::CalleeM | Operand::Nothing
    )
}

impl Standing {
    // Whether a file has room for `n` bytes more.
    pub fn room(&self, n: usize) -> bool
        requires { n ≤ 1000 }
        ensures { result ≡ room_of self.now n }
    {
        // each number alone first: a sum of any two may be more than a usize holds
        self.used <= ProgramHeader::MOST_BYTES
            && self.owed <= ProgramHeader::MOST_BYTES
            && self.program_room(n)
    }

    // The same where the numbers are small, as a program's are.
    pub fn program_room(&self, n: usize) -> bool
        requires { Short self.now × (n ≤ 1000) }
        ensures { result ≡ room_of self.now n }
    {
        self.used + self.owed + n <= ProgramHeader::MOST_BYTES
    }

    // Whether a statement has room, and a depth for its blocks. `room(0)` comes first: where it holds the numbers are small, and elsewhere nothing fits.
    pub fn fits(&self, kind: Kind) -> bool
        ensures { result ≡ fits_of self.now (byte_of kind) }
    {
        self.room(0) && self.program_fits(kind)
    }

    // The same where the numbers are small, as a program's are.
    pub fn program_fits(&self, kind: Kind) -> bool
        requires { Short self.now }
        ensures { result ≡ fits_of self.now (byte_of kind) }
    {
        let blocks = block_bytes(kind);
        self.program_room(kind.size() + blocks)
            && (blocks == 0 || self.depth < ProgramHeader::DEEPEST)
    }

    // How many words an operand would have if it were no byte: of places and functions as many as the numbers say.
    fn words(&self, operand: Operand) -> usize
        ensures { result ≡ words_of self.now operand }
    {
        match operand {
            Operand::Slot => ProgramHeader::SLOTS,
            Operand::Location => self.places,
            Operand::Gate => 4,
            Operand::Basis | Operand::Value => 2,
            Operand::Callee => self.callees,
            Operand::CalleeK | Operand::CalleeM | Operand::Nothing => 0,
        }
    }

    // How many words there are for an operand: at most 256, as it is one byte. (`in_range` of `program` says the same of an operand byte; the rules have both,
    // each for its reader.)
    pub fn count(&self, operand: Operand) -> usize
        ensures value { result ≡ count_of self.now operand }
        ensures most { result ≤ 256 }
    {
        self.words(operand).min(256)
    }

    // The same where there are at most 256, as in a program.
    pub fn program_count(&self, operand: Operand) -> usize
        requires { Few self.now }
        ensures value { result ≡ count_of self.now operand }
        ensures most { result ≤ 256 }
    {
        self.words(operand)
    }

    // What an operand that is not written is, where the first of the statement is `first`; 0 for one that is written: who calls has asked `is_silent`, so an
    // option would be unwrapped, and never none.
    pub fn unwritten(&self, operand: Operand, first: usize) -> u8
        ensures { result ≡ unwritten_of self.now operand first }
    {
        match operand {
            Operand::CalleeK => self.head(first).locations,
            Operand::CalleeM => self.head(first).arguments,
            Operand::Slot
            | Operand::Location
            | Operand::Gate
            | Operand::Basis
            | Operand::Value
            | Operand::Callee
            | Operand::Nothing => 0,
        }
    }

    // Whether a call of function `f` has room, and places for its locations.
    pub fn call_lives(&self, f: usize) -> bool
        ensures { result ≡ call_lives self.now f }
    {
        let Head {
            locations,
            arguments,
        } = self.head(f);
        self.room(4 + locations as usize + arguments as usize)
            && (locations == 0 || 0 < self.places)
    }

    // Whether an operand that is still to come has a word, or is not written.
    fn worded(&self, operand: Operand) -> bool
        ensures { result ≡ worded_of self.now operand }
    {
        is_silent(operand) || 0 < self.words(operand)
    }

    // The same of each operand behind number `n`.
    fn worded_behind(&self, kind: Kind, n: usize) -> bool
        ensures { result ≡ worded_from self.now (byte_of kind) (n + 1) }
    {
        kind.operands()
            .iter()
            .skip(n)
            .all(|operand| self.worded(*operand))
    }

    // Whether any line goes on behind a statement's operands, of which the first is `first`: a call has lists.
    fn lists_live(&self, kind: Kind, first: usize) -> bool
        ensures { result ≡ chosen (eqb (byte_of kind) 12) (call_lives self.now first) true }
    {
        match kind {
            Kind::Call => self.call_lives(first),
            Kind::Init
            | Kind::Magic
            | Kind::Free
            | Kind::Gate
            | Kind::Measure
            | Kind::Merge
            | Kind::Ref
            | Kind::Get
            | Kind::Set
            | Kind::If
            | Kind::While
            | Kind::Bool => true,
        }
    }

    // Whether any line goes on behind operand number `n` of a statement, where the first is `first`.
    pub fn lives_behind(&self, kind: Kind, n: usize, first: usize) -> bool
        ensures { result ≡ rest_lives self.now (byte_of kind) (n + 1) first }
    {
        self.worded_behind(kind, n) && self.lists_live(kind, first)
    }

    // The same with operand number `n`. Number 0 is the statement's byte, for which nothing is asked.
    pub fn rest_lives(&self, kind: Kind, n: usize, first: usize) -> bool
        ensures { result ≡ rest_lives self.now (byte_of kind) n first }
    {
        self.lives_behind(kind, n.saturating_sub(1), first)
    }

    // Whether any line goes on behind the name of a statement.
    pub fn row_lives(&self, kind: Kind) -> bool
        ensures { result ≡ row_lives self.now (byte_of kind) }
    {
        let words = self.count(kind.operand(1));
        self.fits(kind) && (0..words).any(|v| self.rest_lives(kind, 2, v))
    }

    // Whether any statement may stand next.
    pub fn statement_lives(&self) -> bool
        ensures { result ≡ statement_lives self.now }
    {
        KINDS.iter().any(|kind| self.row_lives(*kind))
    }

    // Whether an unfinished name begins that of a statement behind which some line goes on.
    pub fn name_begins(&self, part: &[u8]) -> bool
        ensures { result ≡ name_begins self.now part.now }
    {
        KINDS.iter().any(|kind| begins(part, Token::Word(Word::Name(*kind)))
            && self.row_lives(*kind))
    }

    // Whether what is written begins word `v` for operand number `n` of a statement, which is `operand`, and some line goes on behind it.
    fn offers(
        &self,
        part: &[u8],
        kind: Kind,
        operand: Operand,
        n: usize,
        first: usize,
        v: u8,
    ) -> bool
        requires { operand ≡ operand_at (byte_of kind) n }
        ensures { result ≡ offers self.now part.now (byte_of kind) n first v }
    {
        let first = if n == 1 { v as usize } else { first };
        begins(part, word_for(operand, v)) && self.lives_behind(kind, n, first)
    }

    // Whether an unfinished operand number `n` of a statement begins one behind which some line goes on.
    pub fn operand_begins(&self, part: &[u8], kind: Kind, n: usize, first: usize) -> bool
        requires { 0 < n }
        ensures { result ≡ operand_begins self.now part.now (byte_of kind) n first }
    {
        let operand = kind.operand(n);
        // no `any`: tried, and the closure's part does not close, with six variables in it
        for v in 0..self.count(operand) {
            if self.offers(part, kind, operand, n, first, v as u8) {
                return true;
            }
        }
        false
    }
}
