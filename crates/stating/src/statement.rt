// A statement's line behind its indent: its name, its operands by the table, a call's lists.
ghost use Rattle.std.specs.Prelude.{true, false, ◌≡◌, ◌≤◌, ◌<◌, ◌+◌, ltb, Ok, Err};
ghost use Rattle.rules.specs.Basics.{chosen};
ghost use Rattle.rules.specs.Kinds.{byte_of, text_of};
ghost use Rattle.rules.specs.Unlisting.{Sofar, statement_line};
ghost use Rattle.rules.specs.Table.{size_of, operand_at};
ghost use Rattle.rules.specs.Listing.{silent};
ghost use Rattle.reading.specs.Hearing.{in_line, Onto, NumberOnto};
ghost use Rattle.standing.specs.Numbers.{Few, fits_of, count_of};
ghost use Rattle.standing.specs.Means.{Means};
ghost use Rattle.stating.specs.Statements.{ReadsNumbers, ReadsList, ReadsLists, ReadsOperand, ReadsOperands};
ghost use Rattle.stating.specs.Statements.{OperandsOnto, OpensBlock, BehindOperands, ReadsLine, only};

use listing::put::put;
use reading::cursor::Unread::{Begun, Not};
use reading::cursor::{Next, Unread};
use reading::line::Line;
use reading::words;
use reading::words::Token;
use rules::program::ProgramHeader;
use rules::statements::Kind;
use rules::words::Word;
use standing::rows::is_silent;
use standing::state::{Head, Standing};

// A statement's operands: the position behind them, and the first of them.
#[derive(Clone, Copy, Debug, PartialEq, Eq)]
pub struct Operands {
    pub to: usize,
    pub first: usize,
}

// The operands of a statement; its byte and theirs are put behind the file's bytes.
pub fn read_operands(
    line: &Line,
    from: usize,
    kind: Kind,
    c: &Standing,
    out: &mut [u8],
) -> Result<Operands, Unread>
    requires { (from ≤ line.now.stop) × ((p : Sofar) × Means c.now p) }
    ensures reads_operands { in_line ReadsOperands line.now from (byte_of kind) c.now out.old result out.new }
    ensures onto { OperandsOnto from line.now.stop result }
{
    let used = c.used;
    put(out, used, kind.byte());
    let mut at = from;
    let mut first = 0;
    for n in 1..kind.size() {
        let operand = kind.operand(n);
        if is_silent(operand) {
            put(out, used + n, c.unwritten(operand, first));
            continue;
        }
        let (v, to) = read_operand(line, at, kind, n, first, c)?;
        put(out, used + n, v);
        if n == 1 {
            first = v as usize;
        }
        at = to;
    }
    Ok(Operands { to: at, first })
}

// Operand number `n` of a statement, which is written: the operand, and the position behind its word.
fn read_operand(
    line: &Line,
    at: usize,
    kind: Kind,
    n: usize,
    first: usize,
    c: &Standing,
) -> Result<(u8, usize), Unread>
    requires { (at ≤ line.now.stop) × (0 < n) × (n < size_of (byte_of kind)) × (silent (operand_at (byte_of kind) n) ≡ false) × Few c.now }
    ensures reads_operand { in_line ReadsOperand line.now at (byte_of kind) n first c.now result }
    ensures onto { NumberOnto at line.now.stop (count_of c.now (operand_at (byte_of kind) n)) result }
{
    let operand = kind.operand(n);
    match line.next_word(at) {
        Next::Unfinished if c.operand_begins(&line.text[at..line.end], kind, n, first) => {
            Err(Begun)
        }
        Next::To(to) => match words::value(&line.text[at..to], operand) {
            Some(v) if v < c.program_count(operand) => Ok((v as u8, to + 1)),
            _ => Err(Not),
        },
        _ => Err(Not),
    }
}

// A list of `n` decimals below `limit` behind its word, put from `i` on; nothing where it has none.
pub fn read_list(
    line: &Line,
    from: usize,
    word: Word,
    n: usize,
    limit: usize,
    out: &mut [u8],
    i: usize,
) -> Result<usize, Unread>
    requires { (from ≤ line.now.stop) × (n ≤ 16) × (limit ≤ 256) × (i ≤ 10000) }
    ensures reads_list { in_line ReadsList line.now from (text_of word) n limit i out.old result out.new }
    ensures onto { Onto from line.now.stop result }
{
    if n == 0 {
        return Ok(from);
    }
    let at = line.expect(from, Token::Word(word), 0 < limit)?;
    read_numbers(line, at, n, limit, out, i)
}

// `n` decimals below `limit`, put from `i` on.
fn read_numbers(
    line: &Line,
    from: usize,
    n: usize,
    limit: usize,
    out: &mut [u8],
    i: usize,
) -> Result<usize, Unread>
    requires { (from ≤ line.now.stop) × (n ≤ 16) × (limit ≤ 256) × (i ≤ 10000) }
    ensures reads_numbers { in_line ReadsNumbers line.now from n limit i out.old result out.new }
    ensures onto { Onto from line.now.stop result }
{
    let mut at = from;
    for j in 0..n {
        let (v, to) = line.number_below(at, limit)?;
        put(out, i + j, v);
        at = to;
    }
    Ok(at)
}

// A call's lists: its callee's k locations, and m slots.
fn read_lists(
    line: &Line,
    at: usize,
    first: usize,
    c: &Standing,
    out: &mut [u8],
) -> Result<usize, Unread>
    requires { (at ≤ line.now.stop) × ((p : Sofar) × Means c.now p) × (first < c.now.callees) }
    ensures reads_lists { in_line ReadsLists line.now at first c.now out.old result out.new }
    ensures onto { Onto at line.now.stop result }
{
    let Head {
        locations,
        arguments,
    } = c.head(first);
    let k = locations as usize;
    let m = arguments as usize;
    if !c.program_room(4 + k + m) {
        return Err(Not);
    }
    let i = c.used + 4;
    let to = read_list(line, at, Word::At, k, c.program_places(), out, i)?;
    read_list(line, to, Word::With, m, ProgramHeader::SLOTS, out, i + k)
}

// A line that ends at `end` must end here.
pub fn ends(at: usize, end: usize) -> Result<(), Unread>
    ensures { result ≡ chosen (ltb end at) (Ok tt) (Err Unread.Not) }
{
    if end < at { Ok(()) } else { Err(Not) }
}

// A statement that holds a block: the place of its length word is put, and the line must end.
fn open_block(
    line: &Line,
    at: usize,
    due: bool,
    c: &Standing,
    out: &mut [u8],
) -> Result<Standing, Unread>
    requires { (at ≤ line.now.stop) × ((p : Sofar) × Means c.now p) × (c.now.depth < 8)
        × (c.now.used + c.now.owed + 4 + chosen due 2 0 ≤ 4096) }
    ensures { in_line OpensBlock line.now at due c.now out.old result out.new }
{
    let used = c.used;
    put(out, used + 2, 0);
    put(out, used + 3, 0);
    ends(at, line.end)?;
    Ok(c.opened(2, due))
}

// What a statement makes of the program, its operands being read up to `at`.
fn behind_operands(
    line: &Line,
    at: usize,
    kind: Kind,
    first: usize,
    c: &Standing,
    out: &mut [u8],
) -> Result<Standing, Unread>
    requires { (at ≤ line.now.stop) × ((p : Sofar) × Means c.now p) × (fits_of c.now (byte_of kind) ≡ true)
        × (byte_of kind ≡ 12 → first < c.now.callees) }
    ensures { in_line BehindOperands line.now at (byte_of kind) first c.now out.old result out.new }
{
    match kind {
        Kind::If => open_block(line, at, true, c, out),
        Kind::While => open_block(line, at, false, c, out),
        Kind::Call => {
            let Head {
                locations,
                arguments,
            } = c.head(first);
            let to = read_lists(line, at, first, c, out)?;
            ends(to, line.end)?;
            Ok(c.added(4 + locations as usize + arguments as usize))
        }
        Kind::Init
        | Kind::Magic
        | Kind::Free
        | Kind::Gate
        | Kind::Measure
        | Kind::Merge
        | Kind::Ref
        | Kind::Get
        | Kind::Set
        | Kind::Bool => {
            ends(at, line.end)?;
            Ok(c.added(kind.size()))
        }
    }
}

// A statement's line, from its name on.
pub fn statement_line(
    line: &Line,
    at: usize,
    c: &Standing,
    out: &mut [u8],
) -> Result<Standing, Unread>
    requires { (at ≤ line.now.stop) × ((p : Sofar) × Means c.now p) }
    ensures { in_line ReadsLine line.now at (only statement_line) c.now out.old result out.new }
{
    match line.next_word(at) {
        Next::Unfinished if c.name_begins(&line.text[at..line.end]) => { Err(Begun) }
        Next::To(to) => match words::kind_named(&line.text[at..to]) {
            Some(kind) if c.program_fits(kind) => {
                let operands = read_operands(line, to + 1, kind, c, out)?;
                behind_operands(line, operands.to, kind, operands.first, c, out)
            }
            _ => Err(Not),
        },
        _ => Err(Not),
    }
}
