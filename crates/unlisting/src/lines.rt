// Which line may stand next: the first; a statement of the innermost block, the else that is due, or what may follow once that block has ended;
// outside blocks a function or main.
ghost use Rattle.std.specs.Prelude.{true, false, ◌∷◌, [], ◌≡◌, ◌+◌, ◌-◌, ◌/◌, ◌%◌, ◌≤◌, ◌<◌, get_or, Err};
ghost use Rattle.std.proofs.lemmas.List.Edits.{sets};
ghost use Rattle.rules.specs.Unlisting.{Sofar, State};
ghost use Rattle.reading.specs.Hearing.{in_line, Onto, NumberOnto};
ghost use Rattle.standing.specs.Numbers.{no_block, fresh_of};
ghost use Rattle.standing.specs.Means.{Means, Stands};
ghost use Rattle.stating.specs.Statements.{ReadsLine, only};
ghost use Rattle.unlisting.specs.Lines.{Closes, FirstLine, FunctionWords, most_arguments, Arguments};
ghost use Rattle.unlisting.specs.Lines.{functions_of, mains_of, tops_of, lines_of, else_line, ReadsAny, Ends};

use listing::put::put;
use reading::cursor::Unread;
use reading::line::Line;
use reading::words::Token;
use rules::program::{FunctionHeader, ProgramHeader};
use rules::words::Word;
use standing::state::Standing;
use stating::statement::{ends, statement_line};

// Bytes one after the other.
fn put_bytes(out: &mut [u8], at: usize, bytes: &[u8])
    requires { at ≤ 10000 }
    ensures { out.new ≡ sets out.old at bytes.now }
{
    for (i, byte) in bytes.iter().enumerate() {
        put(out, at + i, *byte);
    }
}

// The two bytes of a length word.
pub fn put_length(out: &mut [u8], at: usize, n: u16)
    requires { at ≤ 10000 }
    ensures { out.new ≡ sets out.old at (n / 256 ∷ n % 256 ∷ []) }
{
    put_bytes(out, at, &[(n / 256) as u8, (n % 256) as u8]);
}

// The innermost block ends: its length word is put.
pub fn put_innermost(c: &Standing, out: &mut [u8])
    requires { ((p : Sofar) × Means c.now p) × (0 < c.now.depth) }
    ensures { Closes c.now out.old out.new }
{
    let word = c.blocks[c.depth - 1].word;
    put_length(out, word, (c.used - word - 2) as u16);
}

// `program 1`
fn first_line(line: &Line, at: usize, c: &Standing) -> Result<Standing, Unread>
    requires { (at ≤ line.now.stop) × (c.now ≡ fresh_of) }
    ensures { in_line FirstLine line.now at result }
{
    let at = line.expect(at, Token::Word(Word::Program), true)?;
    let at = line.expect(at, Token::Decimal(1), true)?;
    ends(at, line.end)?;
    Ok(c.begun())
}

// The words of a function's line before its numbers: `function`, its own number, `locations`.
fn function_words(line: &Line, at: usize, n: u8) -> Result<usize, Unread>
    requires { at ≤ line.now.stop }
    ensures words { in_line FunctionWords line.now at n result }
    ensures onto { Onto at line.now.stop result }
{
    let at = line.expect(at, Token::Word(Word::Function), true)?;
    let at = line.expect(at, Token::Decimal(n), true)?;
    line.expect(at, Token::Word(Word::Locations), true)
}

// How many arguments a function with `k` locations may have: those below this number.
fn most_arguments(k: u8) -> usize
    ensures value { result ≡ most_arguments k }
    ensures few { result ≤ 9 }
{
    FunctionHeader::MOST_ARGUMENTS.min(k as usize) + 1
}

// `arguments` and their number, in the line of a function with `k` locations.
fn read_arguments(line: &Line, at: usize, k: u8) -> Result<(u8, usize), Unread>
    requires { at ≤ line.now.stop }
    ensures arguments { in_line Arguments line.now at k result }
    ensures onto { NumberOnto at line.now.stop 9 result }
{
    let at = line.expect(at, Token::Word(Word::Arguments), true)?;
    line.number_below(at, most_arguments(k))
}

// A function's line, where one may stand.
fn function_line(line: &Line, at: usize, c: &Standing, out: &mut [u8]) -> Result<Standing, Unread>
    requires { (at ≤ line.now.stop) × ((p : Sofar) × Means c.now p) × (c.now.depth ≡ 0) × (c.now.in_main ≡ false) }
    ensures reads { in_line ReadsLine line.now at functions_of c.now out.old result out.new }
    ensures unchanged { result ≡ Err Unread.Not → out.new ≡ out.old }
{
    if !c.program_room(4) || c.functions == ProgramHeader::MOST_FUNCTIONS {
        return Err(Unread::Not);
    }
    let at = function_words(line, at, c.functions as u8)?;
    let (k, at) = line.number_below(at, FunctionHeader::MOST_LOCATIONS + 1)?;
    let (m, at) = read_arguments(line, at, k)?;
    ends(at, line.end)?;
    put_bytes(out, c.used, &[k, m, 0, 0]);
    Ok(c.function(k, m))
}

// `main`
fn main_line(line: &Line, at: usize, c: &Standing, out: &mut [u8]) -> Result<Standing, Unread>
    requires { (at ≤ line.now.stop) × ((p : Sofar) × Means c.now p) × (c.now.depth ≡ 0) × (c.now.in_main ≡ false) }
    ensures { in_line ReadsLine line.now at mains_of c.now out.old result out.new }
{
    let at = line.expect(at, Token::Word(Word::Main), true)?;
    ends(at, line.end)?;
    put_length(out, c.used, 0);
    Ok(c.main())
}

// A line outside functions and main.
fn top_line(line: &Line, at: usize, c: &Standing, out: &mut [u8]) -> Result<Standing, Unread>
    requires { (at ≤ line.now.stop) × ((p : Sofar) × Means c.now p) × (c.now.depth ≡ 0) }
    ensures { in_line ReadsLine line.now at tops_of c.now out.old result out.new }
{
    if c.in_main {
        return Err(Unread::Not);
    }
    match function_line(line, at, c, out) {
        Err(Unread::Not) => main_line(line, at, c, out),
        Ok(next) => Ok(next),
        Err(Unread::Begun) => Err(Unread::Begun),
    }
}

// The else of the innermost block.
fn else_line(line: &Line, at: usize, c: &Standing, out: &mut [u8]) -> Result<Standing, Unread>
    requires { (at ≤ line.now.stop) × ((p : Sofar) × Means c.now p) × (0 < c.now.depth)
        × ((get_or c.now.blocks (c.now.depth - 1) no_block).due ≡ true) }
    ensures { in_line ReadsLine line.now at (only else_line) c.now out.old result out.new }
{
    let at = line.indent(at, c.depth - 1, true)?;
    let at = line.expect(at, Token::Word(Word::Else), true)?;
    ends(at, line.end)?;
    put_innermost(c, out);
    put_length(out, c.used, 0);
    Ok(c.turned())
}

// A line after the first. From the innermost block outwards: a statement of the block; its else, if one is due; else the block has ended.
fn next_line(line: &Line, at: usize, from: &Standing, out: &mut [u8]) -> Result<Standing, Unread>
    requires { (at ≤ line.now.stop) × ((p : Sofar) × Means from.now p) }
    ensures { in_line ReadsLine line.now at lines_of from.now out.old result out.new }
{
    let mut c = *from;
    // no range counts this loop: each block that ends leaves the depth one less
    while 0 < c.depth {
        match line.indent(at, c.depth, c.statement_lives()) {
            Ok(at) => return statement_line(line, at, &c, out),
            Err(Unread::Begun) => return Err(Unread::Begun),
            Err(Unread::Not) => {}
        }
        if c.blocks[c.depth - 1].due {
            return else_line(line, at, &c, out);
        }
        put_innermost(&c, out);
        c = c.closed();
    }
    top_line(line, at, &c, out)
}

// The line at `at`, from nothing read on.
pub fn read_line(line: &Line, at: usize, c: &Standing, out: &mut [u8]) -> Result<Standing, Unread>
    requires { (at ≤ line.now.stop) × ((σ : State) × Stands c.now σ) }
    ensures { in_line ReadsAny line.now at c.now out.old result out.new }
{
    if c.started {
        next_line(line, at, c, out)
    } else {
        first_line(line, at, c)
    }
}

// The text has ended: whether it may. Open blocks end, and the header is put.
pub fn finish(from: &Standing, out: &mut [u8]) -> bool
    requires { (σ : State) × Stands from.now σ }
    ensures { Ends from.now out.old result out.new }
{
    if !from.in_main {
        return false;
    }
    let mut c = *from;
    // no range counts this loop: each block that ends leaves the depth one less
    while 0 < c.depth {
        if c.blocks[c.depth - 1].due {
            return false;
        }
        put_innermost(&c, out);
        c = c.closed();
    }
    put_bytes(out, 0, &[b'Q', b'L', b'S', 0, 1, c.functions as u8]);
    true
}
