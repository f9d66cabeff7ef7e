// The lines of blocks. A loop goes over a block's statements; only nesting recurses.
ghost use Rattle.listing.specs.Blocks.{BlockHere, StatementHere, BlockPut, StatementPut};

use crate::writer::Writer;
use rules::positions::{block_end, call_end};
use rules::statements::Kind;
use rules::words::Word;

// The block whose length word is at `at`, its lines so deep: the position after it.
#[cycle(put_block_put_statement)]
pub fn put_block(out: &mut Writer, s: &[u8], at: usize, depth: usize) -> usize
    requires { BlockHere s.now depth at }
    ensures { BlockPut s.now depth at out.old result out.new }
{
    let stop = block_end(s, at);
    let mut p = at + 2;
    // no range counts this loop: each statement says where the next one stands
    while p < stop {
        p = put_statement(out, s, p, depth);
    }
    p
}

// The statement at `at`, with the blocks of an if or a while: the position after it.
#[cycle(put_block_put_statement)]
fn put_statement(out: &mut Writer, s: &[u8], at: usize, depth: usize) -> usize
    requires { StatementHere s.now depth at }
    ensures { StatementPut s.now depth at out.old result out.new }
{
    let kind = Kind::known(s[at]);
    match kind {
        Kind::If => {
            out.statement_line(kind, s, at, depth);
            let middle = put_block(out, s, at + 2, depth + 1);
            out.line(depth, Word::Else, &[]);
            put_block(out, s, middle, depth + 1)
        }
        Kind::While => {
            out.statement_line(kind, s, at, depth);
            put_block(out, s, at + 2, depth + 1)
        }
        Kind::Call => {
            out.call_line(s, at, depth);
            call_end(s, at)
        }
        Kind::Init
        | Kind::Magic
        | Kind::Free
        | Kind::Gate
        | Kind::Measure
        | Kind::Merge
        | Kind::Ref
        | Kind::Get
        | Kind::Set
        | Kind::Bool => {
            out.statement_line(kind, s, at, depth);
            at + kind.size()
        }
    }
}
