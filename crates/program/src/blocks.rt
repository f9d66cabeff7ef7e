// Blocks and statements: the block reader calls the statement reader, which enters the blocks of an if or a while. A loop goes over a block's
// statements; only nesting recurses.
ghost use Rattle.std.specs.Prelude.{◌≡◌, ◌+◌, ◌≤◌, ◌<◌, length};
ghost use Rattle.answers.specs.Said.{said};
ghost use Rattle.rules.specs.Syntax.{Side};
ghost use Rattle.rules.specs.Program as names;
ghost use Rattle.program.specs.Reader.{Between, Behind, block_past, statement_past};

use crate::functions::Scope;
use crate::operands;
use answers::{Fault, Refusal};
use rules::bytes;
use rules::statements::Kind;

// The block whose length word stands at `at`, in what ends at `limit`, with so many depths left: the position after it.
#[cycle(read_block_read_statement)]
pub fn read_block(
    s: &[u8],
    at: usize,
    limit: usize,
    depths: usize,
    scope: Scope<'_>,
) -> Result<usize, Refusal>
    requires { (at ≤ limit) × (limit ≤ length s.now) }
    ensures position { (d : Side) (S : names.Scope) → Behind S scope.entry → said result ≡ block_past s.now d S depths at limit }
    ensures between { Between at limit result }
{
    if limit - at < 2 {
        return Err(Fault::NoRoom.at(at)); // its length word does not fit
    }
    if depths == 0 {
        return Err(Fault::Limit.at(at));
    }
    let len = bytes::word_at(s, at);
    let first = at + 2;
    if limit - first < len {
        return Err(Fault::NoRoom.at(at)); // its bytes do not fit
    }
    let end = first + len;
    let mut next = first;
    // no range counts this loop: each statement says where the next one stands
    while next < end {
        next = read_statement(s, next, end, depths - 1, scope)?;
    }
    Ok(end)
}

// The statement at `at`, in a block that ends at `end`, with so many depths left for its blocks: the position after it.
#[cycle(read_block_read_statement)]
fn read_statement(
    s: &[u8],
    at: usize,
    end: usize,
    depths: usize,
    scope: Scope<'_>,
) -> Result<usize, Refusal>
    requires { (at < end) × (end ≤ length s.now) }
    ensures position { (d : Side) (S : names.Scope) → Behind S scope.entry → said result ≡ statement_past s.now d S depths at end }
    ensures between { Between (at + 1) end result }
{
    let kind = match Kind::try_from(s[at]) {
        Ok(kind) => kind,
        Err(fault) => return Err(fault.at(at)),
    };
    let next = operands::fixed_part(s, at, end, scope, kind)?;
    match kind {
        Kind::If => {
            let middle = read_block(s, next, end, depths, scope)?;
            read_block(s, middle, end, depths, scope)
        }
        Kind::While => read_block(s, next, end, depths, scope),
        Kind::Call => operands::call_list(s, at, end, scope.places),
        Kind::Init
        | Kind::Magic
        | Kind::Free
        | Kind::Gate
        | Kind::Measure
        | Kind::Merge
        | Kind::Ref
        | Kind::Get
        | Kind::Set
        | Kind::Bool => Ok(next),
    }
}
