// The count descends into nested blocks and callees; remaining bytes, then the function number, fall. A loop goes over a block's statements; only
// nesting and calls recurse.
ghost use Rattle.std.specs.Prelude.{◌≡◌, ℕ, ◌+◌, ◌≤◌, ◌<◌, get_or, length, Some, None};
ghost use Rattle.rules.specs.Syntax.{Side, Statement, Block, Program};
ghost use Rattle.counting.specs.Below.{StatementBelow, BlockBelow, Placed};
ghost use Rattle.counting.specs.Found.{Found, BlockFound, StatementFound};

use super::memory::Memory;
use super::sums::{MOST, add, own_count};
use program::functions::FunctionTable;
use rules::positions::{block_end, call_end};
use rules::statements::Kind;

// What a body is counted over: the bytes of its program, the table of its functions, and how many of those come before the body. Calls are of these.
#[derive(Clone, Copy)]
pub struct Body<'a> {
    pub bytes: &'a [u8],
    pub functions: &'a FunctionTable,
    pub before: usize,
}

// What a statement or a block counts, and the position after it.
#[derive(Clone, Copy, Debug, PartialEq, Eq)]
pub struct Sum {
    pub count: usize,
    pub next: usize,
}

impl Body<'_> {
    // The block whose length word is at `at`.
    #[cycle(count_block_count_callee_count_statement)]
    pub fn count_block(&self, at: usize, memory: &mut Memory) -> Sum
        requires { ((p : Program) × Placed self.now p)
            × ((d : Side) × (x : Block d) × (q : ℕ) × BlockBelow self.now.bytes.now self.now.before at x q) }
        ensures found { BlockFound self.now at memory.old result memory.new }
        ensures in_file { (at + 2 ≤ result.next) × (result.next ≤ length self.now.bytes.now) }
        ensures capped { result.count ≤ 65536 }
    {
        let end = block_end(self.bytes, at);
        let mut count = 0;
        let mut next = at + 2;
        // no range counts this loop: where the next statement stands is what this one answers
        while next < end {
            let statement = self.count_statement(next, memory);
            count = add(count, statement.count);
            next = statement.next;
        }
        Sum { count, next }
    }

    // The statement at `at`, with the blocks of an if or a while and the callee of a call.
    #[cycle(count_block_count_callee_count_statement)]
    fn count_statement(&self, at: usize, memory: &mut Memory) -> Sum
        requires { ((p : Program) × Placed self.now p)
            × ((d : Side) × (x : Statement d) × (q : ℕ) × StatementBelow self.now.bytes.now self.now.before at x q) }
        ensures found { StatementFound self.now at memory.old result memory.new }
        ensures in_file { (at + 2 ≤ result.next) × (result.next ≤ length self.now.bytes.now) }
        ensures capped { result.count ≤ 65536 }
    {
        let kind = Kind::known(self.bytes[at]);
        match kind {
            Kind::If => {
                let then = self.count_block(at + 2, memory);
                let other = self.count_block(then.next, memory);
                Sum {
                    count: add(1, add(then.count, other.count)),
                    next: other.next,
                }
            }
            Kind::While => {
                let inside = self.count_block(at + 2, memory);
                Sum {
                    count: add(1, inside.count),
                    next: inside.next,
                }
            }
            Kind::Call => {
                let callee = self.bytes[at + 1];
                Sum {
                    count: self.count_callee(callee, memory),
                    next: call_end(self.bytes, at),
                }
            }
            Kind::Init
            | Kind::Magic
            | Kind::Free
            | Kind::Gate
            | Kind::Measure
            | Kind::Merge
            | Kind::Ref
            | Kind::Get
            | Kind::Set
            | Kind::Bool => Sum {
                count: own_count(kind),
                next: at + kind.size(),
            },
        }
    }

    // Function `f`, which comes before the body: counted where it has not been.
    #[cycle(count_block_count_callee_count_statement)]
    pub fn count_callee(&self, f: u8, memory: &mut Memory) -> usize
        requires { (f < self.now.before) × ((p : Program) × Placed self.now p) }
        ensures found { Found self.now (λ φ. φ f) memory.old result memory.new }
        ensures known { get_or memory.new.counts f None ≡ Some result }
        ensures capped { result ≤ 65536 }
    {
        match memory.recall(f as usize) {
            Some(count) if count <= MOST => count,
            _ => {
                let callee = Body {
                    before: f as usize,
                    ..*self
                };
                let sum = callee.count_block(self.functions.head(f).body, memory);
                memory.remember(f as usize, sum.count);
                sum.count
            }
        }
    }
}
