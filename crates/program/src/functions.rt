// The functions of a program: their heads and where their bodies stand.
ghost use Rattle.std.specs.Prelude.{◌≡◌, List, [], ◌+◌, ◌≤◌, ◌<◌, length};
ghost use Rattle.answers.specs.Said.{said};
ghost use Rattle.rules.specs.Syntax.{Function};
ghost use Rattle.rules.specs.Program.{functions_at};
ghost use Rattle.program.specs.Reader.{next_of, Between, Heads, no_functions, one_more, entry, function_at, FunctionsAs, next_said};

use crate::blocks;
use answers::{Fault, Refusal};
use rules::program::{FunctionHeader, ProgramHeader};

// A function's k, its m and the place of its body's length word.
#[derive(Clone, Copy, Debug, PartialEq, Eq)]
pub struct Head {
    pub locations: u8,
    pub arguments: u8,
    pub body: usize,
}

const NO_HEAD: Head = Head {
    locations: 0,
    arguments: 0,
    body: 0,
};

// The heads of so many functions. No heap: a file has at most 15.
#[derive(Clone, Copy)]
pub struct FunctionTable {
    pub count: usize,
    pub heads: [Head; 16],
}

impl FunctionTable {
    pub fn empty() -> Self
        ensures { result ≡ no_functions }
    {
        FunctionTable {
            count: 0,
            heads: [NO_HEAD; 16],
        }
    }

    // One function more.
    pub fn add(&mut self, head: Head)
        requires { self.old.count < 16 }
        ensures { self.new ≡ one_more self.old head }
    {
        self.heads[self.count] = head;
        self.count += 1;
    }

    // The head of function `g`, one of zeros where there is none: so the rules' `function` says, and `in_range` asks it of any first operand.
    pub fn head(&self, g: u8) -> Head
        ensures { result ≡ entry self.now g }
    {
        self.heads.get(g as usize).copied().unwrap_or(NO_HEAD)
    }
}

// What a body may name: the functions before it, and places below a number.
#[derive(Clone, Copy)]
pub struct Scope<'a> {
    pub functions: &'a FunctionTable,
    pub places: usize,
}

// The functions that were read, and the position after the last one.
#[derive(Clone, Copy)]
pub struct Functions {
    pub table: FunctionTable,
    pub next: usize,
}

// The function at `at`, after those of the table: its header, then its body.
fn read_function(s: &[u8], at: usize, table: &FunctionTable) -> Result<usize, Refusal>
    requires { (at ≤ length s.now) × (length s.now ≤ 4096) }
    ensures position { (fs : List Function) → Heads fs table.now → said result ≡ next_of (function_at s.now at fs) }
    ensures between { Between (at + 2) (length s.now) result }
{
    if s.len() - at < FunctionHeader::BYTES {
        return Err(Fault::NoRoom.at(at));
    }
    let header = FunctionHeader::new(at, s[at] as usize, s[at + 1] as usize)?;
    let scope = Scope {
        functions: table,
        places: header.locations,
    };
    blocks::read_block(s, at + 2, s.len(), ProgramHeader::DEEPEST, scope)
}

// So many functions from `at` on.
pub fn read_functions(s: &[u8], at: usize, n: usize) -> Result<Functions, Refusal>
    requires { (at ≤ length s.now) × (length s.now ≤ 4096) × (n ≤ 15) }
    ensures functions_as { FunctionsAs (functions_at s.now n at []) result }
    ensures between { Between at (length s.now) (next_said result) }
{
    let mut table = FunctionTable::empty();
    let mut next = at;
    for _ in 0..n {
        let end = read_function(s, next, &table)?;
        table.add(Head {
            locations: s[next],
            arguments: s[next + 1],
            body: next + 2,
        });
        next = end;
    }
    Ok(Functions { table, next })
}
