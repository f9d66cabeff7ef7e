// The command count of a read program.
#![tactic(auto)]

ghost use Rattle.std.specs.Prelude.{◌≡◌, ℕ, ◌≤◌};
ghost use Rattle.rules.specs.Syntax.{Program};
ghost use Rattle.program.specs.In.{ProgramIn};
ghost use Rattle.program.specs.Heads.{Tabled};
ghost use Rattle.counting.specs.Counting.{Sizes, Counts};

use blocks::Body;
use program::functions::FunctionTable;

mod blocks;
mod memory;
mod sums;

pub use memory::Memory;

// The count of main, at most 65,536, and those of the functions: nothing where the program has no such function.
#[derive(Clone, Copy, Debug, PartialEq, Eq)]
pub struct Counted {
    pub main: usize,
    pub functions: [Option<usize>; 16],
}

// The counts of all functions and of main. The functions come first, in their order, so that every callee is remembered when its caller is counted and
// the calls of the count do not nest from function to function.
// (No `ReadProgram`: a program that stands in the bytes is less than one that they read as.)
pub fn count_program(s: &[u8], functions: &FunctionTable, main: usize) -> Counted
    requires { (p : Program) × ProgramIn s.now p × Tabled p functions.now main }
    ensures counts { (p : Program) → ProgramIn s.now p → Tabled p functions.now main → (φ : ℕ → ℕ) → Sizes p φ → Counts p φ result }
    ensures main_bound { result.main ≤ 65536 }
{
    let body = Body {
        bytes: s,
        functions,
        before: functions.count,
    };
    let mut memory = Memory::blank();
    for f in 0..functions.count as u8 {
        body.count_callee(f, &mut memory);
    }
    let sum = body.count_block(main, &mut memory);
    Counted {
        main: sum.count,
        functions: memory.counts,
    }
}
