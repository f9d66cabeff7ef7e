// Typing of a read program: the first refusal of its bodies, functions in file order and then main; else how many qubits main leaves live.
#![tactic(auto)]

ghost use Rattle.std.specs.Prelude.{◌≡◌};
ghost use Rattle.answers.specs.Said.{said};
ghost use Rattle.device.specs.Reader.{Owned};
ghost use Rattle.program.specs.In.{ProgramIn};
ghost use Rattle.program.specs.Reader.{Tabled};
ghost use Rattle.rules.specs.Region.{Region};
ghost use Rattle.rules.specs.Syntax.{Program};
ghost use Rattle.typing.specs.Functions.{typing};

use answers::Refusal;
use body::Body;
use env::Env;
use functions::type_functions;
use program::functions::FunctionTable;
use sets::LocationSet;

mod blocks;
mod body;
mod calls;
mod closing;
mod comparing;
mod endings;
mod env;
mod functions;
mod operations;
mod slots;

// The functions, each by those before it, then main with all of the job's own locations free: the number of qubits left live, since main's own block
// may end with some.
// (No `ReadProgram`: a program that stands in the bytes is less than one that they read as.)
pub fn type_program(
    s: &[u8],
    functions: &FunctionTable,
    main: usize,
    owned: LocationSet,
) -> Result<usize, Refusal>
    requires { (p : Program) × ProgramIn s.now p × Tabled p functions.now main }
    ensures { (p : Program) → ProgramIn s.now p → Tabled p functions.now main → (R : Region) → Owned R owned
        → said result ≡ typing R.owned p }
{
    let endings = type_functions(s, functions)?;
    let body = Body {
        bytes: s,
        endings,
        inside: owned,
    };
    let typed = body.type_statements(Env::new(owned), main)?;
    Ok(typed.env.live())
}
