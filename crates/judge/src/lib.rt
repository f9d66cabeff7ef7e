// The judgement of a read program in a job's region: typing, then 20, then 21. The answer is the command count and the number
// left live, or the first refusal, its file not named.
#![tactic(auto)]

ghost use Rattle.std.specs.Prelude.{◌≡◌};
ghost use Rattle.answers.specs.Check.{ok};
ghost use Rattle.answers.specs.Said.{said};
ghost use Rattle.device.specs.Reader.{Owned, RowsOf};
ghost use Rattle.program.specs.Reader.{Tabled};
ghost use Rattle.rules.specs.Program.{read_program};
ghost use Rattle.rules.specs.Promises.{judged};
ghost use Rattle.rules.specs.Region.{Region};
ghost use Rattle.rules.specs.Syntax.{Program};

use answers::{Counted, Fault, Refusal};
use counting::count_program;
use program::file::ReadProgram;
use sets::LocationSet;
use sets::rows::Rows;
use typing::type_program;
use walking::walk_program;

// Main may have so many commands and no more.
const MOST_COMMANDS: usize = 65535;

// Typing takes the set of the job's locations and the routes take the rows: here both are only handed on.
pub fn judge(program: &ReadProgram<'_>, rows: &Rows, owned: LocationSet) -> Result<Counted, Refusal>
    ensures { (p : Program) → read_program program.now.bytes.now ≡ ok p → Tabled p program.now.functions program.now.main
        → (R : Region) → Owned R owned → RowsOf R rows.now → said result ≡ judged R p }
{
    let (s, functions, main) = (program.bytes, &program.functions, program.main);
    let live = type_program(s, functions, main, owned)?;
    let counted = count_program(s, functions, main);
    if MOST_COMMANDS < counted.main {
        return Err(Fault::TooManyCommands.at(0));
    }
    walk_program(s, functions, main, &counted.functions, rows, owned)?;
    Ok(Counted {
        count: counted.main,
        live,
    })
}
