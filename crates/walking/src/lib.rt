// The walk over the commands of a typed program: the first merge that no path joins, over the bytes of the program.
#![tactic(auto)]

ghost use Rattle.std.specs.Prelude.{◌≡◌, ℕ, ◌<◌, get_or, length, None, Some};
ghost use Rattle.answers.specs.Check.{ok, ◌>>◌ as ◌then◌};
ghost use Rattle.answers.specs.Said.{said};
ghost use Rattle.rules.specs.Region.{Region};
ghost use Rattle.rules.specs.Syntax.{device, Program};
ghost use Rattle.rules.specs.Commands.{size_of, walk};
ghost use Rattle.rules.specs.Typing.{Typed, signature};
ghost use Rattle.theory.specs.Exact.{Derives};
ghost use Rattle.device.specs.Reader.{Owned, RowsOf};
ghost use Rattle.program.specs.In.{ProgramIn};
ghost use Rattle.program.specs.Heads.{Tabled};

use answers::{Fault, Refusal};
use body::Body;
use program::functions::FunctionTable;
use quiet::Quiet;
use sets::LocationSet;
use sets::rows::Rows;
use walk::Walk;

mod body;
mod positions;
mod quiet;
mod walk;

// Walks a typed program, with the command counts of its functions: all of the region's locations are free.
// (No `ReadProgram`: a program that stands in the bytes is less than one that they read as.)
pub fn walk_program(
    s: &[u8],
    functions: &FunctionTable,
    main: usize,
    counts: &[Option<usize>; 16],
    rows: &Rows,
    owned: LocationSet,
) -> Result<(), Refusal>
    requires { (p : Program) × ProgramIn s.now p × Tabled p functions.now main }
    ensures { (p : Program) (R : Region) (d : Typed device) (e : Derives R.owned p d)
        → ProgramIn s.now p → Tabled p functions.now main → Owned R owned → RowsOf R rows.now
        → ((f : ℕ) → f < length p.functions → get_or counts.now f None ≡ Some 0 → size_of (signature e.signatures f).commands ≡ 0)
        → said result ≡ (walk R R.owned d.commands then ok tt) }
{
    let mut quiet = Quiet { ends: [0; 4096] };
    quiet.mark(s, counts);
    let walk = Walk {
        bytes: s,
        functions,
        quiet: &quiet,
        rows,
    };
    let body = Body {
        before: functions.count,
        names: None,
    };
    let mut frame = [0; 32];
    let mut free = owned;
    match walk.walk_block(&body, main, &mut frame, &mut free) {
        Ok(()) => Ok(()),
        Err(merge) => Err(Fault::NoPath.at(merge.place)),
    }
}
