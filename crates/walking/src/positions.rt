// Where statements end.
ghost use Rattle.std.specs.Prelude.{◌≡◌, ℕ, ◌≤◌, length};
ghost use Rattle.rules.specs.Syntax.{Side, Statement};
ghost use Rattle.rules.specs.Program.{Scope};
ghost use Rattle.program.specs.In.{StatementIn};

use rules::positions::{block_end, call_end};
use rules::statements::Kind;

// The position after the statement at `at`.
pub fn statement_end(s: &[u8], at: usize) -> usize
    requires { (length s.now ≤ 4096) × ((d : Side) × (S : Scope) × (depths : ℕ) × (t : Statement d)
        × (q : ℕ) × StatementIn s.now S depths at t q) }
    ensures { (d : Side) (S : Scope) (depths : ℕ) (t : Statement d) (q : ℕ) → StatementIn s.now S depths at t q → result ≡ q }
{
    let kind = Kind::known(s[at]);
    match kind {
        Kind::If => block_end(s, block_end(s, at + 2)),
        Kind::While => block_end(s, at + 2),
        Kind::Call => call_end(s, at),
        Kind::Init
        | Kind::Magic
        | Kind::Free
        | Kind::Gate
        | Kind::Measure
        | Kind::Merge
        | Kind::Ref
        | Kind::Get
        | Kind::Set
        | Kind::Bool => at + kind.size(),
    }
}
