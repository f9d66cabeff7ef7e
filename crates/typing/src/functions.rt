// The functions of a program, in file order: each is typed by those before it, and its ending is remembered for those after it.
ghost use Rattle.std.specs.Prelude.{[], ◌≡◌, ℕ, ◌≤◌, ltb};
ghost use Rattle.program.specs.In.{ProgramIn};
ghost use Rattle.program.specs.Reader.{Heads};
ghost use Rattle.rules.specs.Syntax.{Function, Program};
ghost use Rattle.rules.specs.Typing.{entry, type_functions};
ghost use Rattle.sets.specs.Sets.{has};
ghost use Rattle.typing.specs.Stands.{EnvIs};
ghost use Rattle.typing.specs.Functions.{Learns};

use super::body::Body;
use super::endings::Endings;
use super::env::Env;
use super::slots::Slot;
use answers::Refusal;
use program::functions::FunctionTable;
use rules::place::SlotNumber;
use sets::LocationSet;

// The first k numbers.
fn first(k: u8) -> LocationSet
    ensures { (y : ℕ) → has result y ≡ ltb y k }
{
    let mut set = LocationSet::empty();
    for i in 0..k {
        set = set.add(i);
    }
    set
}

// What a function with k places and m arguments is entered with: argument i is a qubit in slot i at place i, the other places are free.
// As `callee` of a step, over typing's own slots.
fn entered(k: u8, m: u8) -> Env
    requires { (m ≤ 8) × (m ≤ k) }
    ensures { (g : Function) → g.k ≡ k → g.m ≡ m → EnvIs k result (entry g) }
{
    let mut env = Env::new(first(k).without(first(m)));
    for i in 0..m {
        env = env.bind(SlotNumber::known(i), Slot::Qubit(i));
    }
    env
}

// What the functions end with, or the first refusal in them.
pub fn type_functions(s: &[u8], functions: &FunctionTable) -> Result<Endings, Refusal>
    requires { (p : Program) × ProgramIn s.now p × Heads p.functions functions.now }
    ensures { (p : Program) → ProgramIn s.now p → Heads p.functions functions.now
        → Learns p.functions (type_functions [] p.functions) result }
{
    let mut endings = Endings::new();
    for f in 0..functions.count as u8 {
        let head = functions.head(f);
        let body = Body {
            bytes: s,
            endings,
            inside: first(head.locations),
        };
        let entry = entered(head.locations, head.arguments);
        let typed = body.type_block(entry, head.body)?;
        endings = endings.remember(f, head.arguments, typed.env);
    }
    Ok(endings)
}
