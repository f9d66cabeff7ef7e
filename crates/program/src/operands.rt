// Operands: the fixed part of a statement, and the list of a call.
ghost use Rattle.std.specs.Prelude.{◌≡◌, ◌+◌, ◌-◌, ◌<◌, ◌≤◌, length};
ghost use Rattle.answers.specs.Said.{said};
ghost use Rattle.rules.specs.Basics.{byte};
ghost use Rattle.rules.specs.Kinds.{byte_of};
ghost use Rattle.rules.specs.Program as names;
ghost use Rattle.program.specs.Reader.{Between, Behind, fixed_part, BehindFixed, below, call_list};

use crate::functions::Scope;
use answers::{Fault, Refusal};
use rules::program::ProgramHeader;
use rules::statements::{Kind, Operand};

// Whether an operand byte is in range: places below a number, callees among the functions before, k and m the callee's.
fn in_range(scope: Scope<'_>, first: u8, operand: Operand, b: u8) -> bool
    ensures { (S : names.Scope) → Behind S scope.entry → result ≡ names.in_range S first operand b }
{
    match operand {
        Operand::Slot => (b as usize) < ProgramHeader::SLOTS,
        Operand::Location => (b as usize) < scope.places,
        Operand::Gate => b < 4,
        Operand::Basis => b < 2,
        Operand::Value => b < 2,
        Operand::Callee => (b as usize) < scope.functions.count,
        Operand::CalleeK => b == scope.functions.head(first).locations,
        Operand::CalleeM => b == scope.functions.head(first).arguments,
        Operand::Nothing => true,
    }
}

// The fixed part of the statement at `at`, of its kind: 8 where it does not fit, then 10 at the first operand out of range.
pub fn fixed_part(
    s: &[u8],
    at: usize,
    end: usize,
    scope: Scope<'_>,
    kind: Kind,
) -> Result<usize, Refusal>
    requires { (at < end) × (end ≤ length s.now) × (byte_of kind ≡ byte s.now at) }
    ensures position { (S : names.Scope) → Behind S scope.entry → said result ≡ fixed_part s.now S at end }
    ensures behind_fixed { BehindFixed s.now at end result }
{
    let size = kind.size();
    if end - at < size {
        return Err(Fault::NoRoom.at(at));
    }
    let first = s[at + 1];
    for n in 1..size {
        if !in_range(scope, first, kind.operand(n), s[at + n]) {
            return Err(Fault::Operand.at(at + n));
        }
    }
    Ok(at + size)
}

// The bytes from one position to another lie below a limit: 10 at the first that does not.
fn all_below(s: &[u8], from: usize, to: usize, limit: usize) -> Result<usize, Refusal>
    requires { (from ≤ to) × (to ≤ length s.now) }
    ensures { said result ≡ below s.now limit from (to - from) }
{
    for p in from..to {
        if limit <= s[p] as usize {
            return Err(Fault::Operand.at(p));
        }
    }
    Ok(to)
}

// The list of the call at `at`, whose fixed part fits: k places, then m slots.
pub fn call_list(s: &[u8], at: usize, end: usize, places: usize) -> Result<usize, Refusal>
    requires { (at + 4 ≤ end) × (end ≤ length s.now) }
    ensures position { said result ≡ call_list s.now places at end }
    ensures between { Between (at + 1) end result }
{
    let k = s[at + 2] as usize;
    let m = s[at + 3] as usize;
    if end - (at + 4) < k + m {
        return Err(Fault::NoRoom.at(at));
    }
    let slots = at + 4 + k;
    all_below(s, at + 4, slots, places)?;
    all_below(s, slots, slots + m, ProgramHeader::SLOTS)
}
