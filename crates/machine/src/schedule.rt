// A schedule's bytes: 10, 11 hex for job 1 with outcome 0, 1; 20, 21 hex for job 2.
ghost use Rattle.std.specs.Prelude.{true, ◌≡◌, ℕ, ◌≤◌, ◌<◌, length, not, position, IfOk};
ghost use Rattle.answers.specs.Said.{passed};
ghost use Rattle.rules.specs.Basics.{byte};
ghost use Rattle.theory.specs.TheRun.{is_turn};
ghost use Rattle.machine.specs.Scheduled.{scheduled};

use answers::{Fault, File, Refusal};

// A schedule may have so many bytes and no more.
const MOST_STEPS: usize = 4096;

// A schedule that may be run.
#[derive(Clone, Copy)]
pub struct Schedule<'a> {
    pub bytes: &'a [u8],
    ghost short: { length bytes.now ≤ 4096 },
    ghost turns: { (i : ℕ) → i < length bytes.now → is_turn (byte bytes.now i) ≡ true },
}

// A turn is its byte, read where it is used as `is_turn` and `turn_of` of the theorems read it: the two halves are its job and its outcome.
fn is_turn(b: u8) -> bool
    ensures { result ≡ is_turn b }
{
    1 <= b / 16 && b / 16 <= 2 && b % 16 <= 1
}

// Where the first byte stands that is no turn.
fn first_no_turn(schedule: &[u8]) -> Option<usize>
    ensures { result ≡ position (λ b. not (is_turn b)) schedule.now }
{
    schedule.iter().position(|byte| !is_turn(*byte))
}

// Refuses a schedule that is too long, then the first byte that is no turn.
pub fn read_schedule(schedule: &[u8]) -> Result<Schedule<'_>, Refusal>
    ensures passed { passed result ≡ scheduled schedule.now }
    ensures bytes { IfOk result (λ read. read.bytes.now ≡ schedule.now) }
{
    if MOST_STEPS < schedule.len() {
        return Err(Fault::TooManySteps.at(0).in_file(File::Schedule));
    }
    match first_no_turn(schedule) {
        Some(i) => Err(Fault::NoTurn.at(i).in_file(File::Schedule)),
        None => Ok(Schedule { bytes: schedule }),
    }
}
