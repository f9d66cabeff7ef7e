// The number of a job, as a caller gives it.
ghost use Rattle.std.specs.Prelude.{true, false, ◌||◌, ◌≡◌, eqb, IfOk, IfErr};
ghost use Rattle.answers.specs.Check.{refusal};

use answers::{Fault, Refusal};

// Job 1 or 2; 25 for any other.
// A job stays its number: owner bytes, the bytes of a map and the file of a refusal are that number (`region_of`, `written`, `file_code`).
pub fn job_of(number: u64) -> Result<u8, Refusal>
    ensures ok { IfOk result (λ job. (job ≡ number) × ((eqb number 1 || eqb number 2) ≡ true)) }
    ensures err { IfErr result (λ x. (x ≡ refusal 25 0) × ((eqb number 1 || eqb number 2) ≡ false)) }
{
    match number {
        1 => Ok(1),
        2 => Ok(2),
        _ => Err(Fault::NoJob.at(0)),
    }
}
