// The owner bytes of a device file.
ghost use Rattle.std.specs.Prelude.{◌≡◌, ◌+◌, ◌≤◌, ◌<◌, length};
ghost use Rattle.answers.specs.Said.{said};
ghost use Rattle.rules.specs.Device.{owners};
ghost use Rattle.device.specs.Parts.{tested, owned_by};

use answers::{Fault, Refusal};
use rules::device::DeviceHeader;

// Whether a location is the job's.
pub fn is_owner(s: &[u8], job: u8, x: usize) -> bool
    requires { 9 + x < length s.now }
    ensures { result ≡ owned_by s.now job x }
{
    s[DeviceHeader::BYTES + x] == job
}

// Tests n owner bytes: 6 at the first that names neither nobody nor a job.
pub fn test_owners(s: &[u8], n: usize) -> Result<(), Refusal>
    requires { 9 + n ≤ length s.now }
    ensures { said result ≡ tested (owners s.now 9 n) }
{
    for i in 0..n {
        let at = DeviceHeader::BYTES + i;
        if DeviceHeader::MOST_JOBS < s[at] {
            return Err(Fault::Owner.at(at));
        }
    }
    Ok(())
}
