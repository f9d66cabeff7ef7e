// The check of a job's program on a device.
ghost use Rattle.std.specs.Prelude.{◌≡◌};
ghost use Rattle.answers.specs.Said.{said};
ghost use Rattle.rules.specs.Device.{Device};
ghost use Rattle.rules.specs.Region.{region_of};
ghost use Rattle.rules.specs.Promises.{check_of};
ghost use Rattle.device.specs.Reader.{Reads};
ghost use Rattle.abwakiris.specs.Packed.{packed_counted};
ghost use Rattle.abwakiris.specs.Checking.{checked_in};

use crate::jobs::job_of;
use crate::packed::packed;
use answers::{Counted, File, Refusal};
use device::file::DeviceFile;
use judge::judge;
use program::read_program;
use sets::rows::Rows;

// Job, device, program, typing, 20, 21.
pub fn check(device: &[u8], program: &[u8], job: u64) -> Result<Counted, Refusal>
    ensures { said result ≡ check_of device.now program.now job }
{
    let job = job_of(job)?;
    let device = device::read_device(device)?;
    check_in(device, program, job)
}

// Value: the command count, and 65,536 times the number left live.
pub fn abwakiris_check(device: &[u8], program: &[u8], job: u64) -> u64
    ensures { result ≡ packed_counted (check_of device.now program.now job) }
{
    packed(check(device, program, job))
}

// On a device that was read, for a job that is one.
fn check_in(device: DeviceFile<'_>, program: &[u8], job: u8) -> Result<Counted, Refusal>
    ensures { (D : Device) → Reads device.entry.bytes.now device.entry.header D
        → said result ≡ checked_in (region_of D job) program.now job }
{
    let program = read_program(program, job)?;
    let owned = device.owned_by(job);
    let mut rows = Rows::empty();
    device.region_rows(job, &mut rows);
    judge(&program, &rows, owned).map_err(|x| x.in_file(File::Program(job)))
}
