// The run of two jobs on one device under a schedule.
ghost use Rattle.std.specs.Prelude.{◌≡◌};
ghost use Rattle.rules.specs.Device.{Device};
ghost use Rattle.rules.specs.Promises.{run_of};
ghost use Rattle.device.specs.Reader.{Reads};
ghost use Rattle.abwakiris.specs.Packed.{packed_moved};
ghost use Rattle.abwakiris.specs.Runs.{ended};

use crate::packed::packed;
use answers::{Fault, Moved, Refusal};
use device::file::DeviceFile;
use machine::schedule::read_schedule;
use program::read_program;

// Device, program 1, program 2, 22, 23, 24, then the run. Records and map are written only where the run is answered.
// The parameters are the call's own, as `abwakiris_run` has them.
pub fn run(
    device: &[u8],
    first: &[u8],
    second: &[u8],
    schedule: &[u8],
    records: &mut [u8],
    map: &mut [u8],
) -> Result<Moved, Refusal>
    ensures { ended result records.new map.new
        ≡ run_of device.now first.now second.now schedule.now records.old map.old }
{
    let device = device::read_device(device)?;
    let one = read_program(first, 1)?;
    let two = read_program(second, 2)?;
    let turns = read_schedule(schedule)?;
    if records.len() / 4 < schedule.len() {
        return Err(Fault::NoSpace.at(0));
    }
    if map.len() < device.header.locations {
        return Err(Fault::NoSpace.at(0));
    }
    Ok(machine::run::run(device, &one, &two, turns, records, map))
}

// Value: how many steps job 1 moved, and 65,536 times how many job 2 moved.
pub fn abwakiris_run(
    device: &[u8],
    first: &[u8],
    second: &[u8],
    schedule: &[u8],
    records: &mut [u8],
    map: &mut [u8],
) -> u64
    ensures answer { result ≡ packed_moved
        (run_of device.now first.now second.now schedule.now records.old map.old
        ).answer }
    ensures told { records.new
        ≡ (run_of device.now first.now second.now schedule.now records.old map.old
        ).records }
    ensures mapped { map.new
        ≡ (run_of device.now first.now second.now schedule.now records.old map.old
        ).map }
{
    packed(run(device, first, second, schedule, records, map))
}
