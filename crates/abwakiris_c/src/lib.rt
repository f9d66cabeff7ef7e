// The library for C: one export for each call, under the same name, with the same promise.
#![tactic(auto)]

ghost use Rattle.std.specs.Prelude.{◌≡◌};
ghost use Rattle.rules.specs.Promises.{check_of, read_device_of, read_program_of};
ghost use Rattle.rules.specs.Promises.{read_listing_of, write_listing_of};
ghost use Rattle.rules.specs.Promises.{route_of, run_of};
ghost use Rattle.abwakiris.specs.Packed.{packed_counted, packed_moved, packed_read, packed_value};

use abwakiris::{checks, listings, reads, routes, runs};

// Value: n, the number of locations.
#[unsafe(no_mangle)]
pub extern "C" fn abwakiris_read_device(bytes: &[u8]) -> u64
    ensures { result ≡ packed_value (read_device_of bytes.now) }
{
    reads::abwakiris_read_device(bytes)
}

// Value 0.
#[unsafe(no_mangle)]
pub extern "C" fn abwakiris_read_program(bytes: &[u8]) -> u64
    ensures { result ≡ packed_read (read_program_of bytes.now) }
{
    reads::abwakiris_read_program(bytes)
}

// Value: the command count, and 65,536 times the number left live.
#[unsafe(no_mangle)]
pub extern "C" fn abwakiris_check(device: &[u8], program: &[u8], job: u64) -> u64
    ensures { result ≡ packed_counted (check_of device.now program.now job) }
{
    checks::abwakiris_check(device, program, job)
}

// Value: the number of locations.
#[unsafe(no_mangle)]
pub extern "C" fn abwakiris_route(
    device: &[u8],
    job: u64,
    occupancy: &[u8],
    first: u64,
    second: u64,
    buffer: &mut [u8],
) -> u64
    ensures answer { result ≡ packed_value (route_of device.now job occupancy.now first second buffer.old).answer }
    ensures written { buffer.new
        ≡ (route_of device.now job occupancy.now first second buffer.old).buffer }
{
    routes::abwakiris_route(device, job, occupancy, first, second, buffer)
}

// Value: how many steps job 1 moved, and 65,536 times how many job 2 moved.
#[unsafe(no_mangle)]
pub extern "C" fn abwakiris_run(
    device: &[u8],
    first: &[u8],
    second: &[u8],
    schedule: &[u8],
    records: &mut [u8],
    map: &mut [u8],
) -> u64
    ensures answer { result ≡ packed_moved
        (run_of device.now first.now second.now schedule.now records.old map.old
        ).answer }
    ensures told { records.new
        ≡ (run_of device.now first.now second.now schedule.now records.old map.old
        ).records }
    ensures mapped { map.new
        ≡ (run_of device.now first.now second.now schedule.now records.old map.old
        ).map }
{
    runs::abwakiris_run(device, first, second, schedule, records, map)
}

// Value: the bytes of the text.
#[unsafe(no_mangle)]
pub extern "C" fn abwakiris_write_listing(program: &[u8], text: &mut [u8]) -> u64
    ensures answer { result ≡ packed_value (write_listing_of program.now text.old).answer }
    ensures written { text.new ≡ (write_listing_of program.now text.old).buffer }
{
    listings::abwakiris_write_listing(program, text)
}

// Value: the bytes of the program.
#[unsafe(no_mangle)]
pub extern "C" fn abwakiris_read_listing(text: &[u8], program: &mut [u8]) -> u64
    ensures answer { result ≡ packed_value (read_listing_of text.now program.old).answer }
    ensures written { program.new ≡ (read_listing_of text.now program.old).buffer }
{
    listings::abwakiris_read_listing(text, program)
}
