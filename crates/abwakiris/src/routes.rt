// The route search between two locations of a job's region.
ghost use Rattle.std.specs.Prelude.{true, false, ◌≡◌, ℕ, length, IfOk, IfErr, IfSome, IfNone};
ghost use Rattle.answers.specs.Said.{passed};
ghost use Rattle.rules.specs.Device.{Device};
ghost use Rattle.rules.specs.Region.{Region, region_of};
ghost use Rattle.rules.specs.Path as path;
ghost use Rattle.rules.specs.Promises.{route_of};
ghost use Rattle.sets.specs.Sets.{has};
ghost use Rattle.device.specs.Reader.{Reads, RowsOf};
ghost use Rattle.abwakiris.specs.Packed.{packed_value};
ghost use Rattle.abwakiris.specs.Routing.{asked, told, Finds, Routes};

use crate::jobs::job_of;
use crate::packed::packed;
use answers::{Fault, Refusal};
use device::file::DeviceFile;
use device::free::free_in;
use route::{NoRoute, find_route};
use sets::LocationSet;
use sets::rows::Rows;

// Job, device, 26, the two ends, then the search. The buffer is written only where a route is answered.
pub fn route(
    device: &[u8],
    job: u64,
    occupancy: &[u8],
    first: u64,
    second: u64,
    buffer: &mut [u8],
) -> Result<usize, Refusal>
    ensures { told result buffer.new ≡ route_of device.now job occupancy.now first second buffer.old }
{
    let job = job_of(job)?;
    let device = device::read_device(device)?;
    route_in(device, job, occupancy, first, second, buffer)
}

// Value: the number of locations.
pub fn abwakiris_route(
    device: &[u8],
    job: u64,
    occupancy: &[u8],
    first: u64,
    second: u64,
    buffer: &mut [u8],
) -> u64
    ensures answer { result ≡ packed_value (route_of device.now job occupancy.now first second buffer.old).answer }
    ensures written { buffer.new
        ≡ (route_of device.now job occupancy.now first second buffer.old).buffer }
{
    packed(route(device, job, occupancy, first, second, buffer))
}

// On a device that was read, for a job that is one.
// The parameters are the call's own, as `abwakiris_route` has them.
fn route_in(
    device: DeviceFile<'_>,
    job: u8,
    occupancy: &[u8],
    first: u64,
    second: u64,
    buffer: &mut [u8],
) -> Result<usize, Refusal>
    ensures { (D : Device) → Reads device.entry.bytes.now device.entry.header D
        → Routes (region_of D job) (length D.owners) occupancy.now first second buffer.old result buffer.new }
{
    let owned = device.owned_by(job);
    let (a, b) = ends(owned, device.header.locations, occupancy, first, second)?;
    let mut rows = Rows::empty();
    device.region_rows(job, &mut rows);
    search(&rows, free_in(owned, occupancy), a, b, buffer)
}

// What is asked before the search: 26, 13 for each end, 15. The ends are two locations.
fn ends(
    owned: LocationSet,
    n: usize,
    occupancy: &[u8],
    first: u64,
    second: u64,
) -> Result<(u8, u8), Refusal>
    ensures asked { passed result ≡ asked (has owned) n occupancy.now first second }
    ensures same { IfOk result (λ ends. (ends.0 ≡ first) × (ends.1 ≡ second)) }
{
    if occupancy.len() != n {
        return Err(Fault::MapLength.at(0));
    }
    let a = inside(owned, first).ok_or(Fault::Outside.at(0))?;
    let b = inside(owned, second).ok_or(Fault::Outside.at(1))?;
    if a == b {
        return Err(Fault::Twice.at(0));
    }
    Ok((a, b))
}

// The location of the set that a number is, however large.
fn inside(owned: LocationSet, x: u64) -> Option<u8>
    ensures some { IfSome result (λ l. (l ≡ x) × (has owned x ≡ true)) }
    ensures none { IfNone result (has owned x ≡ false) }
{
    let l = u8::try_from(x).ok()?;
    owned.contains(l).then_some(l)
}

// The search: 21, then 24 where the route is longer than the buffer.
fn search(rows: &Rows, free: LocationSet, a: u8, b: u8, buffer: &mut [u8]) -> Result<usize, Refusal>
    ensures { (R : Region) → RowsOf R rows.now → Finds (path.route R (has free) a b) buffer.old result buffer.new }
{
    find_route(rows, free, a, b, buffer).map_err(|why| match why {
        NoRoute::NoPath => Fault::NoPath.at(0),
        NoRoute::Short => Fault::NoSpace.at(0),
    })
}
