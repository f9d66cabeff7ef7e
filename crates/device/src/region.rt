// The region of a job, as a set of locations and as rows of the edges between them.
ghost use Rattle.std.specs.Prelude.{false, ◌&&◌, ◌||◌, ◌≡◌, ℕ, ◌+◌, ◌<◌, length};
ghost use Rattle.rules.specs.Device.{Device};
ghost use Rattle.rules.specs.Region.{region_of, touches};
ghost use Rattle.sets.specs.Sets.{has, row_of};
ghost use Rattle.device.specs.Parts.{owned_by};
ghost use Rattle.device.specs.Reader.{Reads, Owned, RowsOf};

use super::file::DeviceFile;
use super::owners::is_owner;
use rules::device::DeviceHeader;
use sets::LocationSet;
use sets::rows::Rows;

// Joins a and b in both directions, where both are the job's.
fn join_owned(s: &[u8], job: u8, a: u8, b: u8, rows: &mut Rows)
    requires { (9 + a < length s.now) × (9 + b < length s.now) }
    ensures { (x y : ℕ) → has (row_of rows.new x) y
        ≡ ((owned_by s.now job x && owned_by s.now job y && touches x y (record { from = a; to = b }))
        || has (row_of rows.old x) y) }
{
    if is_owner(s, job, a as usize) && is_owner(s, job, b as usize) {
        rows.join(a, b);
        rows.join(b, a);
    }
}

impl DeviceFile<'_> {
    // The job's locations.
    pub fn owned_by(self, job: u8) -> LocationSet
        ensures { (D : Device) → Reads self.entry.bytes.now self.entry.header D → Owned (region_of D job) result }
    {
        let mut owned = LocationSet::empty();
        for x in 0..self.header.locations {
            owned = owned.add_if(x as u8, is_owner(self.bytes, job, x));
        }
        owned
    }

    // The edges between the job's locations, in rows that were empty.
    pub fn region_rows(self, job: u8, rows: &mut Rows)
        requires { (x y : ℕ) → has (row_of rows.old x) y ≡ false }
        ensures { (D : Device) → Reads self.entry.bytes.now self.entry.header D → RowsOf (region_of D job) rows.new }
    {
        let s = self.bytes;
        let start = DeviceHeader::BYTES + self.header.locations;
        for i in 0..self.header.edges {
            let at = start + 2 * i;
            join_owned(s, job, s[at], s[at + 1], rows);
        }
    }
}
