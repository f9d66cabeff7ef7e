// The bytes of a record, and what it counts for.
ghost use Rattle.std.specs.Prelude.{◌&&◌, ◌≡◌, ◌+◌, ◌/◌, ◌≤◌, eqb, length, take};
ghost use Rattle.std.proofs.lemmas.List.Edits.{sets};
ghost use Rattle.rules.specs.Basics.{chosen};
ghost use Rattle.machine.specs.Running.{bytes_of};

use steps::Record;

// A record's four bytes, from a position on.
// Into the whole buffer at a position: `sets` says so of any buffer, and a part that is lent would have to be put back into it.
pub fn write_record(r: Record, records: &mut [u8], at: usize)
    requires { at + 4 ≤ length records.old }
    ensures { records.new ≡ sets records.old at (bytes_of r) }
{
    records[at] = r.code;
    records[at + 1] = r.edges;
    records[at + 2] = (r.offset / 256) as u8;
    records[at + 3] = (r.offset % 256) as u8;
}

// One more step that a job moved, where the turn was its own and the step moved.
pub fn moved_more(turn: u8, job: u8, code: u8) -> usize
    ensures more { result ≡ chosen (eqb (turn / 16) job && eqb code 0) 1 0 }
    ensures one { result ≤ 1 }
{
    usize::from(turn / 16 == job && code == 0)
}

// The first n bytes of the occupancy map.
pub fn write_map(occupied: &[u8; 256], n: usize, map: &mut [u8])
    requires { (n ≤ 256) × (n ≤ length map.old) }
    ensures { map.new ≡ sets map.old 0 (take n occupied.now) }
{
    map[..n].copy_from_slice(&occupied[..n]);
}
