// The search for a route: levels from the second end, with the hops that lead down them.
ghost use Rattle.std.specs.Prelude.{◌≡◌};
ghost use Rattle.rules.specs.Region.{Region};
ghost use Rattle.rules.specs.Path.{route};
ghost use Rattle.sets.specs.Sets.{has};
ghost use Rattle.device.specs.Reader.{RowsOf};
ghost use Rattle.route.specs.Hops.{followed};

use super::front::{Front, further, reach};
use sets::LocationSet;
use sets::rows::Rows;

// How many edges the route has, if there is one. From the first end on the hops are the route. No heap: they are a byte for each location.
pub fn search(rows: &Rows, free: LocationSet, a: u8, b: u8, hop: &mut [u8; 256]) -> Option<u8>
    ensures { (R : Region) → RowsOf R rows.now → route R (has free) a b ≡ followed hop.new a result }
{
    if a == b {
        return None;
    }
    let first = rows.row(a);
    if first.contains(b) {
        hop[a as usize] = b;
        return Some(1);
    }
    let open = Front {
        left: free.remove(a).remove(b),
        next: LocationSet::empty(),
    };
    let mut front = reach(rows, b, open, hop);
    for k in 2..=255 {
        if front.next.is_empty() {
            return None;
        }
        if let Some(x) = first.common(front.next).first() {
            hop[a as usize] = x;
            return Some(k);
        }
        front = further(rows, front, hop);
    }
    None
}
