// The edges of a device file, two bytes each.
ghost use Rattle.std.proofs.Math.Option.{none};
ghost use Rattle.std.specs.Prelude.{◌≡◌, ◌+◌, ◌*◌, ◌≤◌, ◌<◌, length};
ghost use Rattle.answers.specs.Said.{said};
ghost use Rattle.rules.specs.Device.{edges, increases};
ghost use Rattle.device.specs.Parts.{tested, edge_at, edge_before, edge_stands};

use answers::{Fault, Refusal};
use rules::device::DeviceHeader;

// Whether edge number i comes after the one before it, if any; the first edge is at `start`.
fn rises(s: &[u8], start: usize, i: usize) -> bool
    requires { start + 2 * i + 1 < length s.now }
    ensures { result ≡ increases (edge_before s.now start i) (edge_at s.now (start + 2 * i)) }
{
    let at = start + 2 * i;
    i == 0 || s[at - 2] < s[at] || s[at - 2] == s[at] && s[at - 1] < s[at + 1]
}

// Whether edge number i joins two locations, the smaller first, and comes after the one before it.
fn stands(s: &[u8], n: usize, start: usize, i: usize) -> bool
    requires { start + 2 * i + 1 < length s.now }
    ensures { result ≡ edge_stands s.now n start i }
{
    let at = start + 2 * i;
    let (a, b) = (s[at], s[at + 1]);
    a < b && (b as usize) < n && rises(s, start, i)
}

// Tests e edges between n locations: 7 at the first that does not stand.
pub fn test_edges(s: &[u8], n: usize, e: usize) -> Result<(), Refusal>
    requires { 9 + n + 2 * e ≤ length s.now }
    ensures { said result ≡ tested (edges s.now n none (9 + n) e) }
{
    let start = DeviceHeader::BYTES + n;
    for i in 0..e {
        if !stands(s, n, start, i) {
            return Err(Fault::Edge.at(start + 2 * i));
        }
    }
    Ok(())
}
