// The route search over a region's rows of bits: how many edges the route between two ends has, and the route itself.
#![tactic(auto)]

ghost use Rattle.std.specs.Prelude.{◌≡◌};
ghost use Rattle.rules.specs.Region.{Region};
ghost use Rattle.rules.specs.Path.{route};
ghost use Rattle.sets.specs.Sets.{has};
ghost use Rattle.device.specs.Reader.{RowsOf};
ghost use Rattle.route.specs.Found.{edges_of, Answers};

use search::search;
use sets::LocationSet;
use sets::rows::Rows;
use trace::trace;
use turn::advance;

mod front;
mod joined;
mod search;
mod trace;
mod turn;

// Why no route is written: there is no path, or the buffer is too short.
#[derive(Clone, Copy, Debug, PartialEq, Eq)]
pub enum NoRoute {
    NoPath,
    Short,
}

// How many edges the route from a to b through free locations has, if there is one. The levels of both ends grow in turn, until a new one of one end
// meets what is joined to the newest of the other; a path has each location once, so no route has more than 255 edges. (`search` finds this number too, from
// one end and with the hops, in twice the time.)
pub fn distance(rows: &Rows, free: LocationSet, a: u8, b: u8) -> Option<u8>
    ensures { (R : Region) → RowsOf R rows.now → result ≡ edges_of (route R (has free) a b) }
{
    if a == b {
        return None;
    }
    let mut other = rows.row(a);
    if other.contains(b) {
        return Some(1);
    }
    let mut joined = rows.row(b);
    let mut left = free.remove(a).remove(b);
    let mut k: usize = 2;
    // no range counts this loop: a count that is tested at each turn takes a register from the sets, and far ends on a line take a third longer
    loop {
        let Some(turn) = advance(rows, joined, other, left) else {
            return Some(k as u8);
        };
        if turn.any == 0 {
            return None;
        }
        k += 1;
        left = turn.left;
        joined = other;
        other = turn.joined;
    }
}

// The route from a to b through free locations, into the buffer: how many locations it has. Where there is none, or the buffer is too short, the buffer
// stays as it is.
pub fn find_route(
    rows: &Rows,
    free: LocationSet,
    a: u8,
    b: u8,
    out: &mut [u8],
) -> Result<usize, NoRoute>
    ensures { (R : Region) → RowsOf R rows.now → Answers (route R (has free) a b) out.old result out.new }
{
    let mut hop = [0; 256];
    let Some(k) = search(rows, free, a, b, &mut hop) else {
        return Err(NoRoute::NoPath);
    };
    let n = k as usize + 1;
    if out.len() < n {
        return Err(NoRoute::Short);
    }
    trace(&hop, a, &mut out[..n]);
    Ok(n)
}
