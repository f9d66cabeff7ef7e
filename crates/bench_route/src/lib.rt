// Many searches in one call, for the benchmark of docs/benchmarks: the rows are built once, and every location is free.
// The two exports promise nothing of their sum: no rule speaks of it, and it is there only so that no search is left out when the code is compiled.
// They are proved safe and ending as all code is, each search that they call keeps its own promise, and nothing but the benchmark links them.
#![tactic(auto)]

use route::{distance, find_route};
use sets::LocationSet;
use sets::rows::Rows;

const EVERYWHERE: LocationSet = LocationSet {
    words: [u64::MAX; 4],
};

// The sum of the distances of so many pairs. Pair p is p % 256 and p / 256; the first is start, and each is step after the one before.
#[unsafe(no_mangle)]
pub extern "C" fn bench_distances(edges: &[u8], start: u16, step: u16, times: u32) -> u64 {
    let mut rows = Rows::empty();
    fill(edges, &mut rows);
    let mut sum: u64 = 0;
    let mut p = start;
    for _ in 0..times {
        let d = distance(&rows, EVERYWHERE, (p % 256) as u8, (p / 256) as u8);
        sum = sum.wrapping_add(d.unwrap_or(0) as u64);
        p = p.wrapping_add(step);
    }
    sum
}

// The same for the routes: the sum of their lengths and of two of their locations.
#[unsafe(no_mangle)]
pub extern "C" fn bench_routes(edges: &[u8], start: u16, step: u16, times: u32) -> u64 {
    let mut rows = Rows::empty();
    fill(edges, &mut rows);
    let mut out = [0; 256];
    let mut sum: u64 = 0;
    let mut p = start;
    for _ in 0..times {
        let r = routed(&rows, (p % 256) as u8, (p / 256) as u8, &mut out);
        sum = sum.wrapping_add(r);
        p = p.wrapping_add(step);
    }
    sum
}

// What a route adds to the sum: its length, and the locations at a half and at a third of it.
fn routed(rows: &Rows, a: u8, b: u8, out: &mut [u8; 256]) -> u64 {
    let Ok(n) = find_route(rows, EVERYWHERE, a, b, out) else {
        return 0;
    };
    // What `find_route` says of n, it says of a region; of these edges none is known.
    if n > 256 {
        return 0;
    }
    n as u64 + out[n / 2] as u64 * 512 + out[n / 3] as u64 * 131072
}

// Joins the ends of the edges, two bytes each. The rows are lent: given back by value they are copied, 8 KB.
fn fill(edges: &[u8], rows: &mut Rows) {
    for edge in edges.chunks_exact(2) {
        rows.join(edge[0], edge[1]);
        rows.join(edge[1], edge[0]);
    }
}
