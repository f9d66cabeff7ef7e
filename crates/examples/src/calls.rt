// What may not be asked of check, route and run: refusals 13, 15, 21 and 22 to 26.
use crate::grid::{route, run_a, third_job};
use std::io;

pub fn refusals(rt: &impl Print) -> io::Result<()> {
    third_job(rt)?;
    routes(rt)?;
    ends(rt)?;
    schedules(rt)
}

// What takes each location: nothing, and a qubit in both corridors.
const FREE: [u8; 6] = [0; 6];

const CORRIDORS: [u8; 6] = [0, 1, 0, 0, 1, 0];

fn routes(rt: &impl Print) -> io::Result<()> {
    route(rt, "from 0 to 2", &FREE, 0, 2, &mut [0xaa; 5])?;
    route(
        rt,
        "from 0 to 2 past 1 and 4",
        &CORRIDORS,
        0,
        2,
        &mut [0xaa; 5],
    )?;
    route(
        rt,
        "from 0 to 2 into two bytes",
        &FREE,
        0,
        2,
        &mut [0xaa; 2],
    )?;
    route(
        rt,
        "with five occupancy bytes",
        &[0; 5],
        0,
        2,
        &mut [0xaa; 2],
    )
}

fn ends(rt: &impl Print) -> io::Result<()> {
    route(rt, "from 0 to 256", &FREE, 0, 256, &mut [0xaa; 5])?;
    route(rt, "from 0 to 0", &FREE, 0, 0, &mut [0xaa; 5])
}

fn schedules(rt: &impl Print) -> io::Result<()> {
    run_a(rt, "A under 4,097 steps", &[0x10; 4097])?;
    run_a(rt, "A under a step of job 3", b"\x10\x30")?;
    run_a(rt, "A with seven bytes for two records", b"\x10\x10")
}
