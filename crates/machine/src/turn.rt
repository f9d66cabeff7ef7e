// One turn of a schedule: the job that it names takes a step on the one occupancy map.
ghost use Rattle.machine.specs.Running.{Ready, Takes, Running, Turns};

use program::functions::FunctionTable;
use sets::LocationSet;
use sets::rows::Rows;
use steps::Record;
use steps::apply::apply;
use steps::floor::Floor;
use steps::job::Job;
use steps::step::step;

// What a job brings: the bytes of its program and its functions, its own locations and the rows of its region.
#[derive(Clone, Copy)]
pub struct Player<'p, 'r> {
    pub bytes: &'p [u8],
    pub functions: &'p FunctionTable,
    pub owned: LocationSet,
    pub rows: &'r Rows,
}

// What both jobs bring.
// Two fields, as the machine's jobs are. Beside the machine and not in it: what a job brings is read only, its state changes.
#[derive(Clone, Copy)]
pub struct Players<'p, 'r> {
    pub first: Player<'p, 'r>,
    pub second: Player<'p, 'r>,
}

// The machine: one occupancy map of the whole device, and each job's own state. The jobs are fields, and no array: what is lent of an array at an
// index is not said to be the array's element afterwards.
#[derive(Clone, Copy)]
pub struct Machine {
    pub map: [u8; 256],
    pub first: Job,
    pub second: Job,
}

// A step of one job, done to the map.
fn take_step(
    player: &Player<'_, '_>,
    map: &mut [u8; 256],
    job: &mut Job,
    number: u8,
    outcome: bool,
) -> Record
    requires { Ready player.now job.old }
    ensures { Takes player.now map.old job.old number outcome job.new result map.new }
{
    let floor = Floor {
        rows: player.rows,
        owned: player.owned,
        map,
    };
    let stepped = step(player.bytes, player.functions, &floor, job, outcome);
    apply(stepped.act, number, map);
    stepped.record
}

// A turn of the job that the byte names.
pub fn turn(players: &Players<'_, '_>, machine: &mut Machine, byte: u8) -> Record
    requires { Running players.now machine.old byte }
    ensures { Turns players.now machine.old byte machine.new result }
{
    let outcome = byte % 16 == 1;
    let map = &mut machine.map;
    if byte / 16 == 1 {
        take_step(&players.first, map, &mut machine.first, 1, outcome)
    } else {
        take_step(&players.second, map, &mut machine.second, 2, outcome)
    }
}
