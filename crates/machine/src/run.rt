// The run: both jobs fresh, then one turn for each byte of the schedule, its record four bytes after the one before; at the end the map.
ghost use Rattle.std.specs.Prelude.{length};
ghost use Rattle.machine.specs.Running.{Dealing, Deals};
ghost use Rattle.machine.specs.Runs.{Runnable, Runs};

use crate::records::{moved_more, write_map, write_record};
use crate::schedule::Schedule;
use crate::turn::{Machine, Player, Players, turn};
use answers::Moved;
use device::file::DeviceFile;
use program::file::ReadProgram;
use sets::rows::Rows;
use steps::step::start;

// One turn for each byte of a schedule; how many steps of each job moved.
pub fn deal(
    players: &Players<'_, '_>,
    machine: &mut Machine,
    schedule: Schedule<'_>,
    records: &mut [u8],
) -> Moved
    requires { Dealing players.now machine.old schedule.bytes.now (length records.old) }
    ensures { Deals players.now machine.old schedule.entry.bytes.now records.old machine.new result records.new }
{
    let mut moved = Moved {
        first: 0,
        second: 0,
    };
    for (i, byte) in schedule.bytes.iter().enumerate() {
        let record = turn(players, machine, *byte);
        write_record(record, records, 4 * i);
        moved.first += moved_more(*byte, 1, record.code);
        moved.second += moved_more(*byte, 2, record.code);
    }
    moved
}

// The run of two programs that were read, on a device that was read.
pub fn run<'p>(
    device: DeviceFile<'_>,
    first: &'p ReadProgram<'p>,
    second: &'p ReadProgram<'p>,
    schedule: Schedule<'_>,
    records: &mut [u8],
    map: &mut [u8],
) -> Moved
    requires { Runnable device.header schedule.bytes.now (length records.old) (length map.old) }
    ensures { Runs device.entry.bytes.now device.entry.header first.now.bytes.now first.now.functions first.now.main
        second.now.bytes.now second.now.functions second.now.main schedule.entry.bytes.now records.old map.old result records.new map.new }
{
    let mut first_rows = Rows::empty();
    device.region_rows(1, &mut first_rows);
    let mut second_rows = Rows::empty();
    device.region_rows(2, &mut second_rows);
    let players = Players {
        first: Player {
            bytes: first.bytes,
            functions: &first.functions,
            owned: device.owned_by(1),
            rows: &first_rows,
        },
        second: Player {
            bytes: second.bytes,
            functions: &second.functions,
            owned: device.owned_by(2),
            rows: &second_rows,
        },
    };
    let mut machine = Machine {
        map: [0; 256],
        first: start(first.bytes, first.main),
        second: start(second.bytes, second.main),
    };
    let moved = deal(&players, &mut machine, schedule, records);
    write_map(&machine.map, device.header.locations, map);
    moved
}
