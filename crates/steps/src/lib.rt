// The steps of a job over the bytes of its read program.
#![tactic(auto)]

ghost use Rattle.std.specs.Prelude.{◌≡◌, ◌<◌};
ghost use Rattle.steps.specs.Told.{told, stuck, finished};

use answers::Fault;
use rules::place::Location;

pub mod apply;
pub mod asks;
pub mod back;
pub mod blocks;
pub mod call;
pub mod floor;
pub mod frames;
pub mod job;
pub mod kinds;
pub mod merge;
pub mod operations;
pub mod slots;
pub mod step;

// What a step does to the occupancy map.
// Three cases and no option of two: the rules' acts are such, and to do nothing is one of them (`act_of`).
#[derive(Clone, Copy)]
pub enum Act {
    Quiet,
    Takes(Location),
    Gives(Location),
}

// What a step that moved does outside its job: the edges of a merge, and what it does to the map.
#[derive(Clone, Copy)]
pub struct Effect {
    pub edges: u8,
    pub act: Act,
}

impl Effect {
    pub const QUIET: Effect = Effect {
        edges: 0,
        act: Act::Quiet,
    };
}

// What a step tells: 0 moved, 1 finished or the reason; the edges of a moved merge; the item's offset. The code is the byte of the record as the
// calls for C have it, `record_bytes` of the rules.
#[derive(Clone, Copy)]
pub struct Record {
    pub code: u8,
    pub edges: u8,
    pub offset: u16,
}

// A step taken: what it tells, and what it does to the map.
#[derive(Clone, Copy)]
pub struct Stepped {
    pub record: Record,
    pub act: Act,
}

impl Stepped {
    const MOVED: u8 = 0;

    const FINISHED: u8 = 1;

    // Stuck, or finished: nothing changes.
    pub fn stuck(code: u8, offset: u16) -> Self
        ensures { result ≡ stuck code offset }
    {
        Stepped {
            record: Record {
                code,
                edges: 0,
                offset,
            },
            act: Act::Quiet,
        }
    }

    // The job is at its end: there is no item.
    pub fn finished() -> Self
        ensures { result ≡ finished }
    {
        Stepped::stuck(Stepped::FINISHED, 0xFFFF)
    }

    // The item at an offset moved, or it is stuck for a reason.
    pub fn told(done: Result<Effect, Fault>, at: usize) -> Self
        requires { at < 65536 }
        ensures { result ≡ told done at }
    {
        let offset = at as u16;
        match done {
            Ok(effect) => Stepped {
                record: Record {
                    code: Stepped::MOVED,
                    edges: effect.edges,
                    offset,
                },
                act: effect.act,
            },
            Err(reason) => Stepped::stuck(reason.number(), offset),
        }
    }
}
