// A frame: its slots, the ranges of statements to come, innermost last, and the call that it came by. No range is empty, so the statement to come
// is where the last range begins; a frame with no range left is at its end.
ghost use Rattle.std.specs.Prelude.{◌≡◌, ◌≤◌, ◌<◌};
ghost use Rattle.steps.specs.Calling.{keeps};
ghost use Rattle.steps.specs.State.{here_of, advanced, pushed, empty_frame, location_at};

use crate::slots::Slots;
use rules::place::{Location, Parameter, SlotNumber};

// Statements to come: from a position to a block's end.
// Positions are `usize` where they are counted with: a frame keeps them in two bytes, and the casts stand here and not at each caller.
#[derive(Clone, Copy)]
pub struct Range {
    pub at: u16,
    pub end: u16,
}

// The first `n` ranges are in use: there is no heap, and a block stands in at most 7 others. In a function the places are the call's locations, and
// `call` is the call's offset.
// Main's frame has zeros for both, which nothing reads: the job's depth says which frame is main's. `n ≤ 8` is a clause and no invariant: `advanced`,
// `pushed` and `entering` build frames by hand, and each would carry the proof.
#[derive(Clone, Copy)]
pub struct Frame {
    pub slots: Slots,
    pub ranges: [Range; 8],
    pub n: usize,
    pub places: [Location; 16],
    pub call: u16,
}

impl Frame {
    // A frame with nothing to come.
    pub fn new(slots: Slots, places: [Location; 16], call: usize) -> Self
        requires { call < 65536 }
        ensures { result ≡ empty_frame slots places call }
    {
        Frame {
            slots,
            ranges: [Range { at: 0, end: 0 }; 8],
            n: 0,
            places,
            call: call as u16,
        }
    }

    // Where the statement to come stands.
    pub fn here(&self) -> usize
        requires { (0 < self.now.n) × (self.now.n ≤ 8) }
        ensures { result ≡ here_of self.now }
    {
        self.ranges[self.n - 1].at as usize
    }

    // The last range goes on at a position, or goes where it ends there.
    pub fn advance(&mut self, p: usize)
        requires { (0 < self.old.n) × (self.old.n ≤ 8) × (p < 65536) }
        ensures { self.new ≡ advanced self.old p }
    {
        let last = self.n - 1;
        let at = p as u16;
        if at == self.ranges[last].end {
            self.n = last;
        } else {
            self.ranges[last].at = at;
        }
    }

    // A range more, where it is not empty.
    pub fn push(&mut self, at: usize, end: usize)
        requires { (self.old.n < 8) × (at < 65536) × (end < 65536) }
        ensures { self.new ≡ pushed self.old at end }
    {
        if at != end {
            self.ranges[self.n] = Range {
                at: at as u16,
                end: end as u16,
            };
            self.n += 1;
        }
    }

    // Whether the frame still has argument i of its call: slot i is a qubit at location i.
    pub fn keeps(&self, i: usize) -> bool
        requires { i < 16 }
        ensures { result ≡ keeps self.now i }
    {
        let slot = SlotNumber::known(i as u8);
        self.slots.holds_at(slot, self.places[i])
    }

    // What a parameter stands for in the frame's call.
    pub fn locate(&self, p: Parameter) -> Location
        requires { p.0 < 16 }
        ensures { result ≡ location_at self.now.places p.0 }
    {
        self.places[p.0 as usize]
    }
}
