// A job's own state: the frame on top, those below it, and how many of these there are.
ghost use Rattle.std.specs.Prelude.{◌≡◌, ◌-◌, ◌≤◌, ◌<◌};
ghost use Rattle.steps.specs.State.{frame_at, entering, leaving, located_in};

use crate::frames::Frame;
use rules::place::{Location, Parameter};

// The first `depth` frames below are in use: there is no heap, and a function calls only those before it, 15 at most.
// The ranges of a frame are such a stack too: one struct for both would be generic over an array, whose size is not known to fit, and gets no proof.
#[derive(Clone, Copy)]
pub struct Job {
    pub top: Frame,
    pub below: [Frame; 15],
    pub depth: usize,
}

impl Job {
    // The location that a place byte names: in main itself, in a function what the parameter stands for.
    // A place byte is below 16 in a function and any byte in main: a type of parameters below 16 would be made here, behind the same test.
    pub fn located(&self, b: u8) -> Location
        requires { 0 < self.now.depth → b < 16 }
        ensures { result ≡ located_in self.now b }
    {
        if self.depth == 0 {
            Location(b)
        } else {
            self.top.locate(Parameter(b))
        }
    }

    // The callee's frame goes on top, the caller's below it.
    pub fn enter(&mut self, caller: Frame, callee: Frame)
        requires { self.old.depth < 15 }
        ensures { self.new ≡ entering self.old caller callee }
    {
        self.below[self.depth] = caller;
        self.top = callee;
        self.depth += 1;
    }

    // The caller's frame goes on top again.
    pub fn leave(&mut self)
        requires { (0 < self.old.depth) × (self.old.depth ≤ 15) }
        ensures { self.new ≡ leaving self.old (frame_at self.old.below (self.old.depth - 1)) }
    {
        self.depth -= 1;
        self.top = self.below[self.depth];
    }
}
