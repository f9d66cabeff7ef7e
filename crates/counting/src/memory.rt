// What is known of the functions' counts: each function is counted once.
ghost use Rattle.std.specs.Prelude.{◌≡◌, ◌<◌, get_or, None, Some};
ghost use Rattle.counting.specs.Found.{nothing_known, noted};

// The count of each function, at most 65,536, or nothing where it has not been looked for. No heap: a file has at most 15 functions.
#[derive(Clone, Copy, Debug, PartialEq, Eq)]
pub struct Memory {
    pub counts: [Option<usize>; 16],
}

impl Memory {
    // No function has been looked for.
    pub fn blank() -> Self
        ensures { result ≡ nothing_known }
    {
        Memory { counts: [None; 16] }
    }

    // What is kept for function `f`.
    // (Below 16 by a clause: a type for a function's number would be made where it is looked up, with the same bound.)
    pub fn recall(&self, f: usize) -> Option<usize>
        requires { f < 16 }
        ensures { result ≡ get_or self.now.counts f None }
    {
        self.counts[f]
    }

    // Function `f` counts `n`.
    pub fn remember(&mut self, f: usize, n: usize)
        requires { f < 16 }
        ensures noted { self.new ≡ noted self.old f n }
        ensures known { get_or self.new.counts f None ≡ Some n }
    {
        self.counts[f] = Some(n);
    }
}
