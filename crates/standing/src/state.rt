// The program so far, in numbers. Its bytes stand in the file's buffer, or nowhere while they are only counted: nothing here reads them.
ghost use Rattle.std.specs.Prelude.{◌≡◌, ◌+◌, ◌≤◌, ◌<◌};
ghost use Rattle.standing.specs.Numbers.{fresh_of, begun_of, added_of, opened_of, closed_of, turned_of, function_of, main_of};
ghost use Rattle.standing.specs.Numbers.{head_of, places_of};

// How many locations and arguments a function has.
#[derive(Clone, Copy, Debug, PartialEq, Eq)]
pub struct Head {
    pub locations: u8,
    pub arguments: u8,
}

// A block that has not ended: whether an else is due behind it, and where its length word stands.
#[derive(Clone, Copy, Debug, PartialEq, Eq)]
pub struct Open {
    pub due: bool,
    pub word: usize,
}

const NO_HEAD: Head = Head {
    locations: 0,
    arguments: 0,
};

const NO_BLOCK: Open = Open {
    due: false,
    word: 0,
};

// What a listing has said so far. Which program the numbers mean, and how large they are, are clauses of the reader's functions and no invariant here: the
// steps below (`added` to `main`) take and give any numbers, and may ask no more. No heap: a program has at most 15 functions, and 8 blocks are open.
#[derive(Clone, Copy)]
pub struct Standing {
    pub functions: usize, // how many functions' lines have been read
    pub heads: [Head; 16],
    pub places: usize, // what the block being read may name: places below this number, and
    pub callees: usize, // so many functions
    pub depth: usize,
    pub blocks: [Open; 8], // by depth, the outermost first
    pub used: usize, // up to where the file's bytes go
    pub owed: usize, // how many more it will have at least: a due else and main each have a length word
    pub started: bool, // the first line has been read
    pub in_main: bool, // main's line has been read
}

impl Standing {
    // Nothing has been read.
    pub fn fresh() -> Self
        ensures { result ≡ fresh_of }
    {
        Standing {
            started: false,
            in_main: false,
            functions: 0,
            heads: [NO_HEAD; 16],
            places: 0,
            callees: 0,
            depth: 0,
            blocks: [NO_BLOCK; 8],
            used: 6,
            owed: 2,
        }
    }

    // The first line has been read.
    pub fn begun(self) -> Self
        ensures { result ≡ begun_of self }
    {
        Standing {
            started: true,
            ..self
        }
    }

    // A statement of `n` bytes that holds no block.
    pub fn added(mut self, n: usize) -> Self
        requires { self.used + n ≤ 10000 }
        ensures { result ≡ added_of self n }
    {
        self.used += n;
        self
    }

    // A block is opened behind a statement of `n` bytes and its own length word.
    pub fn opened(mut self, n: usize, due: bool) -> Self
        requires { (self.used + n ≤ 10000) × (self.depth < 8) × (self.owed ≤ 10000) }
        ensures { result ≡ opened_of self n due }
    {
        self.blocks[self.depth] = Open {
            due,
            word: self.used + n,
        };
        self.depth += 1;
        self.used += n + 2;
        if due {
            self.owed += 2;
        }
        self
    }

    // The innermost block has ended.
    pub fn closed(self) -> Self
        requires { 0 < self.depth }
        ensures { result ≡ closed_of self }
    {
        Standing {
            depth: self.depth - 1,
            ..self
        }
    }

    // The innermost block has ended, and its else is opened.
    pub fn turned(mut self) -> Self
        requires { (self.used ≤ 10000) × (0 < self.depth) × (self.depth ≤ 8) × (2 ≤ self.owed) }
        ensures { result ≡ turned_of self }
    {
        self.blocks[self.depth - 1] = Open {
            due: false,
            word: self.used,
        };
        self.used += 2;
        self.owed -= 2;
        self
    }

    // A function with `k` locations and `m` arguments is opened.
    pub fn function(mut self, k: u8, m: u8) -> Self
        requires { (self.used ≤ 10000) × (self.functions < 15) }
        ensures { result ≡ function_of self k m }
    {
        self.heads[self.functions] = Head {
            locations: k,
            arguments: m,
        };
        self.callees = self.functions;
        self.functions += 1;
        self.places = k as usize;
        self.depth = 1;
        self.blocks[0] = Open {
            due: false,
            word: self.used + 2,
        };
        self.used += 4;
        self
    }

    // Main is opened.
    pub fn main(mut self) -> Self
        requires { self.used ≤ 10000 }
        ensures { result ≡ main_of self }
    {
        self.in_main = true;
        self.callees = self.functions;
        self.places = 256;
        self.depth = 1;
        self.blocks[0] = Open {
            due: false,
            word: self.used,
        };
        self.used += 2;
        self.owed = 0;
        self
    }

    // The head of function `f`; one with nothing where that function has not been read.
    pub fn head(&self, f: usize) -> Head
        ensures { result ≡ head_of self.now f }
    {
        self.heads.get(f).copied().unwrap_or(NO_HEAD)
    }

    // Places below this number may be named: in main all, in a function its locations, as its head has them. The field of that name is not read.
    pub fn places(&self) -> usize
        ensures value { result ≡ places_of self.now }
        ensures most { result ≤ 256 }
    {
        if self.in_main {
            256
        } else {
            self.head(self.callees).locations as usize
        }
    }

    // The same by that field, which `rows` goes by. Nothing here says that both agree.
    pub fn program_places(&self) -> usize
        requires { self.now.places ≤ 256 }
        ensures value { result ≡ self.now.places }
        ensures most { result ≤ 256 }
    {
        self.places // in a function its locations, in main all
    }
}
