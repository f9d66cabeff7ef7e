// What a call answers: a value, or a refusal that says its number, its place and which file the place is in.
#![tactic(auto)]

ghost use Rattle.std.specs.Prelude.{◌≡◌};
ghost use Rattle.answers.specs.Check.{refusal, in_file, number_of};

use std::fmt;

// The file that a place is in. A program is named by the job that it is for, 0 where it is read for no job. Neither that nor `NoFile` is an option: so say
// `read_program_of` and `refusal` of the rules, and the calls for C have a code for each (`file_code`).
#[derive(Clone, Copy, Debug, PartialEq, Eq)]
pub enum File {
    NoFile,
    Device,
    Schedule,
    Listing,
    Program(u8),
}

impl fmt::Display for File {
    fn fmt<W: fmt::Write>(&self, f: &mut fmt::Formatter<W>) -> fmt::Result {
        match self {
            File::NoFile => write!(f, "in no file"),
            File::Device => write!(f, "in the device"),
            File::Schedule => write!(f, "in the schedule"),
            File::Listing => write!(f, "in the listing"),
            File::Program(0) => write!(f, "in the program"),
            File::Program(job) => write!(f, "in the program of job {job}"),
        }
    }
}

// What is refused, by the document's number.
#[derive(Clone, Copy, Debug, PartialEq, Eq)]
pub enum Fault {
    Short = 1, // a file ends before its header does
    Mark = 2, // it begins with other letters
    Version = 3, // it is of another version
    Limit = 4, // a number is past its limit
    Length = 5, // a device file is longer or shorter than its numbers say
    Owner = 6, // an owner byte names no job
    Edge = 7, // an edge is out of range or out of order
    NoRoom = 8, // a part of a program does not fit where it stands
    NoStatement = 9, // a byte begins no statement
    Operand = 10, // an operand is out of range
    NotHeld = 11, // a slot does not hold what a statement asks of it
    Bound = 12, // a slot that is to be bound holds something
    Outside = 13, // a location is not the job's
    Taken = 14, // a location is not free
    Twice = 15, // a slot or a location is given twice
    Elsewhere = 16, // an argument is not at its location
    LeftLive = 17, // a block ends with a qubit that it may not end with
    BranchesDiffer = 18, // the blocks of an if end differently
    LoopChanges = 19, // the block of a while ends differently than it began
    TooManyCommands = 20, // main has too many commands
    NoPath = 21, // no path joins the qubits of a merge
    TooManySteps = 22, // a schedule is too long
    NoTurn = 23, // a byte of a schedule gives no job a step
    NoSpace = 24, // a buffer is too short for what is answered
    NoJob = 25, // a number is no job's
    MapLength = 26, // a map has not one byte for each location
    NoLine = 27, // a line begins no listing
}

impl Fault {
    // (A method and no `From`: its name says which number.)
    pub fn number(self) -> u8
        ensures { result ≡ number_of self }
    {
        self as u8
    }

    // The refusal of this fault at a place.
    pub fn at(self, place: usize) -> Refusal
        ensures { result ≡ refusal (number_of self) place }
    {
        Refusal::new(self.number(), place)
    }
}

// The number is the document's, as every definition of the rules (`refusal`) and the calls for C (`packed_refusal`) say it: so it stands here and not
// the fault.
#[derive(Clone, Copy, Debug, PartialEq, Eq)]
pub struct Refusal {
    pub number: u8,
    pub place: usize,
    pub file: File,
}

impl Refusal {
    // A refusal whose file is not said yet, or that is in none.
    pub fn new(number: u8, place: usize) -> Self
        ensures { result ≡ refusal number place }
    {
        Refusal {
            number,
            place,
            file: File::NoFile,
        }
    }

    pub fn in_file(self, file: File) -> Self
        ensures { result ≡ in_file file self }
    {
        Refusal { file, ..self }
    }
}

impl fmt::Display for Refusal {
    fn fmt<W: fmt::Write>(&self, f: &mut fmt::Formatter<W>) -> fmt::Result {
        write!(f, "refused {} at {} {}", self.number, self.place, self.file)
    }
}

// What a check counts: the commands, and the qubits that main leaves live.
#[derive(Clone, Copy, Debug, PartialEq, Eq)]
pub struct Counted {
    pub count: usize,
    pub live: usize,
}

// How many steps each job moved.
#[derive(Clone, Copy, Debug, PartialEq, Eq)]
pub struct Moved {
    pub first: usize,
    pub second: usize,
}
