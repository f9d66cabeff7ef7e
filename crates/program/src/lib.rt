// The reader of program files: heads, body offsets and main's offset of a file that reads, or the first refusal.
#![tactic(auto)]

ghost use Rattle.std.specs.Prelude.{◌≡◌, List, ◌≤◌, length, IfOk};
ghost use Rattle.answers.specs.Check.{ok, ◌>>◌ as ◌then◌, within};
ghost use Rattle.answers.specs.Said.{said, passed};
ghost use Rattle.answers.specs.declared.File.TheVariants.{Program as ProgramOf};
ghost use Rattle.rules.specs.Syntax.{Function, Program};
ghost use Rattle.rules.specs.Program.{read_program};
ghost use Rattle.program.specs.Reader.{Heads, Tabled, ReadAs, head_of, main_at, body_at};

use answers::{Fault, File, Refusal};
use file::ReadProgram;
use functions::{FunctionTable, Scope};
use rules::bytes;
use rules::program::ProgramHeader;

pub mod blocks;
pub mod file;
pub mod functions;
pub mod operands;

// What a file that reads has: its functions, and the place of main's length word. No `ReadProgram` yet: that has to show that the whole file reads.
#[derive(Clone, Copy)]
struct Parts {
    functions: FunctionTable,
    main: usize,
}

// Reads the program of a job, 0 for none. (`then` is the `>>` of checks: a clause has another of its own.)
pub fn read_program(s: &[u8], job: u8) -> Result<ReadProgram<'_>, Refusal>
    ensures answers { passed result ≡ within (ProgramOf job) (read_program s.now then ok tt) }
    ensures tables { (p : Program) → read_program s.now ≡ ok p → IfOk result (λ r. Tabled p r.functions r.main) }
    ensures bytes { IfOk result (λ r. r.bytes.now ≡ s.now) }
{
    // no `map_err`: what is known of the parts is not seen through its closure
    match read_file(s) {
        Ok(parts) => Ok(ReadProgram {
            bytes: s,
            functions: parts.functions,
            main: parts.main,
        }),
        Err(x) => Err(x.in_file(File::Program(job))),
    }
}

// The same, its refusals in a file that is not named yet.
fn read_file(s: &[u8]) -> Result<Parts, Refusal>
    ensures { ReadAs (read_program s.now) result }
{
    let header = read_head(s)?;
    read_bodies(s, header.functions)
}

// The file's own header: its length, mark, version and number of functions. Like a device's, but that 4 comes between 1 and 2, as in `head_of`.
fn read_head(s: &[u8]) -> Result<ProgramHeader, Refusal>
    ensures { said result ≡ head_of s.now }
{
    if s.len() < ProgramHeader::FEWEST_BYTES {
        return Err(Fault::Short.at(0));
    }
    if ProgramHeader::MOST_BYTES < s.len() {
        return Err(Fault::Limit.at(0));
    }
    if !bytes::has_mark(s, b'S') {
        return Err(Fault::Mark.at(0));
    }
    if bytes::word_at(s, 3) != ProgramHeader::VERSION {
        return Err(Fault::Version.at(3));
    }
    ProgramHeader::new(s[ProgramHeader::FUNCTIONS_AT] as usize)
}

// What follows the header: so many functions, then main.
fn read_bodies(s: &[u8], n: usize) -> Result<Parts, Refusal>
    requires { (8 ≤ length s.now) × (length s.now ≤ 4096) × (n ≤ 15) }
    ensures { ReadAs (body_at s.now n) result }
{
    let read = functions::read_functions(s, 6, n)?;
    read_main(s, read.next, &read.table)
}

// Main's block, which ends the file.
fn read_main(s: &[u8], at: usize, functions: &FunctionTable) -> Result<Parts, Refusal>
    requires { at ≤ length s.now }
    ensures { (fs : List Function) → Heads fs functions.now → ReadAs (main_at s.now at fs) result }
{
    let scope = Scope {
        functions,
        places: 256,
    };
    let end = blocks::read_block(s, at, s.len(), ProgramHeader::DEEPEST, scope)?;
    if end != s.len() {
        return Err(Fault::NoRoom.at(end));
    }
    Ok(Parts {
        functions: *functions,
        main: at,
    })
}
