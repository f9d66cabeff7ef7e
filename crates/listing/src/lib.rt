// Listings of programs: the writer.
#![tactic(auto)]

ghost use Rattle.std.specs.Prelude.{◌≡◌};
ghost use Rattle.rules.specs.Promises.{write_listing_of};
ghost use Rattle.listing.specs.Whole.{told};

use answers::{Fault, Refusal};
use program::file::ReadProgram;
use program::read_program;
use whole::put_program;

mod blocks;
mod items;
mod lines;
pub mod put;
mod whole;
mod writer;

// Writes the listing of a program from the buffer's start on. The program's own refusals, then 24.
pub fn write_listing(s: &[u8], out: &mut [u8]) -> Result<usize, Refusal>
    ensures { told result out.new ≡ write_listing_of s.now out.old }
{
    let program = read_program(s, 0)?;
    write_read(&program, out)
}

// Of a program that was read. The pass over an empty buffer measures, so that nothing is written where the buffer is too short. (`unlisting` does so too;
// what its pass answers may be a refusal.)
fn write_read(program: &ReadProgram, out: &mut [u8]) -> Result<usize, Refusal>
    ensures { told result out.new ≡ write_listing_of program.now.bytes.now out.old }
{
    let n = put_program(program, &mut []);
    if out.len() < n {
        return Err(Fault::NoSpace.at(0));
    }
    Ok(put_program(program, out))
}
