// The listing of a program, and the program of a listing.
ghost use Rattle.std.specs.Prelude.{◌≡◌};
ghost use Rattle.rules.specs.Promises.{write_listing_of, read_listing_of};
ghost use Rattle.listing.specs.Whole.{told};
ghost use Rattle.abwakiris.specs.Packed.{packed_value};

use crate::packed::packed;
use answers::Refusal;

// The program's own refusals, then 24. The text is written only where the buffer has room for all of it.
pub fn write_listing(program: &[u8], text: &mut [u8]) -> Result<usize, Refusal>
    ensures { told result text.new ≡ write_listing_of program.now text.old }
{
    listing::write_listing(program, text)
}

// Value: the bytes of the text.
pub fn abwakiris_write_listing(program: &[u8], text: &mut [u8]) -> u64
    ensures answer { result ≡ packed_value (write_listing_of program.now text.old).answer }
    ensures written { text.new ≡ (write_listing_of program.now text.old).buffer }
{
    packed(write_listing(program, text))
}

// 27, then 24. The program is written only where the buffer has room for all of it.
pub fn read_listing(text: &[u8], program: &mut [u8]) -> Result<usize, Refusal>
    ensures { told result program.new ≡ read_listing_of text.now program.old }
{
    unlisting::read_listing(text, program)
}

// Value: the bytes of the program.
pub fn abwakiris_read_listing(text: &[u8], program: &mut [u8]) -> u64
    ensures answer { result ≡ packed_value (read_listing_of text.now program.old).answer }
    ensures written { program.new ≡ (read_listing_of text.now program.old).buffer }
{
    packed(read_listing(text, program))
}
