// Whether a file reads.
ghost use Rattle.std.specs.Prelude.{◌≡◌};
ghost use Rattle.answers.specs.Said.{said};
ghost use Rattle.rules.specs.Promises.{read_device_of, read_program_of};
ghost use Rattle.abwakiris.specs.Packed.{packed_read, packed_value};

use crate::packed::packed;
use answers::Refusal;

// Whether a device file reads, and how many locations it has.
pub fn read_device(bytes: &[u8]) -> Result<usize, Refusal>
    ensures { said result ≡ read_device_of bytes.now }
{
    let device = device::read_device(bytes)?;
    Ok(device.header.locations)
}

// Value: n, the number of locations.
pub fn abwakiris_read_device(bytes: &[u8]) -> u64
    ensures { result ≡ packed_value (read_device_of bytes.now) }
{
    packed(read_device(bytes))
}

// Whether a program file reads, for no job.
// Job 0 is none: a refusal's file has it so in the answers of the calls for C (`file_code`, `packed_refusal`).
pub fn read_program(bytes: &[u8]) -> Result<(), Refusal>
    ensures { said result ≡ read_program_of bytes.now }
{
    program::read_program(bytes, 0)?;
    Ok(())
}

// Value 0.
pub fn abwakiris_read_program(bytes: &[u8]) -> u64
    ensures { result ≡ packed_read (read_program_of bytes.now) }
{
    packed(read_program(bytes))
}
