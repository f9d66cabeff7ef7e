// A bundle: u16 length and device, u16 length and program, nothing more; at most 8,192 bytes.
ghost use Rattle.std.specs.Prelude.{◌≡◌};
ghost use Rattle.print_check.specs.Printed.{bundle_of};
ghost use Rattle.print_check.specs.Parts.{files_of, file_in, split_as};

use rules::bytes::word_at;

pub const MOST_BYTES: usize = 8192;

// The two files of a bundle.
#[derive(Clone, Copy)]
pub struct Bundle<'a> {
    pub device: &'a [u8],
    pub program: &'a [u8],
}

impl<'a> Bundle<'a> {
    pub fn split(bytes: &'a [u8]) -> Option<Bundle<'a>>
        ensures { files_of result ≡ bundle_of bytes.now }
    {
        if bytes.len() > MOST_BYTES {
            return None;
        }
        let (device, rest) = split_file(bytes)?;
        let (program, rest) = split_file(rest)?;
        if rest.is_empty() {
            Some(Bundle { device, program })
        } else {
            None
        }
    }
}

// A u16 length and a file of so many bytes, and what follows it.
fn split_file(bytes: &[u8]) -> Option<(&[u8], &[u8])>
    ensures { split_as result ≡ file_in bytes.now }
{
    if bytes.len() < 2 {
        return None;
    }
    bytes[2..].split_at_checked(word_at(bytes, 0))
}
