// The reader of device files, and the region of a job.
#![tactic(auto)]

ghost use Rattle.std.specs.Prelude.{◌≡◌, ◌≤◌, IfOk};
ghost use Rattle.answers.specs.declared.File.TheVariants.{Device};
ghost use Rattle.answers.specs.Check.{within};
ghost use Rattle.answers.specs.Said.{said};
ghost use Rattle.device.specs.Answer.{file_said};
ghost use Rattle.device.specs.Parts.{body_read};
ghost use Rattle.device.specs.Reader.{device_read};

use answers::{Fault, File, Refusal};
use file::DeviceFile;
use rules::bytes::{has_mark, word_at};
use rules::device::DeviceHeader;

mod edges;
pub mod file;
pub mod free;
mod owners;
pub mod region;

// Reads a device file. Any bytes are given; a refusal names this file.
pub fn read_device(s: &[u8]) -> Result<DeviceFile<'_>, Refusal>
    ensures said { file_said result ≡ within Device (device_read s.now) }
    ensures bytes { IfOk result (λ file. file.bytes.now ≡ s.now) }
{
    // no `map_err`: what is known of the header is not seen through its closure
    match read(s) {
        Ok(header) => Ok(DeviceFile { bytes: s, header }),
        Err(x) => Err(x.in_file(File::Device)),
    }
}

// A device file to its end: 1, 2, 3, 4, then what comes after the header.
fn read(s: &[u8]) -> Result<DeviceHeader, Refusal>
    ensures { said result ≡ device_read s.now }
{
    if s.len() < DeviceHeader::BYTES {
        return Err(Fault::Short.at(0));
    }
    if !has_mark(s, b'G') {
        return Err(Fault::Mark.at(0));
    }
    if word_at(s, 3) != DeviceHeader::VERSION {
        return Err(Fault::Version.at(3));
    }
    let n = word_at(s, DeviceHeader::LOCATIONS_AT);
    let e = word_at(s, DeviceHeader::EDGES_AT);
    let h = DeviceHeader::new(n, e)?;
    read_body(s, h)
}

// What comes after the header: 5, then 6 by owner byte, then 7 by edge.
fn read_body(s: &[u8], h: DeviceHeader) -> Result<DeviceHeader, Refusal>
    requires { (h.locations ≤ 256) × (h.edges ≤ 1024) }
    ensures { said result ≡ body_read s.now h }
{
    let n = h.locations;
    let e = h.edges;
    if s.len() != DeviceHeader::BYTES + n + 2 * e {
        return Err(Fault::Length.at(0));
    }
    owners::test_owners(s, n)?;
    edges::test_edges(s, n, e)?;
    Ok(h)
}
