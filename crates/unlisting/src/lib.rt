// The reader of listings.
#![tactic(auto)]

ghost use Rattle.std.specs.Prelude.{List, ◌≡◌, ℕ, ◌≤◌, length};
ghost use Rattle.std.proofs.lemmas.List.Edits.{sets};
ghost use Rattle.answers.specs.Check.{ok, refusal, in_file, within};
ghost use Rattle.answers.specs.Said.{said};
ghost use Rattle.rules.specs.Unlisting.{unlisted};
ghost use Rattle.rules.specs.Promises.{read_listing_of};
ghost use Rattle.reading.specs.Cursor.{LineEnd};
ghost use Rattle.listing.specs.Whole.{told};
ghost use Rattle.unlisting.specs.Lines.{Stop, length_of};

use crate::lines::{finish, read_line};
use answers::{Fault, File, Refusal};
use reading::cursor::Unread;
use reading::line::Line;
use reading::words::line_end;
use standing::state::Standing;

pub mod lines;

// The lines of the text, one after the other, into a file's buffer: 27 at the first that begins no listing, at the text's end where lines are missing.
fn read_lines(text: &[u8], out: &mut [u8]) -> Result<usize, Refusal>
    ensures answer { said result ≡ length_of (within File.Listing (unlisted text.now)) }
    ensures bytes { (s : List ℕ) → unlisted text.now ≡ ok s → out.new ≡ sets out.old 0 s }
{
    let mut at = 0;
    let mut c = Standing::fresh();
    // no range counts this loop: a line begins where the one before it stops
    while at < text.len() {
        let line = line_at(text, at);
        match read_line(&line, at, &c, out) {
            Ok(next) => c = next,
            Err(Unread::Not) => return Err(no_line(at)),
            Err(Unread::Begun) => return Err(no_line(text.len())),
        }
        at = line.stop;
    }
    if finish(&c, out) {
        Ok(c.used)
    } else {
        Err(no_line(at))
    }
}

// The line at `at`: it stops behind its newline, or with the text.
fn line_at(text: &[u8], at: usize) -> Line
    requires { at ≤ length text.now }
    ensures text { result.text.now ≡ text.now }
    ensures from { at ≤ result.end }
    ensures end { LineEnd text.now at result.end }
    ensures stop { Stop text.now result.end result.stop }
{
    let end = line_end(text, at);
    let stop = text.len().min(end + 1);
    Line { text, end, stop }
}

// 27 at a place of the listing.
fn no_line(place: usize) -> Refusal
    ensures { result ≡ in_file File.Listing (refusal 27 place) }
{
    Fault::NoLine.at(place).in_file(File::Listing)
}

// The bytes of the program whose listing the text is: 27; 24 exactly when the buffer is shorter. The first reading only counts.
pub fn read_listing(text: &[u8], program: &mut [u8]) -> Result<usize, Refusal>
    ensures { told result program.new ≡ read_listing_of text.now program.old }
{
    let n = read_lines(text, &mut [])?;
    if program.len() < n {
        return Err(Fault::NoSpace.at(0));
    }
    read_lines(text, program)
}
