// Reads a bundle, a device and a program, from standard input, checks the program for job 1, and writes one line:
// `OK`, the count and the number left live, `NO`, number and place, or `BAD` where the bundle does not fit.
#![tactic(auto)]

mod bundle;
mod text;

ghost use Rattle.std.specs.Prelude.{◌≡◌, ◌<◌, ◌≤◌, length, take, IfOk};
ghost use Rattle.std.specs.Io.{ReadsAtMost};
ghost use Rattle.std.specs.Io.KnownBytes.{Consumes, IsAtEnd};
ghost use Rattle.print_check.specs.Printed.{printed};
ghost use Rattle.print_check.specs.Text.{text_of};

use bundle::{Bundle, MOST_BYTES};
use std::io;
use std::io::Read;
use text::Line;

// One byte more than a bundle may have, so that a longer one is seen to be longer.
fn main(rt: HostRuntime) -> io::Result<()> {
    let mut bytes = [0u8; MOST_BYTES + 1];
    let n = read_full(&mut rt.stdin(), &mut bytes)?;
    rt.print(answer(&bytes[..n]))
}

// Reads until buf is full or the input ends, and answers how many bytes it put at the start of buf. One read may give fewer bytes than there is room for,
// so only a read of none is the end.
fn read_full<R: Read>(input: &mut R, buf: &mut [u8]) -> io::Result<usize>
    ensures prefix_len { ReadsAtMost result buf.new }
    ensures bytes { IfOk result (λ n. Consumes (R.remaining input.old) (R.remaining input.new) (take n buf.new)) }
    ensures whole { IfOk result (λ n. n < length buf.new → IsAtEnd (R.remaining input.new)) }
{
    let mut done = 0;
    while done < buf.len() {
        let n = input.read(&mut buf[done..])?;
        if n == 0 {
            break;
        }
        done += n;
    }
    Ok(done)
}

// The line for a bundle.
fn answer(bytes: &[u8]) -> Line
    ensures { text_of result ≡ printed bytes.now }
{
    let Some(bundle) = Bundle::split(bytes) else {
        return Line::Bad;
    };
    match abwakiris::checks::check(bundle.device, bundle.program, 1) {
        Ok(n) => Line::Accepted(n),
        Err(x) => Line::Refused(x),
    }
}
