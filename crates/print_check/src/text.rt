// The line that is printed.
ghost use Rattle.std.specs.Prelude.{Some};
ghost use Rattle.print_check.specs.Text.{text_of};

use answers::{Counted, Refusal};
use std::fmt;

// What a check said, or that the bundle does not fit.
// A type of its own, since it is printed: `Display` cannot be given to an option of a result.
#[derive(Clone, Copy)]
pub enum Line {
    Accepted(Counted),
    Refused(Refusal),
    Bad,
}

impl fmt::Display for Line {
    ghost output = { λ l. Some (text_of l) };

    fn fmt<W: fmt::Write>(&self, f: &mut fmt::Formatter<W>) -> fmt::Result {
        match self {
            Line::Accepted(n) => writeln!(f, "OK {} {}", n.count, n.live),
            Line::Refused(x) => writeln!(f, "NO {} {}", x.number, x.place),
            Line::Bad => writeln!(f, "BAD"),
        }
    }
}
