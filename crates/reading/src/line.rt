// The line that is being read.
ghost use Rattle.std.specs.Prelude.{◌≤◌, ◌+◌, length};

// A line of a text. Its characters end at `end`, and it with its newline at `stop`: in an unfinished line, which has no newline, `stop` is `end`. A position
// in it is a number beside it, and no cursor: the definitions of specs/Hearing speak of positions, and a reader answers one beside what it read.
#[derive(Clone, Copy)]
pub struct Line<'a> {
    pub text: &'a [u8],
    pub end: usize,
    pub stop: usize,
    pub ghost in_text: { (end ≤ stop) × (stop ≤ end + 1) × (stop ≤ length text.now) },
}
