// Quiet statements have no commands: the walk goes on as it stands. A table says for each byte of a program how far a run of them goes, so that
// the walk steps over a run in one move.
ghost use Rattle.std.specs.Prelude.{IfSome, ◌≡◌, ℕ, ◌+◌, ◌<◌, ◌≤◌, length};
ghost use Rattle.rules.specs.Basics.{byte};
ghost use Rattle.walking.specs.Quiet.{Run, Skips, Steps};

use rules::positions::call_end;
use rules::statements::Kind;

// For each byte of a program, where a run of quiet statements that begins there ends. No heap: a program has at most 4,096 bytes.
#[derive(Drop)]
pub struct Quiet {
    pub ends: [u16; 4096],
}

impl Quiet {
    // Fills the table from the last byte of the program to the first, for every byte as if a statement began there. A run ends before a statement
    // that ends the file.
    pub fn mark(&mut self, s: &[u8], counts: &[Option<usize>; 16])
        requires { length s.now ≤ 4096 }
        ensures { Skips s.now counts.now self.new.ends }
    {
        // by position: a run's end is a position too
        for i in (0..s.len()).rev() {
            self.ends[i] = match quiet_end(s, counts, i) {
                Some(next) if next < s.len() => self.ends[next],
                _ => i as u16,
            };
        }
    }

    // The position after the run of quiet statements from p on, or the block's end where the run goes on past it.
    pub fn skip(&self, p: usize, stop: usize) -> usize
        requires { (p ≤ stop) × (stop ≤ 4096) }
        ensures { Steps self.now.ends p stop result }
    {
        if p == stop {
            return stop;
        }
        stop.min(self.ends[p] as usize)
    }
}

// The end of the statement at i, where it is quiet.
// (The bytes and the counts are those of one call of `mark`: a struct of the two would be made there and go.)
fn quiet_end(s: &[u8], counts: &[Option<usize>; 16], i: usize) -> Option<usize>
    requires { (i < length s.now) × (length s.now ≤ 4096) }
    ensures { IfSome result (λ next. (i < next) × Run s.now counts.now i next) }
{
    let Ok(kind) = Kind::try_from(s[i]) else {
        return None;
    };
    match kind {
        Kind::Init | Kind::Magic | Kind::Free | Kind::Merge | Kind::If | Kind::While => None,
        Kind::Call => quiet_call_end(s, counts, i),
        Kind::Gate | Kind::Measure | Kind::Ref | Kind::Get | Kind::Set | Kind::Bool => {
            Some(i + kind.size())
        }
    }
}

// The end of the call at i, where it fits and its callee has no commands.
fn quiet_call_end(s: &[u8], counts: &[Option<usize>; 16], i: usize) -> Option<usize>
    requires { (byte s.now i ≡ 12) × (length s.now ≤ 4096) }
    ensures { IfSome result (λ next. (i < next) × Run s.now counts.now i next) }
{
    if s.len() < i + 4 {
        return None;
    }
    let callee = s[i + 1] as usize;
    if callee < 16 && counts[callee] == Some(0) {
        Some(call_end(s, i))
    } else {
        None
    }
}
