// Counts up to 65,536, which stands for every count above the limit of 65,535.
ghost use Rattle.std.specs.Prelude.{◌≡◌, ◌+◌, ◌≤◌};
ghost use Rattle.rules.specs.Kinds.{byte_of};
ghost use Rattle.counting.specs.Counting.{cap};
ghost use Rattle.counting.specs.Found.{own_count};

use rules::statements::Kind;

// What stands for too large a count.
// A number and no option: a sum with a count that is too large is too large, so that no addition has a case of its own.
pub const MOST: usize = 65536;

// The sum of two counts.
pub fn add(a: usize, b: usize) -> usize
    ensures { (result ≡ cap (a + b)) × (result ≤ 65536) }
{
    a.saturating_add(b).min(MOST)
}

// What a statement counts that holds no block and calls nothing: one for the two kinds of init, for free and for a merge.
pub fn own_count(kind: Kind) -> usize
    ensures { (result ≡ own_count (byte_of kind)) × (result ≤ 1) }
{
    match kind {
        Kind::Init | Kind::Magic | Kind::Free | Kind::Merge => 1,
        Kind::Gate | Kind::Measure | Kind::Ref | Kind::Get | Kind::Set | Kind::Bool => 0,
        Kind::If | Kind::While | Kind::Call => 0,
    }
}
