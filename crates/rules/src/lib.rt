// The words that the other crates share: places, the headers of both files with their limits, the statement table, the words of listings.
#![tactic(auto)]

pub mod bytes;
pub mod device;
pub mod place;
pub mod positions;
pub mod program;
pub mod statements;
pub mod words;
