// Texts word by word: where lines and words end, which word stands where, and whether an unfinished one begins it.
#![tactic(auto)]

pub mod cursor;
pub mod line;
pub mod words;
