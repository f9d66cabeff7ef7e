// The program so far of a listing that is being read, in numbers, and which statements may stand next.
#![tactic(auto)]

pub mod rows;
pub mod state;
#[cfg(test)]
mod tests;
