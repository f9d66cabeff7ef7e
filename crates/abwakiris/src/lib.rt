// The public calls with their promises, and their exports.
#![tactic(auto)]

pub mod checks;
mod jobs;
pub mod listings;
pub mod packed;
pub mod reads;
pub mod routes;
pub mod runs;
