// A statement's line of a listing that is being read.
#![tactic(auto)]

pub mod statement;
