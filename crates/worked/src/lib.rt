// The worked cases, each run on a board of its own.
#![tactic(auto)]

pub mod line;
pub mod outcome;
pub mod setup;
pub mod start;
mod tables;
