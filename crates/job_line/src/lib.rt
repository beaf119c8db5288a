// One line of a job: what it says, or what is wrong with it.
#![tactic(auto)]

pub mod board_line;
pub mod cell_line;
pub mod claims;
pub mod line;
pub mod make;
mod numbers;
pub mod split;
mod words;
pub mod wrong;
