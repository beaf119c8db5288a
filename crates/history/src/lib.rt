// The history of a board: it begins a run, and goes on with it along a plan of slices.
#![tactic(auto)]

pub mod follow;
pub mod turn;
pub mod two_boards;
