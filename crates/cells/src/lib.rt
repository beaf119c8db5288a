// What a store has at one location: cells, and what reading and putting ask of them.
#![tactic(auto)]

pub mod cell;
pub mod claims;
pub mod fault;
