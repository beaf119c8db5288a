// How a run goes and ends: transitions tried on stacks with so many places, slices, histories of
// go-ons, and what two boards promise each other.
#![tactic(auto)]

pub mod claims;
pub mod end;
