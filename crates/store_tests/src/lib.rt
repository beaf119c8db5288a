// The makes of a store at their edges, by example.
#![tactic(auto)]

#[cfg(test)]
mod cover_tests;
pub mod generic;
pub mod lending;
#[cfg(test)]
mod neighbours_tests;
#[cfg(test)]
mod pairs_tests;
#[cfg(test)]
mod sheet_tests;
