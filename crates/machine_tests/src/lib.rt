// Runs on a board at their edges, by example.
#![tactic(auto)]

#[cfg(test)]
mod beginning;
#[cfg(test)]
mod boards;
#[cfg(test)]
mod ends;
#[cfg(test)]
mod slices;
