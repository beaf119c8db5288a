// What command line programs have in common: they are asked for help or to run, read standard input, and tell what goes
// wrong on standard error.
#![tactic(auto)]

pub mod arguments;
pub mod program;
#[cfg(test)]
mod tests;
pub mod trouble;
