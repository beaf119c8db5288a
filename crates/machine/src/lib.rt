// The calls that a board makes: begin a run, and go on with it.
#![tactic(auto)]

pub mod run;
