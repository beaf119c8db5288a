// What loading asks of a table, and how many places a run of it needs.
#![tactic(auto)]

mod check;
pub mod layout;
pub mod needs;
pub mod refusal;
mod small;
pub mod survey;
