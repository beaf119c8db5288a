// A stack over memory that the caller lends.
#![tactic(auto)]

pub mod stack;
