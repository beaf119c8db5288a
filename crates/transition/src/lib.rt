// One transition of the row machine, over any store.
#![tactic(auto)]

mod finish;
mod found;
pub mod machine;
pub mod pair;
pub mod step;
mod whole;
