// What a rule means: the items of the machine, arithmetic and faults, and the theorems that tie the
// natural rules, the row machine and SIMP's own machine to one another.
#![tactic(auto)]

pub mod arithmetic;
pub mod claims;
pub mod fault;
pub mod item;
