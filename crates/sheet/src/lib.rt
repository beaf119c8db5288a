// The sheet: a store of records that lie in the caller's memory.
#![tactic(auto)]

pub mod record;
pub mod sheet;
