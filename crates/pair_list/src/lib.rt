// The pair list: a store of words, a location and then its number.
#![tactic(auto)]

pub mod pairs;
