// The rows of a rule table: their words, the rows that these spell, and the sorts of rows.
#![tactic(auto)]

pub mod kind;
pub mod row;
pub mod unspelt;
pub mod words;
