// The program place: it takes rule tables in, and holds one that is loaded at all times.
#![tactic(auto)]

pub mod program;

pub use loading::needs::Needs;
pub use loading::refusal::Refusal;
pub use rows::row::{Operator, Relation, Row, Sort};
