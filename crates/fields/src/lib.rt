// Reading a text: its fields, the numbers that they write, and places in it for messages.
#![tactic(auto)]

pub mod blank;
pub mod iter;
pub mod number;
pub mod place;
pub mod read;
pub mod signed;
pub mod span;
