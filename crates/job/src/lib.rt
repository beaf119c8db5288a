// A job read from its text: the limit, the table, the cells and the boards of the lines.
#![tactic(auto)]

pub mod bad_line;
mod draft;
mod finish;
pub mod job;
pub mod read;

pub use job_line::board_line::BoardLine;
pub use job_line::make::Make;
pub use job_line::wrong::Wrong;
