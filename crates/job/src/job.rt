// A job: what a table is to be run on.
use cells::cell::Cell;
use job_line::board_line::BoardLine;

/// A table, the cells that its runs begin with, and the boards that run it.
#[derive(Drop)]
pub struct Job {
    pub limit: u32,
    /// The words of the table, be they a table or not.
    pub table: Vec<u32>,
    /// The cell at each location.
    pub cells: [Cell; 256],
    /// The boards, of which there is one at least, in the order of their lines.
    pub boards: Vec<BoardLine>,
}
