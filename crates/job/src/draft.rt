// A job on the way: what the lines so far say.
ghost use Rattle.std.specs.Prelude.{◌≡◌, MatchResult};
ghost use Rattle.job.specs.Drafts.{state_of, empty, Adds, Clashes, TakesIn, RefusesLineOf};
ghost use Rattle.job_line.specs.declared.line.JobLine.TheVariants as JobLine;

use cells::cell::{Cell, KnownCell};
use job_line::board_line::BoardLine;
use job_line::line::{JobLine, line_of};
use job_line::wrong::Wrong;
use std::alloc::Global;

/// What the lines of a job have said so far.
#[derive(Drop)]
pub struct Draft {
    pub limit: Option<u32>,
    pub table: Vec<u32>,
    pub cells: [Cell; 256],
    pub boards: Vec<BoardLine>,
}

impl Draft {
    /// What no lines say.
    pub fn new(heap: Global) -> Draft
        ensures { state_of result ≡ empty }
    {
        Draft {
            limit: None,
            table: Vec::new(heap),
            cells: [Cell::Unknown; 256],
            boards: Vec::new(heap),
        }
    }

    fn set_limit(&mut self, limit: u32) -> Result<(), Wrong>
        ensures { MatchResult result (λ _. Adds (state_of self.old) (JobLine.Limit limit) (state_of self.new)) (Clashes (state_of self.old) (JobLine.Limit limit)) }
    {
        if self.limit.is_some() {
            return Err(Wrong::SecondLimit);
        }
        self.limit = Some(limit);
        Ok(())
    }

    fn set_cell(&mut self, location: u8, cell: KnownCell) -> Result<(), Wrong>
        ensures { MatchResult result (λ _. Adds (state_of self.old) (JobLine.Cell location cell) (state_of self.new)) (Clashes (state_of self.old) (JobLine.Cell location cell)) }
    {
        let place = &mut self.cells[location as usize];
        if let Cell::Known(_) = place {
            return Err(Wrong::SecondCell);
        }
        *place = Cell::Known(cell);
        Ok(())
    }

    /// Takes in what one line says.
    pub fn add(&mut self, said: JobLine) -> Result<(), Wrong>
        ensures { MatchResult result (λ _. Adds (state_of self.old) said (state_of self.new)) (Clashes (state_of self.old) said) }
    {
        match said {
            JobLine::Nothing => {}
            JobLine::Limit(limit) => self.set_limit(limit)?,
            JobLine::Table(words) => self.table.extend_from_slice(words.as_slice())?,
            JobLine::Cell(location, cell) => self.set_cell(location, cell)?,
            JobLine::Board(board) => self.boards.push(board)?,
        }
        Ok(())
    }

    /// Reads the line of that number.
    pub fn read_line(&mut self, heap: Global, number: usize, line: &[u8]) -> Result<(), Wrong>
        ensures { MatchResult result (λ _. TakesIn number line.now (state_of self.old) (state_of self.new)) (RefusesLineOf number line.now (state_of self.old)) }
    {
        self.add(line_of(heap, number, line)?)
    }
}
