// The board that a line asks for.
ghost use Rattle.std.specs.Result.{MatchResult};
ghost use Rattle.job_line.specs.BoardLines.{SaysBoard, RefusesBoard};
ghost use Rattle.job_line.specs.Words.{texts};

use crate::make::{Make, make_of};
use crate::numbers::{numbers_of, places_of};
use crate::wrong::Wrong;
use std::alloc::Global;

/// A board that a job asks for, with the line that asks for it.
#[derive(Drop)]
pub struct BoardLine {
    pub line: usize,
    pub make: Make,
    /// How many places its control stack has.
    pub control: usize,
    /// How many its results stack has.
    pub results: usize,
    /// The slices that it is given, in their order.
    pub slices: Vec<u32>,
}

/// The board that the words ask for: its make, its places, and any number of slices.
pub(crate) fn board_of(heap: Global, line: usize, words: &[&[u8]]) -> Result<BoardLine, Wrong>
    ensures { MatchResult result (λ b. SaysBoard (texts words.now) line b) (RefusesBoard (texts words.now)) }
{
    let [make, control, results, slices @ ..] = words else {
        return Err(Wrong::Missing);
    };
    Ok(BoardLine {
        line,
        make: make_of(make)?,
        control: places_of(control)?,
        results: places_of(results)?,
        slices: numbers_of(heap, slices)?,
    })
}
