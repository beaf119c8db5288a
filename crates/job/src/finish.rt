// From what the lines said to a job.
ghost use Rattle.std.specs.Prelude.{◌≡◌, ◌≢◌, Decides, MatchOption, MatchResult};
ghost use Rattle.std.specs.List.{ContainsAt as Has, AllByRecursion};
ghost use Rattle.job_line.specs.declared.board_line.BoardLine.{BoardLine};
ghost use Rattle.job_line.specs.declared.make.Make.{Make};
ghost use Rattle.job.specs.Drafts.{state_of};
ghost use Rattle.job.specs.Finishes.{Fit, Suits, Unsuited, Finishes, Unfinished};

use crate::bad_line::BadLine;
use crate::draft::Draft;
use crate::job::Job;
use cells::cell::{Cell, KnownCell};
use job_line::board_line::BoardLine;
use job_line::make::Make;
use job_line::wrong::Wrong;

// Whether a pair list can hold the cell: it is free, set and takes every number, or there is none.
fn is_fit(cell: Cell) -> bool
    ensures { Decides result (Fit cell) }
{
    match cell {
        Cell::Unknown => true,
        Cell::Known(known) => {
            known.content.is_some() && known == KnownCell::widest(known.content)
        }
    }
}

// Whether it can hold all of them.
fn all_fit(cells: &[Cell]) -> bool
    ensures { Decides result (AllByRecursion Fit cells.now) }
{
    cells.iter().all(|cell| is_fit(*cell))
}

// The first board of pairs.
fn first_of_pairs(boards: &[BoardLine]) -> Option<&BoardLine>
    ensures { MatchOption result (AllByRecursion (λ (b : BoardLine). b.make ≢ Make.Pairs) boards.now) (λ b. Has boards.now b.now × (b.now.make ≡ Make.Pairs)) }
{
    boards
        .iter()
        .find(|board| matches!(board.make, Make::Pairs))
}

// Whether the cells suit every board: a board of pairs asks that a pair list can hold them.
fn suit(cells: &[Cell], boards: &[BoardLine]) -> Result<(), BadLine>
    ensures { MatchResult result (λ _. AllByRecursion (Suits cells.now) boards.now) (Unsuited cells.now boards.now) }
{
    if all_fit(cells) {
        return Ok(());
    }
    match first_of_pairs(boards) {
        Some(board) => Err(BadLine {
            line: board.line,
            wrong: Wrong::UnfitForPairs,
        }),
        None => Ok(()),
    }
}

/// The job that so many lines make.
pub(crate) fn finish(draft: Draft, lines: usize) -> Result<Job, BadLine>
    ensures { MatchResult result (Finishes (state_of draft)) (Unfinished (state_of draft) lines) }
{
    suit(&draft.cells, draft.boards.as_slice())?;
    // A text of no lines lacks them on its first.
    let line = lines.max(1);
    let limit = draft.limit.ok_or(BadLine {
        line,
        wrong: Wrong::NoLimit,
    })?;
    if draft.boards.is_empty() {
        return Err(BadLine {
            line,
            wrong: Wrong::NoBoard,
        });
    }
    Ok(Job {
        limit,
        table: draft.table,
        cells: draft.cells,
        boards: draft.boards,
    })
}
