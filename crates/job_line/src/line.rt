// What a line of a job says.
ghost use Rattle.std.specs.Prelude.{◌≡◌, MatchResult};
ghost use Rattle.job_line.specs.Lines.{SaysLimit, RefusesLimit, keyword_of, Unheaded, SaysAfter, RefusesAfter, Says, Refuses, SaysLine, RefusesLine};
ghost use Rattle.job_line.specs.Words.{texts};

use crate::board_line::{BoardLine, board_of};
use crate::cell_line::cell_of;
use crate::numbers::{number_of, numbers_of};
use crate::words::{miscounted, words_of};
use crate::wrong::Wrong;
use cells::cell::KnownCell;
use std::alloc::Global;

/// What a line says.
#[derive(Drop)]
pub enum JobLine {
    /// The line is blank, or a comment.
    Nothing,
    Limit(u32),
    /// More words of the table.
    Table(Vec<u32>),
    Cell(u8, KnownCell),
    Board(BoardLine),
}

/// The words that a line begins with.
#[derive(Clone, Copy)]
pub enum Keyword {
    Limit,
    Table,
    Cell,
    Board,
}

// A match of its own, as `kind_of` of a make has: one function over both would take the names, the cases and the error.
fn keyword_of(word: &[u8]) -> Result<Keyword, Wrong>
    ensures { MatchResult result (λ k. word.now ≡ keyword_of k) (Unheaded word.now) }
{
    match word {
        b"limit" => Ok(Keyword::Limit),
        b"table" => Ok(Keyword::Table),
        b"cell" => Ok(Keyword::Cell),
        b"board" => Ok(Keyword::Board),
        _ => Err(Wrong::UnknownWord),
    }
}

// The limit that the words write.
fn limit_of(words: &[&[u8]]) -> Result<u32, Wrong>
    ensures { MatchResult result (SaysLimit (texts words.now)) (RefusesLimit (texts words.now)) }
{
    let [number] = words else {
        return Err(miscounted(words.len(), 1));
    };
    number_of(number)
}

// What the words after a keyword say.
fn said_after(
    heap: Global,
    line: usize,
    keyword: Keyword,
    words: &[&[u8]],
) -> Result<JobLine, Wrong>
    ensures { MatchResult result (SaysAfter line keyword (texts words.now)) (RefusesAfter keyword (texts words.now)) }
{
    match keyword {
        Keyword::Limit => Ok(JobLine::Limit(limit_of(words)?)),
        Keyword::Table => Ok(JobLine::Table(numbers_of(heap, words)?)),
        Keyword::Cell => {
            let (location, cell) = cell_of(words)?;
            Ok(JobLine::Cell(location, cell))
        }
        Keyword::Board => Ok(JobLine::Board(board_of(heap, line, words)?)),
    }
}

// What the words of a line say.
fn said(heap: Global, line: usize, words: &[&[u8]]) -> Result<JobLine, Wrong>
    ensures { MatchResult result (Says line (texts words.now)) (Refuses (texts words.now)) }
{
    match words {
        [first, rest @ ..] => said_after(heap, line, keyword_of(first)?, rest),
        [] => Ok(JobLine::Nothing),
    }
}

/// What the line of that number says, or what is wrong with it.
pub fn line_of(heap: Global, line: usize, bytes: &[u8]) -> Result<JobLine, Wrong>
    ensures { MatchResult result (SaysLine line bytes.now) (RefusesLine bytes.now) }
{
    let words = words_of(heap, bytes)?;
    said(heap, line, words.as_slice())
}
