// The cell that a line writes.
ghost use Rattle.std.specs.Result.{MatchResult};
ghost use Rattle.fields.specs.Integers.{Integer, integer_of};
ghost use Rattle.fields.specs.Numbers.{number_of};
ghost use Rattle.job_line.specs.declared.wrong.Wrong.TheVariants.{NotLocation, NotSigned};
ghost use Rattle.job_line.specs.CellLines.{WritesMark, NoMark, WritesContent, NoContent, Lawful, RefusesCell, WritesCell, RefusesParts, SaysCell, RefusesCellLine};
ghost use Rattle.job_line.specs.Makes.{Byte};
ghost use Rattle.job_line.specs.Numbers.{Reads};
ghost use Rattle.job_line.specs.Words.{texts};

use crate::make::byte_of;
use crate::words::miscounted;
use crate::wrong::Wrong;
use cells::cell::{KnownCell, Mark};
use fields::signed::signed;

fn location_of(word: &[u8]) -> Result<u8, Wrong>
    ensures { Reads result (Byte word.now) (number_of word.now) NotLocation }
{
    byte_of(word).ok_or(Wrong::NotLocation)
}

fn limit_of(word: &[u8]) -> Result<i32, Wrong>
    ensures { Reads result (Integer word.now) (integer_of word.now) NotSigned }
{
    signed(word).ok_or(Wrong::NotSigned)
}

// A function and no `TryFrom`, as all that read a word of a line: what they refuse is said by their contracts.
fn mark_of(word: &[u8]) -> Result<Mark, Wrong>
    ensures { MatchResult result (WritesMark word.now) (NoMark word.now) }
{
    match word {
        b"free" => Ok(Mark::Free),
        b"fixed" => Ok(Mark::Fixed),
        _ => Err(Wrong::NotMark),
    }
}

fn content_of(word: &[u8]) -> Result<Option<i32>, Wrong>
    ensures { MatchResult result (WritesContent word.now) (NoContent word.now) }
{
    match word {
        b"unset" => Ok(None),
        _ => signed(word).map(Some).ok_or(Wrong::NotContent),
    }
}

// The location and the cell whose parts the words write, whatever its limits and its content.
fn written(words: &[&[u8]]) -> Result<(u8, KnownCell), Wrong>
    ensures { MatchResult result (λ p. WritesCell (texts words.now) p.0 p.1) (RefusesParts (texts words.now)) }
{
    let [location, lowest, highest, mark, content] = words else {
        return Err(miscounted(words.len(), 5));
    };
    let location = location_of(location)?;
    let cell = KnownCell {
        lowest: limit_of(lowest)?,
        highest: limit_of(highest)?,
        mark: mark_of(mark)?,
        content: content_of(content)?,
    };
    Ok((location, cell))
}

// Whether the limits of the cell are in order and hold its content.
fn lawful(cell: KnownCell) -> Result<(), Wrong>
    ensures { MatchResult result (λ _. Lawful cell) (RefusesCell cell) }
{
    if cell.lowest > cell.highest {
        return Err(Wrong::LimitsCross);
    }
    if cell.content.is_some_and(|number| !cell.within(number)) {
        return Err(Wrong::OutsideLimits);
    }
    Ok(())
}

/// The location and the cell that the words write: location, lowest and highest number, mark and content.
pub(crate) fn cell_of(words: &[&[u8]]) -> Result<(u8, KnownCell), Wrong>
    ensures { MatchResult result (λ p. SaysCell (texts words.now) p.0 p.1) (RefusesCellLine (texts words.now)) }
{
    let (location, cell) = written(words)?;
    lawful(cell)?;
    Ok((location, cell))
}
