// The numbers that the words of a line write.
ghost use Rattle.std.specs.Vec as vecs;
ghost use Rattle.std.specs.Result.{MatchResult};
ghost use Rattle.fields.specs.Numbers.{Word, number_of};
ghost use Rattle.job_line.specs.declared.wrong.Wrong.TheVariants.{NotWord};
ghost use Rattle.job_line.specs.Numbers.{Reads, Places, RefusesPlaces, Numbers, RefusesNumbers};
ghost use Rattle.job_line.specs.Words.{texts};

use crate::wrong::Wrong;
use fields::number::unsigned;
use std::alloc::Global;

/// The most places that a stack can have.
pub(crate) const MOST_PLACES: u32 = 1_000_000;

/// The unsigned 32-bit number that the word writes.
pub(crate) fn number_of(word: &[u8]) -> Result<u32, Wrong>
    ensures { Reads result (Word word.now) (number_of word.now) NotWord }
{
    unsigned(word).ok_or(Wrong::NotWord)
}

/// The number of places that the word writes.
pub(crate) fn places_of(word: &[u8]) -> Result<usize, Wrong>
    ensures { MatchResult result (Places word.now) (RefusesPlaces word.now) }
{
    let n = number_of(word)?;
    if n > MOST_PLACES {
        return Err(Wrong::TooManyPlaces);
    }
    Ok(n as usize)
}

/// The unsigned 32-bit numbers that the words write, in their order.
pub(crate) fn numbers_of(heap: Global, words: &[&[u8]]) -> Result<Vec<u32>, Wrong>
    ensures { MatchResult result (λ v. Numbers (texts words.now) (vecs.vec_items v)) (RefusesNumbers (texts words.now)) }
{
    let mut numbers = Vec::new(heap);
    for word in words {
        numbers.push(number_of(word)?)?;
    }
    Ok(numbers)
}
