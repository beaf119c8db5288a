// A text read as a list of numbers.
ghost use Rattle.std.specs.Prelude.{◌≡◌, ◌≤◌, length, MatchResult};
ghost use Rattle.std.specs.Vec as vecs;
ghost use Rattle.fields.specs.declared.read.ReadError.TheVariants.{NoNumber, Memory};
ghost use Rattle.fields.specs.Numbers.{Word, number_of};
ghost use Rattle.fields.specs.Spans.{bytes_of};
ghost use Rattle.fields.specs.Reading.{Values, Stops};

use crate::iter::Fields;
use crate::number::unsigned;
use crate::span::Span;
use std::alloc;
use std::alloc::{AllocFailed, Global};

/// Why a text could not be read as numbers.
#[derive(Drop, PartialEq, Debug)]
pub enum ReadError {
    /// This field is no unsigned 32-bit number, and each one before it is.
    NoNumber(Span),
    /// There was no memory for the numbers.
    Memory,
}

// By hand, and one for each: contracts name the case that `?` makes, and the two errors have nothing in common.
impl From<alloc::AllocError> for ReadError {
    ghost from_gives = { λ _ r. r ≡ Memory };

    fn from(_e: alloc::AllocError) -> ReadError {
        ReadError::Memory
    }
}

impl<T: Drop> From<AllocFailed<T>> for ReadError {
    ghost from_gives = { λ _ r. r ≡ Memory };

    fn from(_e: AllocFailed<T>) -> ReadError {
        ReadError::Memory
    }
}

// The number that a field of the text writes.
fn number_in(text: &[u8], field: Span) -> Result<u32, ReadError>
    ensures { MatchResult result (λ n. Word (bytes_of text.now field) × (n ≡ number_of (bytes_of text.now field))) (λ e. ¬ Word (bytes_of text.now field) × (e ≡ NoNumber field)) }
{
    unsigned(field.bytes(text)).ok_or(ReadError::NoNumber(field))
}

/// The numbers that the fields of a text write, in their order; or the first field that is no
/// unsigned 32-bit number.
pub fn unsigned_fields(heap: Global, text: &[u8]) -> Result<Vec<u32>, ReadError>
    ensures { MatchResult result (λ v. Values text.now (vecs.vec_items v)) (Stops text.now) }
{
    let mut values = Vec::new(heap);
    for field in Fields::of(text) {
        values.push(number_in(text, field)?)?;
    }
    Ok(values)
}
