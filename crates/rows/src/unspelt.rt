// The error of reading a row.
use std::num::TryFromIntError;

/// A word that spells nothing of what it was read as.
#[derive(Clone, Copy, PartialEq, Eq, Debug)]
pub struct Unspelt;

impl From<TryFromIntError> for Unspelt {
    fn from(_: TryFromIntError) -> Self {
        Unspelt
    }
}
