// The make of a board's store.
ghost use Rattle.std.specs.Prelude.{◌≡◌, ℕ, ◌∷◌, ◌++◌, Some, MatchOption, MatchResult};
ghost use Rattle.std.specs.Option.{SomeIff};
ghost use Rattle.fields.specs.Numbers.{number_of};
ghost use Rattle.job_line.specs.Makes.{Byte, FromTo, name_of, Writes, Unnamed, RefusesMake};
ghost use Rattle.job_line.specs.MakeTexts.{text_of};

use crate::split::split_once;
use crate::wrong::Wrong;
use fields::number::unsigned;
use std::fmt;

/// Which store a board has.
#[derive(Clone, Copy, PartialEq, Eq, Debug)]
pub enum Make {
    Sheet,
    /// A cover over a sheet, from the first location to the last.
    Cover(u8, u8),
    /// Two sheets side by side, the second from that location on.
    Neighbours(u8),
    Pairs,
}

impl fmt::Display for Make {
    ghost output = { λ m. Some (text_of m) };

    fn fmt<W: fmt::Write>(&self, f: &mut fmt::Formatter<W>) -> fmt::Result {
        match self {
            Make::Sheet => write!(f, "sheet"),
            Make::Cover(first, last) => write!(f, "cover:{first}:{last}"),
            Make::Neighbours(split) => write!(f, "neighbours:{split}"),
            Make::Pairs => write!(f, "pairs"),
        }
    }
}

/// The makes, without their parameters.
#[derive(Clone, Copy)]
pub enum Kind {
    Sheet,
    Cover,
    Neighbours,
    Pairs,
}

/// The number from 0 to 255 that the digits write; none for any other bytes.
pub(crate) fn byte_of(word: &[u8]) -> Option<u8>
    ensures { SomeIff result (Byte word.now) (number_of word.now) }
{
    u8::try_from(unsigned(word)?).ok()
}

// The make of that name.
fn kind_of(name: &[u8]) -> Result<Kind, Wrong>
    ensures { MatchResult result (λ k. name.now ≡ name_of k) (Unnamed name.now) }
{
    match name {
        b"sheet" => Ok(Kind::Sheet),
        b"cover" => Ok(Kind::Cover),
        b"neighbours" => Ok(Kind::Neighbours),
        b"pairs" => Ok(Kind::Pairs),
        _ => Err(Wrong::UnknownMake),
    }
}

// The first and the last location of a cover.
fn cover_parameters(parameters: &[u8]) -> Option<(u8, u8)>
    ensures { MatchOption result ((a b : ℕ) → FromTo parameters.now a b → ⊥) (λ p. FromTo parameters.now p.0 p.1) }
{
    let (first, last) = split_once(parameters, b':')?;
    Some((byte_of(first)?, byte_of(last)?))
}

// The make without parameters.
fn bare_make(kind: Kind) -> Option<Make>
    ensures { MatchOption result ((m : Make) → Writes (name_of kind) m → ⊥) (Writes (name_of kind)) }
{
    match kind {
        Kind::Sheet => Some(Make::Sheet),
        Kind::Pairs => Some(Make::Pairs),
        Kind::Cover | Kind::Neighbours => None,
    }
}

// The make with the parameters that stand after its name and a colon.
fn make_with(kind: Kind, parameters: &[u8]) -> Option<Make>
    ensures { MatchOption result ((m : Make) → Writes (name_of kind ++ 58 ∷ parameters.now) m → ⊥) (Writes (name_of kind ++ 58 ∷ parameters.now)) }
{
    match kind {
        Kind::Cover => {
            let (first, last) = cover_parameters(parameters)?;
            Some(Make::Cover(first, last))
        }
        Kind::Neighbours => Some(Make::Neighbours(byte_of(parameters)?)),
        Kind::Sheet | Kind::Pairs => None,
    }
}

/// The make that a word writes: `sheet`, `cover:FIRST:LAST`, `neighbours:SPLIT` or `pairs`.
pub(crate) fn make_of(word: &[u8]) -> Result<Make, Wrong>
    ensures { MatchResult result (Writes word.now) (RefusesMake word.now) }
{
    let make = match split_once(word, b':') {
        Some((name, parameters)) => make_with(kind_of(name)?, parameters),
        None => bare_make(kind_of(word)?),
    };
    make.ok_or(Wrong::BadParameters)
}
