// A cell: what a store holds at one location, and what is asked of it before it is read or written.
ghost use Rattle.std.specs.Prelude.{◌≡◌};
ghost use Rattle.cells.specs.Cells.{within, widest, fixed};
ghost use Rattle.cells.specs.Putting.{admission};
ghost use Rattle.cells.specs.Reading.{reading};

use crate::fault::StoreFault;

/// Whether a cell may be written.
#[derive(Clone, Copy, PartialEq, Eq, Debug)]
pub enum Mark {
    Free,
    Fixed,
}

/// A cell that the store knows: its limits, its mark and its content, the number that it holds if it is set.
#[derive(Clone, Copy, PartialEq, Eq, Debug)]
pub struct KnownCell {
    pub lowest: i32,
    pub highest: i32,
    pub mark: Mark,
    pub content: Option<i32>,
}

impl KnownCell {
    /// A free cell that takes every number.
    pub fn widest(content: Option<i32>) -> KnownCell
        ensures { result ≡ widest content }
    {
        KnownCell {
            lowest: i32::MIN,
            highest: i32::MAX,
            mark: Mark::Free,
            content,
        }
    }

    /// Whether the number lies within the limits, both included.
    pub fn within(self, number: i32) -> bool
        ensures { result ≡ within self number }
    {
        (self.lowest..=self.highest).contains(&number)
    }
}

/// What a store holds at one location.
// No `Option<KnownCell>`: `read`, `admit` and `fixed` ask in one place whether the location is known, and an Option could not carry them.
#[derive(Clone, Copy, PartialEq, Eq, Debug)]
pub enum Cell {
    Unknown,
    Known(KnownCell),
}

impl Cell {
    /// What the cell of that location holds.
    pub fn read(self, location: u8) -> Result<i32, StoreFault>
        ensures { result ≡ reading self location }
    {
        match self {
            Cell::Unknown => Err(StoreFault::UnknownLocation(location)),
            Cell::Known(cell) => cell.content.ok_or(StoreFault::UnsetCell(location)),
        }
    }

    /// Whether the cell of that location takes the number: is it known, is it free, and does the
    /// number lie within its limits? The first no is the answer.
    pub fn admit(self, location: u8, number: i32) -> Result<(), StoreFault>
        ensures { result ≡ admission self location number }
    {
        let Cell::Known(cell) = self else {
            return Err(StoreFault::UnknownLocation(location));
        };
        match cell.mark {
            Mark::Fixed => Err(StoreFault::FixedCell(location)),
            Mark::Free if cell.within(number) => Ok(()),
            Mark::Free => Err(StoreFault::OutsideLimits(location)),
        }
    }

    /// The same cell, fixed if it is known.
    pub fn fixed(self) -> Cell
        ensures { result ≡ fixed self }
    {
        match self {
            Cell::Unknown => Cell::Unknown,
            Cell::Known(cell) => Cell::Known(KnownCell {
                mark: Mark::Fixed,
                ..cell
            }),
        }
    }
}
