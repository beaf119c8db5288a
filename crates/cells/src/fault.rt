// Why a cell is not read or not written.

ghost use Rattle.std.specs.Prelude.{◌≡◌};
ghost use Rattle.cells.specs.Faults.{number_of, location_of, relocated};

/// The question about a cell that got a no, with the location that it was asked of.
// Each variant has the location, and no struct has it beside a question: this is the documented form of an answer.
#[derive(Clone, Copy, PartialEq, Eq, Debug)]
pub enum StoreFault {
    /// The store knows no cell there.
    UnknownLocation(u8),
    /// The cell to be read holds no number.
    UnsetCell(u8),
    /// The cell to be written is fixed.
    FixedCell(u8),
    /// The number to be written lies outside the cell's limits.
    OutsideLimits(u8),
}

impl StoreFault {
    /// The question's number, 13 to 16.
    pub fn number(self) -> u8
        ensures { result ≡ number_of self }
    {
        match self {
            StoreFault::UnknownLocation(_) => 13,
            StoreFault::UnsetCell(_) => 14,
            StoreFault::FixedCell(_) => 15,
            StoreFault::OutsideLimits(_) => 16,
        }
    }

    /// The location that it was asked of.
    pub fn location(self) -> u8
        ensures { result ≡ location_of self }
    {
        match self {
            StoreFault::UnknownLocation(l)
            | StoreFault::UnsetCell(l)
            | StoreFault::FixedCell(l)
            | StoreFault::OutsideLimits(l) => l,
        }
    }

    /// The same no at another location: a store within a store counts its locations from 0.
    pub fn at(self, location: u8) -> StoreFault
        ensures { result ≡ relocated self location }
    {
        match self {
            StoreFault::UnknownLocation(_) => StoreFault::UnknownLocation(location),
            StoreFault::UnsetCell(_) => StoreFault::UnsetCell(location),
            StoreFault::FixedCell(_) => StoreFault::FixedCell(location),
            StoreFault::OutsideLimits(_) => StoreFault::OutsideLimits(location),
        }
    }
}
