// A record of a sheet: how a cell lies in memory.
ghost use Rattle.std.specs.Prelude.{◌≡◌};
ghost use Rattle.sheet.specs.Sheets.{cell_of, blank, record_of, with_number, described, holds_together, sound};

use cells::cell::{Cell, KnownCell, Mark};

/// A cell's record. Its number counts only where `set` is marked.
// Marks and numbers side by side, and no Option or enum: this is the documented form of a record in the caller's memory.
#[derive(Clone, Copy, PartialEq, Eq, Default, Debug)]
pub struct Record {
    pub known: bool,
    pub fixed: bool,
    pub set: bool,
    pub lowest: i32,
    pub highest: i32,
    pub number: i32,
}

impl Record {
    /// A record of an unknown cell.
    pub fn blank() -> Record
        ensures { result ≡ blank }
    {
        Record::default()
    }

    /// The record with the number set, its other fields as they were.
    pub fn with_number(self, number: i32) -> Record
        ensures { result ≡ with_number self number }
    {
        Record {
            set: true,
            number,
            ..self
        }
    }

    // What the record says of its cell, if it stands for one.
    fn described(self) -> KnownCell
        ensures { result ≡ described self }
    {
        KnownCell {
            lowest: self.lowest,
            highest: self.highest,
            mark: if self.fixed { Mark::Fixed } else { Mark::Free },
            content: self.set.then_some(self.number),
        }
    }
}

/// The record of that cell. It stands for the cell if the limits do not cross and hold its content.
impl From<KnownCell> for Record {
    ghost from_gives = { λ h r. (r ≡ record_of h) × (cell_of r ≡ sound h) };

    fn from(cell: KnownCell) -> Record {
        Record {
            known: true,
            fixed: cell.mark == Mark::Fixed,
            set: cell.content.is_some(),
            lowest: cell.lowest,
            highest: cell.highest,
            number: cell.content.unwrap_or(0),
        }
    }
}

/// The cell that the record stands for. A record stands for none unless it is marked known, its
/// limits are in order, and the number it has set, if any, is within them.
impl From<Record> for Cell {
    ghost from_gives = { λ r c. c ≡ cell_of r };

    fn from(source: Record) -> Cell {
        let cell = source.described();
        if source.known && holds_together(cell) {
            Cell::Known(cell)
        } else {
            Cell::Unknown
        }
    }
}

// Whether the limits are in order, and the number that is held, if any, within them.
fn holds_together(cell: KnownCell) -> bool
    ensures { result ≡ holds_together cell }
{
    cell.lowest <= cell.highest && cell.content.is_none_or(|number| cell.within(number))
}
