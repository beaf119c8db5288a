// The cells that a case starts with.
ghost use Rattle.std.specs.Prelude.{◌≡◌, ℕ};
ghost use Rattle.semantics.specs.Worked.{cells_with};
ghost use Rattle.sheet.specs.Sheets.{cell_of, sheet_cells};
ghost use Rattle.worked.specs.Setups.{held_at, held};

use cells::cell::KnownCell;
use sheet::record::Record;

/// A location, with the number that its cell holds.
#[derive(Clone, Copy)]
pub struct Holding {
    pub location: u8,
    pub number: i32,
}

impl Holding {
    /// The record of its cell, which is free and of the widest limits.
    pub fn record(self) -> Record
        ensures { cell_of result ≡ (held_at self).1 }
    {
        Record::from(KnownCell::widest(Some(self.number)))
    }
}

/// The records of 256 cells: free, of the widest limits, and unset but for those that hold a number.
pub fn records_with(start: &[Holding]) -> [Record; 256]
    ensures { (l : ℕ) → sheet_cells result l ≡ cells_with (held start.now) l }
{
    let mut records = [Record::from(KnownCell::widest(None)); 256];
    // From the last to the first, so that of two at one location the first counts.
    for holding in start.iter().rev() {
        records[holding.location as usize] = holding.record();
    }
    records
}
