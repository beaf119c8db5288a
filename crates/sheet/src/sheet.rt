// The sheet: a store over records in its caller's memory, changed where they are.
ghost use Rattle.std.specs.Borrow.{GName};
ghost use Rattle.std.specs.Prelude.{◌≡◌, ℕ, ◌≢◌};
ghost use Rattle.cells.specs.Putting.{put_answer, put_left};
ghost use Rattle.sheet.specs.Sheets.{sheet_cells, sheet_lawful, sheet_bounded, records_after};

use crate::record::Record;
use cells::cell::Cell;
use cells::fault::StoreFault;
use store::store::Store;

/// A store over a lent slice of records: location l is record l.
#[derive(Drop)]
pub struct Sheet<'a> {
    records: &'a mut [Record],
}

impl<'a> Sheet<'a> {
    /// The sheet of these records, however many they are.
    pub fn new(records: &'a mut [Record]) -> Sheet<'a>
        ensures holds { result.records.now ≡ records.old }
        ensures lends { result.records.ghost_name ≡ records.entry.ghost_name }
    {
        Sheet { records }
    }

    /// The records as they now are.
    pub fn records(&self) -> &[Record]
        ensures { result.now ≡ self.now.records.now }
    {
        &*self.records
    }
}

impl Store for Sheet<'_> {
    ghost cells = { λ s. sheet_cells s.records.now };

    ghost lawful = { λ s. sheet_lawful s.records.now };

    ghost bounded = { λ s. sheet_bounded s.records.now };

    ghost Ground = { GName };

    ghost rests = { λ s. s.records.ghost_name };

    fn tell(&self, location: u8) -> Cell {
        self.records
            .get(usize::from(location))
            .map_or(Cell::Unknown, |record| Cell::from(*record))
    }

    // An impl's own clauses replace the trait's: the first four are those, by the trait's own names.
    fn put(&mut self, location: u8, number: i32) -> Result<(), StoreFault>
        ensures answers { result ≡ put_answer (⟦<Self as Store>⟧.cells self.old location) location number }
        ensures writes { ⟦<Self as Store>⟧.cells self.new location ≡ put_left (⟦<Self as Store>⟧.cells self.old location) number }
        ensures spares { (k : ℕ) → (k ≢ location) → ⟦<Self as Store>⟧.cells self.new k ≡ ⟦<Self as Store>⟧.cells self.old k }
        ensures keeps { ⟦<Self as Store>⟧.rests self.new ≡ ⟦<Self as Store>⟧.rests self.old }
        ensures frames { self.new.records.now ≡ records_after self.old.records.now location number }
    {
        Self::tell(self, location).admit(location, number)?;
        let record = &mut self.records[usize::from(location)];
        *record = record.with_number(number);
        Ok(())
    }
}
