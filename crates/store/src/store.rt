// The one meaning of every store.
ghost use Rattle.std.specs.Prelude.{◌≡◌, ℕ, ◌≢◌};
ghost use Rattle.cells.specs.declared.cell.Cell.{Cell};
ghost use Rattle.cells.specs.Cells.{Lawful, Bounded};
ghost use Rattle.cells.specs.Putting.{put_answer, put_left};

use cells::cell::Cell;
use cells::fault::StoreFault;

/// A store of 256 cells, one for each location.
///
/// A make says which cells it stands for, and shows that its functions keep to them. Code over any
/// store is proved from these members alone.
pub trait Store {
    /// The cells that the store stands for.
    ghost cells: { Self → ℕ → Cell };

    /// The law of limits: a content lies within its cell's limits.
    ghost lawful: { (s : Self) (k : ℕ) → Lawful (cells s k) };

    /// No cell is known past location 255.
    ghost bounded: { (s : Self) → Bounded (cells s) };

    /// What a store rests on besides its cells: the memory that is lent to it, and where its parts begin.
    ghost Ground: { Type 0 };

    ghost rests: { Self → Ground };

    /// The cell at a location. Asking changes no cell.
    fn tell(&self, location: u8) -> Cell
        ensures tells { result ≡ cells self.now location }
        ensures spares { (k : ℕ) → cells self.exit.now k ≡ cells self.entry.now k };

    /// Puts a number at a location, or says which question got a no: is the location known, is its
    /// cell free, does the number lie within its limits?
    fn put(&mut self, location: u8, number: i32) -> Result<(), StoreFault>
        ensures answers { result ≡ put_answer (cells self.old location) location number }
        ensures writes { cells self.new location ≡ put_left (cells self.old location) number }
        ensures spares { (k : ℕ) → (k ≢ location) → cells self.new k ≡ cells self.old k }
        ensures keeps { rests self.new ≡ rests self.old };
}
