// The cover: a store over another, with a run of its cells fixed.
ghost use Rattle.std.specs.Prelude.{◌≡◌, ℕ, ◌≢◌};
ghost use Rattle.store.specs.Covers.{covers, covered, covered_lawful, covered_bounded, under_after};
ghost use Rattle.cells.specs.Putting.{put_answer, put_left};

use crate::store::Store;
use cells::cell::Cell;
use cells::fault::StoreFault;

/// A store over any other: its known cells from `first` to `last`, both included, are fixed. Where
/// `first` is past `last`, none is.
#[derive(Drop)]
pub struct Cover<S> {
    under: S,
    first: u8,
    last: u8,
}

impl<S> Cover<S> {
    /// Covers the store from `first` to `last`.
    pub fn new(under: S, first: u8, last: u8) -> Cover<S>
        ensures { (result.under ≡ under) × (result.first ≡ first) × (result.last ≡ last) }
    {
        Cover { under, first, last }
    }

    /// The store that was covered, as it now is.
    pub fn into_under(self) -> S
        ensures { result ≡ self.under }
    {
        self.under
    }

    /// Whether the location is covered.
    pub fn covers(&self, location: u8) -> bool
        ensures { result ≡ covers self.now.first self.now.last location }
    {
        (self.first..=self.last).contains(&location)
    }
}

impl<S: Store> Store for Cover<S> {
    ghost cells = { λ s. covered s.first s.last (S.Store.cells s.under) };

    ghost lawful = { λ s. covered_lawful s.first s.last (S.Store.cells s.under) (S.Store.lawful s.under) };

    ghost bounded = { λ s. covered_bounded s.first s.last (S.Store.cells s.under) (S.Store.bounded s.under) };

    ghost Ground = { S.Store.Ground × ℕ × ℕ };

    ghost rests = { λ s. (S.Store.rests s.under, s.first, s.last) };

    fn tell(&self, location: u8) -> Cell {
        let cell = self.under.tell(location);
        if self.covers(location) {
            cell.fixed()
        } else {
            cell
        }
    }

    // An impl's own clauses replace the trait's: the first four are those, by the trait's own names.
    fn put(&mut self, location: u8, number: i32) -> Result<(), StoreFault>
        ensures answers { result ≡ put_answer (⟦<Self as Store>⟧.cells self.old location) location number }
        ensures writes { ⟦<Self as Store>⟧.cells self.new location ≡ put_left (⟦<Self as Store>⟧.cells self.old location) number }
        ensures spares { (k : ℕ) → (k ≢ location) → ⟦<Self as Store>⟧.cells self.new k ≡ ⟦<Self as Store>⟧.cells self.old k }
        ensures keeps { ⟦<Self as Store>⟧.rests self.new ≡ ⟦<Self as Store>⟧.rests self.old }
        ensures frames { (k : ℕ) → S.Store.cells self.new.under k ≡ under_after self.old.first self.old.last (S.Store.cells self.old.under) location number k }
    {
        if self.covers(location) {
            self.under.tell(location).fixed().admit(location, number)
        } else {
            self.under.put(location, number)
        }
    }
}
