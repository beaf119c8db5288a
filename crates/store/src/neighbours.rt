// The neighbours: two stores side by side.
ghost use Rattle.std.specs.Prelude.{◌≡◌, ℕ, ◌≢◌};
ghost use Rattle.store.specs.Sides.{side_by_side, side_lawful, side_bounded, first_after, second_after};
ghost use Rattle.cells.specs.Putting.{put_answer, put_left};

use crate::store::Store;
use cells::cell::Cell;
use cells::fault::StoreFault;

/// Two stores of any makes. A location below `split` is the first's; any other is the second's, which
/// counts from `split` on.
#[derive(Drop)]
pub struct Neighbours<L, R> {
    left: L,
    right: R,
    split: u8,
}

impl<L, R> Neighbours<L, R> {
    /// Sets the stores side by side.
    pub fn new(left: L, right: R, split: u8) -> Neighbours<L, R>
        ensures { (result.left ≡ left) × (result.right ≡ right) × (result.split ≡ split) }
    {
        Neighbours { left, right, split }
    }

    /// The two stores, as they now are.
    pub fn into_parts(self) -> (L, R)
        ensures { (result.0 ≡ self.left) × (result.1 ≡ self.right) }
    {
        (self.left, self.right)
    }
}

impl<L: Store, R: Store> Store for Neighbours<L, R> {
    ghost cells = { λ s. side_by_side s.split (L.Store.cells s.left) (R.Store.cells s.right) };

    ghost lawful = { λ s. side_lawful s.split (L.Store.cells s.left) (R.Store.cells s.right) (L.Store.lawful s.left) (R.Store.lawful s.right) };

    ghost bounded = { λ s. side_bounded s.split (L.Store.cells s.left) (R.Store.cells s.right) };

    ghost Ground = { L.Store.Ground × R.Store.Ground × ℕ };

    ghost rests = { λ s. (L.Store.rests s.left, R.Store.rests s.right, s.split) };

    fn tell(&self, location: u8) -> Cell {
        if location < self.split {
            self.left.tell(location)
        } else {
            self.right.tell(location - self.split)
        }
    }

    // An impl's own clauses replace the trait's: the first four are those, by the trait's own names.
    fn put(&mut self, location: u8, number: i32) -> Result<(), StoreFault>
        ensures answers { result ≡ put_answer (⟦<Self as Store>⟧.cells self.old location) location number }
        ensures writes { ⟦<Self as Store>⟧.cells self.new location ≡ put_left (⟦<Self as Store>⟧.cells self.old location) number }
        ensures spares { (k : ℕ) → (k ≢ location) → ⟦<Self as Store>⟧.cells self.new k ≡ ⟦<Self as Store>⟧.cells self.old k }
        ensures keeps { ⟦<Self as Store>⟧.rests self.new ≡ ⟦<Self as Store>⟧.rests self.old }
        ensures first { (k : ℕ) → L.Store.cells self.new.left k ≡ first_after self.old.split (L.Store.cells self.old.left) location number k }
        ensures second { (k : ℕ) → R.Store.cells self.new.right k ≡ second_after self.old.split (R.Store.cells self.old.right) location number k }
    {
        if location < self.split {
            return self.left.put(location, number);
        }
        self.right
            .put(location - self.split, number)
            .map_err(|fault| fault.at(location))
    }
}
