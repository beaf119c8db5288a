// The pair list: a store over words in its caller's memory, a location and then its number.
ghost use Rattle.std.specs.Borrow.{GName};
ghost use Rattle.std.specs.Prelude.{◌≡◌, ℕ, ◌<◌, length, IfSome, ◌≢◌};
ghost use Rattle.pair_list.specs.Pairs.{place, listed, pair_cells, pair_lawful, pair_bounded, words_after};
ghost use Rattle.cells.specs.Putting.{put_answer, put_left};

use cells::cell::{Cell, KnownCell};
use cells::fault::StoreFault;
use store::store::Store;

/// A store over a lent slice of words. The first pair that names a location is its cell: free, set,
/// and of the widest limits. A lone last word counts for nothing, and so does a pair whose first word
/// is no location.
#[derive(Drop)]
pub struct PairList<'a> {
    words: &'a mut [i32],
}

impl<'a> PairList<'a> {
    /// The pair list of these words, whatever they are.
    pub fn new(words: &'a mut [i32]) -> PairList<'a>
        ensures holds { result.words.now ≡ words.old }
        ensures lends { result.words.ghost_name ≡ words.entry.ghost_name }
    {
        PairList { words }
    }

    /// The words as they now are.
    pub fn words(&self) -> &[i32]
        ensures { result.now ≡ self.now.words.now }
    {
        &*self.words
    }

    // Where the number of the location stands, if a pair names it.
    fn place(&self, location: u8) -> Option<usize>
        ensures place { result ≡ place self.now.words.now location }
        ensures inside { IfSome result (λ i. i < length self.now.words.now) }
    {
        self.words
            .chunks_exact(2)
            .position(|pair| pair[0] == i32::from(location))
            .map(|k| 2 * k + 1)
    }
}

// The cell of a number that is listed.
fn listed(number: i32) -> Cell
    ensures { result ≡ listed number }
{
    Cell::Known(KnownCell::widest(Some(number)))
}

impl Store for PairList<'_> {
    ghost cells = { λ s. pair_cells s.words.now };

    ghost lawful = { λ s. pair_lawful s.words.now };

    ghost bounded = { λ s. pair_bounded s.words.now };

    ghost Ground = { GName };

    ghost rests = { λ s. s.words.ghost_name };

    fn tell(&self, location: u8) -> Cell {
        self.place(location)
            .map_or(Cell::Unknown, |i| listed(self.words[i]))
    }

    // An impl's own clauses replace the trait's: the first four are those, by the trait's own names.
    fn put(&mut self, location: u8, number: i32) -> Result<(), StoreFault>
        ensures answers { result ≡ put_answer (⟦<Self as Store>⟧.cells self.old location) location number }
        ensures writes { ⟦<Self as Store>⟧.cells self.new location ≡ put_left (⟦<Self as Store>⟧.cells self.old location) number }
        ensures spares { (k : ℕ) → (k ≢ location) → ⟦<Self as Store>⟧.cells self.new k ≡ ⟦<Self as Store>⟧.cells self.old k }
        ensures keeps { ⟦<Self as Store>⟧.rests self.new ≡ ⟦<Self as Store>⟧.rests self.old }
        ensures frames { self.new.words.now ≡ words_after self.old.words.now location number }
    {
        let i = self
            .place(location)
            .ok_or(StoreFault::UnknownLocation(location))?;
        listed(self.words[i]).admit(location, number)?;
        self.words[i] = number;
        Ok(())
    }
}
