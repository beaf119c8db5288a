// Going through the known cells of a store.
ghost use Rattle.std.specs.Prelude.{◌≡◌, ◌-◌};
ghost use Rattle.store.specs.Known.{NextKnown, GoesPast};
ghost use Rattle.std.specs.Iterator.{at_most};

use crate::store::Store;
use cells::cell::{Cell, KnownCell};

/// The lowest known location from `from` on, with its cell, if there is one.
pub fn known_from<S: Store>(store: &S, from: u16) -> Option<(u8, KnownCell)>
    ensures { NextKnown (S.cells store.now) from result }
{
    (from..256).find_map(|k| {
        let location = k as u8;
        match store.tell(location) {
            Cell::Known(cell) => Some((location, cell)),
            Cell::Unknown => None,
        }
    })
}

/// The known cells of a store, each with its location, from the lowest up.
// `from` is one number, since `known_from` begins there anew and what the walk promises is told of it.
#[derive(Drop)]
pub struct KnownCells<'a, S> {
    store: &'a S,
    from: u16,
}

impl<'a, S: Store> KnownCells<'a, S> {
    /// The known cells of that store.
    pub fn of(store: &'a S) -> KnownCells<'a, S>
        ensures { (result.store.now ≡ store.now) × (result.from ≡ 0) }
    {
        KnownCells { store, from: 0 }
    }
}

impl<S: Store> Iterator for KnownCells<'_, S> {
    type Item = (u8, KnownCell);

    ghost next_gives = { λ s r t. NextKnown (S.Store.cells s.store.now) s.from r × (t.store.now ≡ s.store.now) × GoesPast r t.from };

    ghost remaining = { λ s. at_most (256 - s.from) };

    fn next(&mut self) -> Option<(u8, KnownCell)> {
        let next = known_from(self.store, self.from);
        self.from = next.map_or(256, |(location, _)| u16::from(location) + 1);
        next
    }
}
