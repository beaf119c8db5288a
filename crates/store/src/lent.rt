// A store that is lent is a store: what stands on stores by value stands as well on a loan.
ghost use Rattle.std.specs.Borrow.{GName};

use crate::store::Store;
use cells::cell::Cell;
use cells::fault::StoreFault;

impl<S: Store> Store for &mut S {
    ghost cells = { λ s k. S.Store.cells s.now k };

    ghost lawful = { λ s k. S.Store.lawful s.now k };

    ghost bounded = { λ s. S.Store.bounded s.now };

    ghost Ground = { GName × S.Store.Ground };

    ghost rests = { λ s. (s.ghost_name, S.Store.rests s.now) };

    fn tell(&self, location: u8) -> Cell {
        (**self).tell(location)
    }

    fn put(&mut self, location: u8, number: i32) -> Result<(), StoreFault> {
        (**self).put(location, number)
    }
}
