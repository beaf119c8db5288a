// Whether two stores stand for the same cells.
ghost use Rattle.std.specs.Prelude.{◌≡◌, true, Decides};
ghost use Rattle.cells.specs.Cells.{EqualCells};

use crate::store::Store;
use cells::cell::Cell;

/// Whether the 256 cells of the two stores agree, each in every part.
pub fn alike<S: Store>(one: &S, other: &S) -> bool
    ensures decides { Decides result (EqualCells (S.cells one.now) (S.cells other.now)) }
    ensures same { result ≡ true → S.cells one.now ≡ S.cells other.now }
{
    (0..=255u8).all(|location| one.tell(location) == other.tell(location))
}
