// Code over any store, proved from the meaning alone.
ghost use Rattle.std.specs.Prelude.{◌≡◌, Err, MatchResult};
ghost use Rattle.cells.specs.Putting.{after_put, put_answer};

use cells::fault::StoreFault;
use store::store::Store;

/// Puts a number and reads it back. What is read is the number, unless the put is refused.
pub fn put_and_read<S: Store>(store: &mut S, location: u8, number: i32) -> Result<i32, StoreFault>
    ensures reads { MatchResult result (λ n. n ≡ number) (λ f. put_answer (S.cells store.old location) location number ≡ Err f) }
    ensures leaves { S.cells store.new ≡ after_put (S.cells store.old) location number }
{
    store.put(location, number)?;
    (*store).tell(location).read(location)
}
