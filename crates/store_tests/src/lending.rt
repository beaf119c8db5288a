// What a caller knows of the memory that it lent to a store, once the store is gone.
ghost use Rattle.std.specs.Prelude.{◌≡◌};
ghost use Rattle.pair_list.specs.Pairs.{words_after};
ghost use Rattle.sheet.specs.Sheets.{records_after};

use cells::fault::StoreFault;
use pair_list::pairs::PairList;
use sheet::record::Record;
use sheet::sheet::Sheet;
use store::store::Store;

// One for each make: what its lent memory then holds is its own clause `frames`, which no bound on stores tells.

/// Puts a number into records by way of a sheet.
pub fn put_in_records(records: &mut [Record], location: u8, number: i32) -> Result<(), StoreFault>
    ensures { records.new ≡ records_after records.old location number }
{
    Sheet::new(records).put(location, number)
}

/// Puts a number into words by way of a pair list.
pub fn put_in_words(words: &mut [i32], location: u8, number: i32) -> Result<(), StoreFault>
    ensures { words.new ≡ words_after words.old location number }
{
    PairList::new(words).put(location, number)
}
