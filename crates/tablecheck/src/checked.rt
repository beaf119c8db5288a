// From the bytes of a table, as written, to the line that tells what loading answers.
ghost use Rattle.std.specs.Prelude.{string_bytes, MatchResult};
ghost use Rattle.fields.specs.Reading.{Stops};
ghost use Rattle.tablecheck.specs.Lines.{Tells};

use crate::line::line;
use fields::read::{ReadError, unsigned_fields};
use std::alloc::Global;
use table::program::Program;

/// The line for the table whose words the text writes, or the first field that is no word.
pub fn checked(heap: Global, text: &[u8]) -> Result<String, ReadError>
    ensures { MatchResult result (λ s. Tells text.now (string_bytes s)) (Stops text.now) }
{
    let words = unsigned_fields(heap, text)?;
    let answer = Program::new().load(words.as_slice());
    Ok(line(heap, answer)?)
}
