// The line that tells what loading answers.
ghost use Rattle.std.specs.Prelude.{◌≡◌, IfOk, string_bytes};
ghost use Rattle.tablecheck.specs.Lines.{line_of};

use std::alloc::{AllocError, Global};
use table::{Needs, Refusal};

/// `control K results R` for the needs of a table that loads, `refused Q row P` for another.
pub fn line(heap: Global, answer: Result<Needs, Refusal>) -> Result<String, AllocError>
    ensures { IfOk result (λ s. string_bytes s ≡ line_of answer) }
{
    match answer {
        Ok(needs) => needs.to_string(heap),
        Err(refusal) => refusal.to_string(heap),
    }
}
