// A job read from its text, line by line.
ghost use Rattle.std.specs.Prelude.{IfOk, MatchResult};
ghost use Rattle.job.specs.Reading.{Reads, Sound, Stops};

use crate::bad_line::BadLine;
use crate::draft::Draft;
use crate::finish::finish;
use crate::job::Job;
use std::alloc::Global;

/// The job that the text says, or the first line that is wrong.
///
/// Lines are read in their order. What only the whole text can tell, as whether there is a limit, is
/// asked after the last of them.
pub fn read(heap: Global, text: &[u8]) -> Result<Job, BadLine>
    ensures told { MatchResult result (Reads text.now) (Stops text.now) }
    ensures sound { IfOk result Sound }
{
    let mut draft = Draft::new(heap);
    let mut number = 0;
    for (before, piece) in text.split_inclusive(|b| *b == b'\n').enumerate() {
        let line = piece.strip_suffix(b"\n").unwrap_or(piece);
        number = before + 1;
        draft
            .read_line(heap, number, line)
            .map_err(|wrong| BadLine {
                line: number,
                wrong,
            })?;
    }
    finish(draft, number)
}
