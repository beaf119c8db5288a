// A line cut into words.
ghost use Rattle.std.specs.Prelude.{◌≡◌, ◌≢◌, ◌<◌, length, Decides, MatchResult};
ghost use Rattle.std.specs.Vec as vecs;
ghost use Rattle.std.specs.List.{AllByRecursion};
ghost use Rattle.job_line.specs.declared.wrong.Wrong.TheVariants.{Memory};
ghost use Rattle.job_line.specs.Words.{Plain, MarksComment, CodeEnds, CodeOf, texts, WordsOf, LineWords, RefusesWords, Miscounted};

use crate::wrong::Wrong;
use fields::blank::is_blank;
use fields::iter::Fields;
use std::alloc::Global;

/// What is wrong with so many words, where another number is wanted.
pub(crate) fn miscounted(have: usize, want: usize) -> Wrong
    requires { have ≢ want }
    ensures { Miscounted have want result }
{
    if have < want {
        Wrong::Missing
    } else {
        Wrong::TooMany
    }
}

// Whether the byte may stand in a line, outside of comments.
fn is_plain(b: u8) -> bool
    ensures { Decides result (Plain b) }
{
    matches!(b, b' '..=b'~' | b'\t' | b'\r')
}

// Whether all of them may.
fn all_plain(bytes: &[u8]) -> bool
    ensures { Decides result (AllByRecursion Plain bytes.now) }
{
    bytes.iter().all(|b| is_plain(*b))
}

// Whether a comment can begin at that byte: at a `#` with nothing or a blank before it.
fn marks_comment(line: &[u8], at: usize) -> bool
    requires { at < length line.now }
    ensures { Decides result (MarksComment line.now at) }
{
    line[at] == b'#' && (at == 0 || is_blank(line[at - 1]))
}

// Where the line's comment begins; the end of a line that has none.
fn code_end(line: &[u8]) -> usize
    ensures { CodeEnds line.now result }
{
    (0..line.len())
        .find(|at| marks_comment(line, *at))
        .unwrap_or(line.len())
}

// The line up to its comment.
fn code_of(line: &[u8]) -> &[u8]
    ensures { CodeOf line.now result.now }
{
    &line[..code_end(line)]
}

// The fields of a text.
fn cut(heap: Global, text: &[u8]) -> Result<Vec<&[u8]>, Wrong>
    ensures { MatchResult result (λ v. WordsOf text.now (texts (vecs.vec_items v))) (λ e. e ≡ Memory) }
{
    let mut words = Vec::new(heap);
    for field in Fields::of(text) {
        words.push(field.bytes(text))?;
    }
    Ok(words)
}

/// The words of a line: its fields up to a comment, which may hold any bytes.
pub(crate) fn words_of(heap: Global, line: &[u8]) -> Result<Vec<&[u8]>, Wrong>
    ensures { MatchResult result (λ v. LineWords line.now (texts (vecs.vec_items v))) (RefusesWords line.now) }
{
    let code = code_of(line);
    if !all_plain(code) {
        return Err(Wrong::BadByte);
    }
    cut(heap, code)
}
