// The fields of a text: its longest runs of bytes that are no white space.
ghost use Rattle.std.specs.Prelude.{◌≡◌, ◌<◌, ◌≤◌, length, MatchOption, slice_index};
ghost use Rattle.fields.specs.Blanks.{Blank, BlankBetween, SolidBetween};
ghost use Rattle.fields.specs.Spans.{Next, NoMore, bytes_of};

use crate::blank::is_blank;

/// Where a field stands in its text: the offset of its first byte, and that of the byte after its last.
#[derive(Clone, Copy, PartialEq, Eq, Debug)]
pub struct Span {
    pub start: usize,
    pub end: usize,
}

impl Span {
    /// The bytes of the text that stand there. An offset past the end is taken as the end, and an end
    /// before the start as the start.
    pub fn bytes(self, text: &[u8]) -> &[u8]
        ensures { result.now ≡ bytes_of text.now self }
    {
        let end = self.end.min(text.len());
        &text[self.start.min(end)..end]
    }
}

// The offset of the first byte that is no blank, from an offset on.
fn start_from(text: &[u8], from: usize) -> Option<usize>
    ensures { MatchOption result (NoMore text.now from) (λ s. (from ≤ s) × (s < length text.now) × BlankBetween text.now from s × ¬ Blank (slice_index text.now s)) }
{
    (from..text.len()).find(|at| !is_blank(text[*at]))
}

// Where the field ends that begins there: at the first blank, or at the end of the text.
fn end_of(text: &[u8], start: usize) -> usize
    requires { start < length text.now }
    ensures within { (start ≤ result) × (result ≤ length text.now) }
    ensures solid { SolidBetween text.now start result }
    ensures closed { result < length text.now → Blank (slice_index text.now result) }
{
    (start..text.len())
        .find(|at| is_blank(text[*at]))
        .unwrap_or(text.len())
}

/// The first field that begins at an offset or after it; none where only white space follows.
pub fn next_field(text: &[u8], from: usize) -> Option<Span>
    ensures { MatchOption result (NoMore text.now from) (Next text.now from) }
{
    let start = start_from(text, from)?;
    let end = end_of(text, start);
    Some(Span { start, end })
}
