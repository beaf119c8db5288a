// Bytes cut in two.

ghost use Rattle.std.specs.Prelude.{MatchOption};
ghost use Rattle.job_line.specs.Splits.{Lacks, Parted};

/// What stands before the first such byte, and what stands after it; none where there is no such byte.
pub fn split_once(text: &[u8], byte: u8) -> Option<(&[u8], &[u8])>
    ensures { MatchOption result (Lacks byte text.now) (λ p. Parted byte text.now p.0.now p.1.now) }
{
    let at = text.iter().position(|b| *b == byte)?;
    Some((&text[..at], &text[at + 1..]))
}
