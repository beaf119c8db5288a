// Places in a text, as a message tells them.

ghost use Rattle.std.specs.Prelude.{◌≡◌, ◌≤◌, length};
ghost use Rattle.fields.specs.Places.{feeds, BeginsLine, AtPlace};

/// A line of a text and a byte of it, both counted from 1.
#[derive(Clone, Copy, PartialEq, Eq, Debug)]
pub struct Place {
    pub line: usize,
    pub column: usize,
}

// How many line feeds there are.
fn line_feeds(text: &[u8]) -> usize
    ensures count { result ≡ feeds text.now }
    ensures bound { result ≤ length text.now }
{
    text.iter().filter(|b| **b == b'\n').count()
}

// Where the last line begins: after the last line feed.
fn last_line(text: &[u8]) -> usize
    ensures { BeginsLine text.now result }
{
    text.iter().rposition(|b| *b == b'\n').map_or(0, |i| i + 1)
}

/// The line and the column of the byte at an offset. An offset past the end is taken as the end.
pub fn place_of(text: &[u8], offset: usize) -> Place
    ensures { AtPlace text.now offset result }
{
    let end = offset.min(text.len());
    let before = &text[..end];
    Place {
        line: line_feeds(before) + 1,
        column: end - last_line(before) + 1,
    }
}
