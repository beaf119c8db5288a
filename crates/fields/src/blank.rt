// White space: the bytes that part the fields of a text.

ghost use Rattle.std.specs.Prelude.{Decides};
ghost use Rattle.fields.specs.Blanks.{Blank};

/// Whether the byte is white space: a space, a tab, a line feed, a carriage return, a form feed or
/// a vertical tab.
pub fn is_blank(b: u8) -> bool
    ensures { Decides result (Blank b) }
{
    matches!(b, b'\t'..=b'\r' | b' ')
}
