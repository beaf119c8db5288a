// The message for a word that is no number.
ghost use Rattle.std.specs.Prelude.{◌≡◌, ◌≤◌, Some, length};
ghost use Rattle.std.specs.List.{flat_map};
ghost use Rattle.tablecheck.specs.Complaints.{plain, shown_byte, shortened, complaint_of, Complains};

use fields::place::{Place, place_of};
use fields::span::Span;
use std::fmt;

// The bytes of a word that are shown at most.
const MOST: usize = 32;

// Whether a byte can stand for itself in a message.
fn is_plain(b: u8) -> bool
    ensures { result ≡ plain b }
{
    b.is_ascii_graphic() && b != b'\\'
}

// A byte as it is where it can stand for itself, else by its two hexadecimal digits.
#[derive(Drop)]
struct ShownByte(u8);

impl fmt::Display for ShownByte {
    ghost output = { λ b. Some (shown_byte b.0) };

    fn fmt<W: fmt::Write>(&self, f: &mut fmt::Formatter<W>) -> fmt::Result {
        let b = self.0;
        if is_plain(b) {
            f.write_char(char::from(b))
        } else {
            write!(f, "\\x{b:02x}")
        }
    }
}

// Bytes one after the other, each so that it prints.
#[derive(Drop)]
struct Shown<'a>(&'a [u8]);

impl fmt::Display for Shown<'_> {
    ghost output = { λ s. Some (flat_map shown_byte s.0.now) };

    fn fmt<W: fmt::Write>(&self, f: &mut fmt::Formatter<W>) -> fmt::Result {
        for b in self.0 {
            write!(f, "{}", ShownByte(*b))?;
        }
        Ok(())
    }
}

// A word so that any terminal can show it: with other bytes spelt out, and cut where it is long.
#[derive(Drop)]
struct Word<'a>(&'a [u8]);

impl fmt::Display for Word<'_> {
    ghost output = { λ w. Some (shortened w.0.now) };

    fn fmt<W: fmt::Write>(&self, f: &mut fmt::Formatter<W>) -> fmt::Result {
        match self.0.get(..MOST) {
            Some(front) if front.len() < self.0.len() => write!(f, "{}...", Shown(front)),
            _ => write!(f, "{}", Shown(self.0)),
        }
    }
}

/// The message for a word that is no number: the place where it begins, and its bytes.
#[derive(Drop)]
pub(crate) struct Complaint<'a> {
    place: Place,
    word: &'a [u8],
}

impl<'a> Complaint<'a> {
    /// What is told of a field of the text.
    pub(crate) fn of(text: &'a [u8], field: Span) -> Complaint<'a>
        requires { (field.start ≤ field.end) × (field.end ≤ length text.now) }
        ensures { Complains text.now field (complaint_of result.place (shortened result.word.now)) }
    {
        Complaint {
            place: place_of(text, field.start),
            word: field.bytes(text),
        }
    }
}

impl fmt::Display for Complaint<'_> {
    ghost output = { λ c. Some (complaint_of c.place (shortened c.word.now)) };

    fn fmt<W: fmt::Write>(&self, f: &mut fmt::Formatter<W>) -> fmt::Result {
        let Place { line, column } = self.place;
        let word = Word(self.word);
        write!(
            f,
            "line {line}, column {column}: {word} is no 32-bit number"
        )
    }
}
