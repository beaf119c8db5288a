// The lines of the casebook.
ghost use Rattle.std.specs.Prelude.{◌≡◌, Some};
ghost use Rattle.worked.specs.Lines.{claimed_line, text_of};

use crate::setup::Setup;
use std::fmt;

/// How a case ended.
#[derive(Clone, Copy)]
pub struct Line {
    /// The case's number.
    pub number: u8,
    /// The end's number.
    pub end: u8,
    /// The row of a fault, and otherwise 0.
    pub row: u32,
    /// How many transitions were made.
    pub count: u32,
}

impl Line {
    /// Runs the case with that number, from 1 to 12, and says how it ended. There is no other case.
    pub fn of_case(number: u8) -> Option<Line>
        ensures { result ≡ claimed_line number }
    {
        let ended = Setup::numbered(number)?.run()?;
        Some(Line {
            number,
            end: ended.number(),
            row: ended.row(),
            count: ended.count(),
        })
    }
}

impl fmt::Display for Line {
    ghost output = { λ l. Some (text_of l) };

    fn fmt<W: fmt::Write>(&self, f: &mut fmt::Formatter<W>) -> fmt::Result {
        let Line {
            number,
            end,
            row,
            count,
        } = *self;
        write!(f, "c{number} {end} {row} {count}")
    }
}
