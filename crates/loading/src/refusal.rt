// The questions that loading asks, each as the refusal that a no to it gives.
ghost use Rattle.std.specs.Prelude.{◌≡◌, Some};
ghost use Rattle.loading.specs.Questions.{number_of, row_of};
ghost use Rattle.loading.specs.Texts.{text_of_refusal};

use std::fmt;

/// Why a table was refused: the first question that got a no, with its row.
#[derive(Clone, Copy, PartialEq, Eq, Debug)]
pub enum Refusal {
    /// The length is no multiple of four, below 4 or above 16,384.
    Length,
    /// The row is of no kind that there is.
    Kind(u32),
    /// A word that the row's kind does not use is not 0.
    Unused(u32),
    /// An operator, a relation, a truth value or a location is out of its range.
    Range(u32),
    /// The row names itself or a later row.
    Forward(u32),
    /// A row that it names is of another sort than it asks.
    Mismatch(u32),
    /// The last row is no command.
    NotCommand(u32),
}

impl Refusal {
    /// The question's number, 1 to 7.
    pub fn number(self) -> u8
        ensures { result ≡ number_of self }
    {
        match self {
            Refusal::Length => 1,
            Refusal::Kind(_) => 2,
            Refusal::Unused(_) => 3,
            Refusal::Range(_) => 4,
            Refusal::Forward(_) => 5,
            Refusal::Mismatch(_) => 6,
            Refusal::NotCommand(_) => 7,
        }
    }

    /// The row that it was asked of; 0 for the length.
    pub fn row(self) -> u32
        ensures { result ≡ row_of self }
    {
        match self {
            Refusal::Length => 0,
            Refusal::Kind(p)
            | Refusal::Unused(p)
            | Refusal::Range(p)
            | Refusal::Forward(p)
            | Refusal::Mismatch(p)
            | Refusal::NotCommand(p) => p,
        }
    }
}

impl fmt::Display for Refusal {
    ghost output = { λ e. Some (text_of_refusal e) };

    fn fmt<W: fmt::Write>(&self, f: &mut fmt::Formatter<W>) -> fmt::Result {
        let question = self.number();
        let row = self.row();
        write!(f, "refused {question} row {row}")
    }
}
