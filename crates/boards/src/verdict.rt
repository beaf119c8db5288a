// Whether the boards have come to one result.
ghost use Rattle.std.specs.Prelude.{Some};
ghost use Rattle.boards.specs.Verdicts.{text_of};

use crate::bench::Outcome;
use std::fmt;

/// What is said of all boards.
#[derive(Clone, Copy, PartialEq, Eq, Debug)]
pub enum Verdict {
    /// All have ended, with one end, row, location and count, and with equal cells.
    Agree,
    /// All have ended, and two of them otherwise.
    Differ,
    /// One has not ended, or was not begun.
    Undecided,
}

impl fmt::Display for Verdict {
    ghost output = { λ v. Some (text_of v) };

    fn fmt<W: fmt::Write>(&self, f: &mut fmt::Formatter<W>) -> fmt::Result {
        match self {
            Verdict::Agree => write!(f, "agree"),
            Verdict::Differ => write!(f, "differ"),
            Verdict::Undecided => write!(f, "undecided"),
        }
    }
}

// Whether the two have come to one end, and left equal cells.
fn same_result(one: &Outcome, other: &Outcome) -> bool {
    one.standing.ended() == other.standing.ended() && one.cells == other.cells
}

/// The verdict on boards, of which the first is held against each other one.
pub fn verdict_on(outcomes: &[Outcome]) -> Verdict {
    let Some((first, others)) = outcomes.split_first() else {
        return Verdict::Agree;
    };
    if outcomes
        .iter()
        .any(|outcome| outcome.standing.ended().is_none())
    {
        Verdict::Undecided
    } else if others.iter().all(|other| same_result(first, other)) {
        Verdict::Agree
    } else {
        Verdict::Differ
    }
}
