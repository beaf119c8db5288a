// How many places a run needs on the two stacks.
ghost use Rattle.std.specs.Prelude.{◌≡◌, ℕ, ◌+◌, ◌<◌, ◌≤◌, Some, max, length};
ghost use Rattle.rows.specs.Parts.{EachPart};
ghost use Rattle.loading.specs.Stacks.{needed};
ghost use Rattle.loading.specs.Surveys.{known_of};
ghost use Rattle.loading.specs.Texts.{text_of_needs};

use crate::small::SmallNeeds;
use rows::row::Row;
use std::fmt;

/// The places that a row's run needs at most: on the control stack and on the results stack.
#[derive(Clone, Copy, PartialEq, Eq, Debug, Default)]
pub struct Needs {
    pub control: u16,
    pub results: u16,
}

impl Needs {
    // What meets both needs.
    fn max(self, other: Needs) -> Needs
        ensures control { result.control ≡ max self.control other.control }
        ensures results { result.results ≡ max self.results other.results }
    {
        Needs {
            control: self.control.max(other.control),
            results: self.results.max(other.results),
        }
    }
}

impl fmt::Display for Needs {
    ghost output = { λ n. Some (text_of_needs n) };

    fn fmt<W: fmt::Write>(&self, f: &mut fmt::Formatter<W>) -> fmt::Result {
        let Needs { control, results } = *self;
        write!(f, "control {control} results {results}")
    }
}

// What the row needs, where `known` has the needs of the rows that it names.
//
// An operator's left operand is worked out above the right one and the operator, the right one above the
// operator and beside the left one's value. A sequence's first command is worked out above the second, which
// then takes its place. A condition is worked out beside two rows, of which one then takes the choice's place;
// a loop's body is worked out above the loop itself.
pub(crate) fn needs_of(row: Row, known: &[SmallNeeds]) -> Needs
    requires { EachPart (λ _ x. x < length known.now) row }
    ensures { result ≡ needed (known_of known.now) row }
{
    let part = |x: u32| known[x as usize];
    match row {
        Row::Number(_) | Row::Contents(_) | Row::Truth(_) => Needs {
            control: 1,
            results: 1,
        },
        Row::Arithmetic(_, x, y) | Row::Comparison(_, x, y) | Row::And(x, y) => {
            part(x).above(2, 0).max(part(y).above(1, 1))
        }
        Row::Not(x) => part(x).above(1, 0),
        Row::Skip => Needs {
            control: 1,
            results: 0,
        },
        Row::Assignment(_, x) => part(x).above(1, 1),
        Row::Sequence(x, y) => part(x).above(1, 0).max(part(y).needs()),
        Row::Choice(b, x, y) => {
            part(b)
                .above(1, 2)
                .max(part(x).needs())
                .max(part(y).needs())
        }
        Row::Loop(b, x) => part(b).above(1, 2).max(part(x).above(1, 0)),
    }
}
