// What operators and relations make of two numbers.
ghost use Rattle.std.specs.Prelude.{◌≡◌};
ghost use Rattle.semantics.specs.Arithmetic.{computed, compared, arithmetic_number};

use rows::row::{Operator, Relation};

/// Why an operator has no outcome.
#[derive(Clone, Copy, PartialEq, Eq, Debug)]
pub enum ArithmeticFault {
    /// The divisor is 0.
    ZeroDivisor,
    /// The exact outcome is no number of 32 bits.
    OutOfRange,
}

impl ArithmeticFault {
    /// The question's number, 17 or 18.
    pub fn number(self) -> u8
        ensures { result ≡ arithmetic_number self }
    {
        match self {
            ArithmeticFault::ZeroDivisor => 17,
            ArithmeticFault::OutOfRange => 18,
        }
    }
}

/// What the operator makes of a left and a right number.
pub fn compute(operator: Operator, x: i32, y: i32) -> Result<i32, ArithmeticFault>
    ensures { result ≡ computed operator x y }
{
    let outcome = match operator {
        Operator::Plus => x.checked_add(y),
        Operator::Minus => x.checked_sub(y),
        Operator::Times => x.checked_mul(y),
        Operator::Over if y == 0 => return Err(ArithmeticFault::ZeroDivisor),
        Operator::Over => x.checked_div(y),
    };
    outcome.ok_or(ArithmeticFault::OutOfRange)
}

/// Whether the left and the right number stand in the relation.
pub fn compare(relation: Relation, x: i32, y: i32) -> bool
    ensures { result ≡ compared relation x y }
{
    match relation {
        Relation::Greater => x > y,
        Relation::Less => x < y,
        Relation::Equal => x == y,
    }
}
