// A row of a rule table, decoded, and its sort.
ghost use Rattle.std.specs.Prelude.{◌≡◌};
ghost use Rattle.std.specs.Result.{result_ok};
ghost use Rattle.rows.specs.Rows.{sort_of, operator_of, relation_of, truth_of, decoded, row_at};

use crate::kind::Kind;
use crate::unspelt::Unspelt;
use crate::words::{Words, words_at};

/// What a row comes to: a number, a truth value, or new cells.
#[derive(Clone, Copy, PartialEq, Eq, Debug)]
pub enum Sort {
    Integer,
    Boolean,
    Command,
}

/// The operators of an arithmetic row.
#[derive(Clone, Copy, PartialEq, Eq, Debug)]
pub enum Operator {
    Plus,
    Minus,
    Times,
    Over,
}

/// The relations of a comparison row.
#[derive(Clone, Copy, PartialEq, Eq, Debug)]
pub enum Relation {
    Greater,
    Less,
    Equal,
}

/// A decoded row, a case for each kind. A part is given by the number of its row.
#[derive(Clone, Copy, PartialEq, Eq, Debug)]
pub enum Row {
    /// A number.
    Number(i32),
    /// What the cell at that location holds.
    Contents(u8),
    /// The operator with its left and its right operand.
    Arithmetic(Operator, u32, u32),
    /// A truth value.
    Truth(bool),
    /// The relation with its left and its right operand.
    Comparison(Relation, u32, u32),
    /// The operand turned round.
    Not(u32),
    /// Both operands.
    And(u32, u32),
    /// The command that does nothing.
    Skip,
    /// The operand's number put at that location.
    Assignment(u8, u32),
    /// The first command, then the second.
    Sequence(u32, u32),
    /// The condition, the command for true and the command for false.
    Choice(u32, u32, u32),
    /// The condition and the body.
    Loop(u32, u32),
}

impl Row {
    /// What the row comes to.
    pub fn sort(self) -> Sort
        ensures { result ≡ sort_of self }
    {
        match self {
            Row::Number(_) | Row::Contents(_) | Row::Arithmetic(..) => Sort::Integer,
            Row::Truth(_) | Row::Comparison(..) | Row::Not(_) | Row::And(..) => Sort::Boolean,
            Row::Skip | Row::Assignment(..) | Row::Sequence(..) | Row::Choice(..) | Row::Loop(..) =>
                Sort::Command,
        }
    }
}

impl TryFrom<u32> for Operator {
    type Error = Unspelt;

    ghost try_from_gives = { λ n r. result_ok r ≡ operator_of n };

    fn try_from(number: u32) -> Result<Self, Unspelt> {
        match number {
            0 => Ok(Operator::Plus),
            1 => Ok(Operator::Minus),
            2 => Ok(Operator::Times),
            3 => Ok(Operator::Over),
            _ => Err(Unspelt),
        }
    }
}

impl TryFrom<u32> for Relation {
    type Error = Unspelt;

    ghost try_from_gives = { λ n r. result_ok r ≡ relation_of n };

    fn try_from(number: u32) -> Result<Self, Unspelt> {
        match number {
            0 => Ok(Relation::Greater),
            1 => Ok(Relation::Less),
            2 => Ok(Relation::Equal),
            _ => Err(Unspelt),
        }
    }
}

// The truth value of that number. An `impl TryFrom<u32> for bool` can stand only where one of the two is declared.
fn truth_of(number: u32) -> Result<bool, Unspelt>
    ensures { result_ok result ≡ truth_of number }
{
    match number {
        0 => Ok(false),
        1 => Ok(true),
        _ => Err(Unspelt),
    }
}

impl TryFrom<Words> for Row {
    type Error = Unspelt;

    ghost try_from_gives = { λ w r. result_ok r ≡ decoded w };

    fn try_from(words: Words) -> Result<Self, Unspelt> {
        let Words { kind, a, b, c } = words;
        Ok(match Kind::try_from(kind)? {
            Kind::Number => Row::Number(a.cast_signed()),
            Kind::Contents => Row::Contents(u8::try_from(a)?),
            Kind::Arithmetic => Row::Arithmetic(Operator::try_from(a)?, b, c),
            Kind::Truth => Row::Truth(truth_of(a)?),
            Kind::Comparison => Row::Comparison(Relation::try_from(a)?, b, c),
            Kind::Not => Row::Not(a),
            Kind::And => Row::And(a, b),
            Kind::Skip => Row::Skip,
            Kind::Assignment => Row::Assignment(u8::try_from(a)?, b),
            Kind::Sequence => Row::Sequence(a, b),
            Kind::Choice => Row::Choice(a, b, c),
            Kind::Loop => Row::Loop(a, b),
        })
    }
}

/// The row `p` of the table, where it has one and its words spell one.
pub fn row_at(table: &[u32], p: u32) -> Option<Row>
    ensures { result ≡ row_at table.now p }
{
    Row::try_from(words_at(table, p)?).ok()
}
