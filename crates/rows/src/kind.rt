// The kinds of rows.
ghost use Rattle.std.specs.Prelude.{◌≡◌};
ghost use Rattle.std.specs.Result.{result_ok};
ghost use Rattle.rows.specs.Rows.{kind_of};

use crate::unspelt::Unspelt;

/// What the first word of a row says: how its other three words are to be read.
#[derive(Clone, Copy, PartialEq, Eq, Debug)]
pub enum Kind {
    Number,
    Contents,
    Arithmetic,
    Truth,
    Comparison,
    Not,
    And,
    Skip,
    Assignment,
    Sequence,
    Choice,
    Loop,
}

impl TryFrom<u32> for Kind {
    type Error = Unspelt;

    ghost try_from_gives = { λ n r. result_ok r ≡ kind_of n };

    fn try_from(number: u32) -> Result<Self, Unspelt> {
        match number {
            0 => Ok(Kind::Number),
            1 => Ok(Kind::Contents),
            2 => Ok(Kind::Arithmetic),
            3 => Ok(Kind::Truth),
            4 => Ok(Kind::Comparison),
            5 => Ok(Kind::Not),
            6 => Ok(Kind::And),
            7 => Ok(Kind::Skip),
            8 => Ok(Kind::Assignment),
            9 => Ok(Kind::Sequence),
            10 => Ok(Kind::Choice),
            11 => Ok(Kind::Loop),
            _ => Err(Unspelt),
        }
    }
}
