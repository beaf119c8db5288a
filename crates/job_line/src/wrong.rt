// What can be wrong with a job.
ghost use Rattle.std.specs.Prelude.{◌≡◌, Some};
ghost use Rattle.job_line.specs.declared.wrong.Wrong.TheVariants.{Memory};
ghost use Rattle.job_line.specs.Messages.{words_of};

use std::alloc::{AllocError, AllocFailed};
use std::fmt;

/// What is wrong with a line of a job, or with the job at that line.
#[derive(Clone, Copy, PartialEq, Eq, Debug)]
pub enum Wrong {
    /// A byte outside of comments that no field can have.
    BadByte,
    /// The line's first word is none that a line begins with.
    UnknownWord,
    Missing,
    TooMany,
    /// A field is no unsigned 32-bit number.
    NotWord,
    NotLocation,
    /// A limit of a cell is no signed 32-bit number.
    NotSigned,
    NotMark,
    NotContent,
    SecondLimit,
    /// The location of the cell has a cell already.
    SecondCell,
    LimitsCross,
    OutsideLimits,
    UnknownMake,
    BadParameters,
    TooManyPlaces,
    /// The job has a cell that a pair list cannot hold.
    UnfitForPairs,
    NoLimit,
    NoBoard,
    /// There was no memory for what the line says.
    Memory,
}

// By hand, and one for each: contracts name the case that `?` makes, and the two errors have nothing in common.
impl From<AllocError> for Wrong {
    ghost from_gives = { λ _ r. r ≡ Memory };

    fn from(_e: AllocError) -> Wrong {
        Wrong::Memory
    }
}

impl<T: Drop> From<AllocFailed<T>> for Wrong {
    ghost from_gives = { λ _ r. r ≡ Memory };

    fn from(_e: AllocFailed<T>) -> Wrong {
        Wrong::Memory
    }
}

impl Wrong {
    /// What is wrong, in words that need no memory.
    pub fn words(self) -> &'static str
        ensures { result.now ≡ words_of self }
    {
        match self {
            Wrong::BadByte => "a byte is neither printable ASCII nor blank",
            Wrong::UnknownWord => "the first word is none of limit, table, cell and board",
            Wrong::Missing => "a field is missing",
            Wrong::TooMany => "there is a field too many",
            Wrong::NotWord => "a field is no number from 0 to 4294967295",
            Wrong::NotLocation => "the location is no number from 0 to 255",
            Wrong::NotSigned => "a limit is no number from -2147483648 to 2147483647",
            Wrong::NotMark => "the mark is neither free nor fixed",
            Wrong::NotContent =>
                "the content is neither unset nor a number from -2147483648 to 2147483647",
            Wrong::SecondLimit => "this is the second limit",
            Wrong::SecondCell => "this is the second cell of its location",
            Wrong::LimitsCross => "the lowest number exceeds the highest",
            Wrong::OutsideLimits => "the content lies outside the limits",
            Wrong::UnknownMake => "the make is none of sheet, cover, neighbours and pairs",
            Wrong::BadParameters => "the make has other parameters",
            Wrong::TooManyPlaces => "a stack has more than 1000000 places",
            Wrong::UnfitForPairs =>
                "pairs hold only cells that are free, set and of the widest limits",
            Wrong::NoLimit => "there is no limit line",
            Wrong::NoBoard => "there is no board line",
            Wrong::Memory => "out of memory",
        }
    }
}

impl fmt::Display for Wrong {
    ghost output = { λ e. Some (words_of e) };

    fn fmt<W: fmt::Write>(&self, f: &mut fmt::Formatter<W>) -> fmt::Result {
        f.write_str(self.words())
    }
}
