// What each case is run on.
ghost use Rattle.std.specs.Prelude.{◌≡◌};
ghost use Rattle.semantics.specs.Worked.{Case, Worked};
ghost use Rattle.worked.specs.Claimed.{EndsAsClaimed};
ghost use Rattle.worked.specs.Setups.{case_of, SetUp, SetsUp, FitsBoard};

use crate::outcome::outcome;
use crate::start::{Holding, records_with};
use crate::tables;
use machine::run::Ended;
use semantics::item::{Control, Item};
use sheet::sheet::Sheet;

// The places that are lent to each stack. No case needs more.
const PLACES: usize = 8;

// The limit of most cases.
const LIMIT: u32 = 1_000_000;

// Cell 1 holds 4.
const FOUR: [Holding; 1] = [Holding {
    location: 1,
    number: 4,
}];

// Cell 1 holds 13.
const THIRTEEN: [Holding; 1] = [Holding {
    location: 1,
    number: 13,
}];

// Cells 1 and 2 hold 2 and 4, and cell 3 holds 0.
const TWO_AND_FOUR: [Holding; 3] = [
    Holding {
        location: 1,
        number: 2,
    },
    Holding {
        location: 2,
        number: 4,
    },
    Holding {
        location: 3,
        number: 0,
    },
];

/// A case's table, the cells that hold a number at its start, and its limit.
#[derive(Clone, Copy)]
pub struct Setup {
    words: &'static [u32],
    start: &'static [Holding],
    limit: u32,
}

impl Setup {
    // With the limit of most cases.
    fn new(words: &'static [u32], start: &'static [Holding]) -> Setup
        ensures words { result.words.now ≡ words.now }
        ensures start { result.start.now ≡ start.now }
        ensures limit { result.limit ≡ 1000000 }
    {
        Setup {
            words,
            start,
            limit: LIMIT,
        }
    }

    // The same with another limit.
    fn limited(self, limit: u32) -> Setup
        ensures words { result.words.now ≡ self.words.now }
        ensures start { result.start.now ≡ self.start.now }
        ensures limit { result.limit ≡ limit }
    {
        Setup { limit, ..self }
    }

    /// The case with that number, from 1 to 12.
    // A number and no enum: it is what the casebook prints for the case.
    pub fn numbered(number: u8) -> Option<Setup>
        ensures { SetUp (case_of number) result }
    {
        match number {
            1 => Some(Setup::new(tables::SKIP, &[])),
            2 => Some(Setup::new(tables::PUT_SEVEN, &[])),
            3 => Some(Setup::new(tables::ONE_OVER_ZERO, &[])),
            4 => Some(Setup::new(tables::COPY_NINE, &[])),
            5 => Some(Setup::new(tables::ENDLESS, &[]).limited(100)),
            6 => Some(Setup::new(tables::FALSE_AND_FAULT, &[])),
            7 => Some(Setup::new(tables::FACTORIAL, &FOUR)),
            8 => Some(Setup::new(tables::FACTORIAL, &THIRTEEN)),
            9 => Some(Setup::new(tables::EXCHANGE, &TWO_AND_FOUR)),
            10 => Some(Setup::new(tables::LOWEST_OVER_MINUS_ONE, &[])),
            11 => Some(Setup::new(tables::MINUS_SEVEN_OVER_TWO, &[])),
            12 => Some(Setup::new(tables::PUT_SEVEN, &[]).limited(2)),
            _ => None,
        }
    }

    /// Runs the case on a board of its own: a sheet of 256 cells, and two stacks of as many places as
    /// loading the table answers.
    pub fn run(self) -> Option<Ended>
        ensures { (c : Case) → Worked c → SetsUp c self → FitsBoard c → EndsAsClaimed c result }
    {
        let mut records = records_with(self.start);
        let mut sheet = Sheet::new(&mut records);
        let mut control = [Control::Whole(0); PLACES];
        let mut results = [Item::Number(0); PLACES];
        outcome(
            self.words,
            &mut sheet,
            self.limit,
            &mut control,
            &mut results,
        )
    }
}
