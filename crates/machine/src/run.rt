// The states of a run, and what the calls answer.
ghost use Rattle.std.specs.Prelude.{◌≡◌};
ghost use Rattle.machine.specs.States.{refusal_number};
ghost use Rattle.runs.specs.Ends.{end_number, end_row, end_location};

use runs::end::End;

pub mod begin;
pub mod go_on;

/// A run that has not ended: how many transitions it has made, and how many it may make.
///
/// It is moved into `go_on`, which answers the next one. It can be neither copied nor made up, and a
/// run that is not gone on with has to be given up by name.
pub struct Running {
    count: u32,
    limit: u32,
}

impl Running {
    /// How many transitions the run has made.
    pub fn count(&self) -> u32
        ensures { result ≡ self.now.count }
    {
        let Running { count, limit: _ } = self;
        *count
    }

    /// How many transitions the run may make.
    pub fn limit(&self) -> u32
        ensures { result ≡ self.now.limit }
    {
        self.limit
    }

    /// Gives the run up, and answers how many transitions it has made.
    pub fn give_up(self) -> u32
        ensures { result ≡ self.count }
    {
        let Running { count, limit: _ } = self;
        count
    }
}

/// A run that has ended. It cannot be gone on with: begin a new one.
#[derive(Clone, Copy, PartialEq, Eq, Debug)]
pub struct Ended {
    end: End,
    count: u32,
}

impl Ended {
    /// How it ended, with the fault whole where there is one.
    pub fn end(self) -> End
        ensures { result ≡ self.end }
    {
        let Ended { end, count: _ } = self;
        end
    }

    /// The end's number: 0, 12 to 18, or 19.
    pub fn number(self) -> u8
        ensures { result ≡ end_number self.end }
    {
        self.end.number()
    }

    /// The row of a fault, and otherwise 0.
    pub fn row(self) -> u32
        ensures { result ≡ end_row self.end }
    {
        self.end.row()
    }

    /// The location of the store's refusal, and otherwise 0.
    pub fn location(self) -> u8
        ensures { result ≡ end_location self.end }
    {
        self.end.location()
    }

    /// How many transitions were made. One that was not made is not counted.
    pub fn count(self) -> u32
        ensures { result ≡ self.count }
    {
        self.count
    }
}

/// What a slice that was served has come to.
// No `Result`: a run that has ended has not failed, and neither state is the other's error.
pub enum Progress {
    Running(Running),
    Ended(Ended),
}

/// A slice past the largest is turned down, and the run comes back as it was.
pub struct TurnedDown {
    pub running: Running,
}

impl TurnedDown {
    /// The question's number.
    pub fn number(&self) -> u8
        ensures { result ≡ 11 }
    {
        11
    }
}

/// Why a run is not begun.
#[derive(Clone, Copy, PartialEq, Eq, Debug)]
pub enum BeginRefusal {
    /// The limit is not from 1 to 1,000,000,000.
    Limit,
    /// The control stack has fewer places than the program needs.
    ControlPlaces,
    /// The results stack has fewer places than the program needs.
    ResultsPlaces,
}

impl BeginRefusal {
    /// The question's number, 8 to 10.
    pub fn number(self) -> u8
        ensures { result ≡ refusal_number self }
    {
        match self {
            BeginRefusal::Limit => 8,
            BeginRefusal::ControlPlaces => 9,
            BeginRefusal::ResultsPlaces => 10,
        }
    }
}
