// How a run ends.
ghost use Rattle.std.specs.Prelude.{◌≡◌};
ghost use Rattle.semantics.specs.Faults.{fault_at};
ghost use Rattle.runs.specs.declared.end.Stop.TheVariants.{Stuck, Fault as StoppedBy};
ghost use Rattle.runs.specs.Ends.{stop_fault, stop_number, stop_row, stop_location, end_stop, end_number, end_row, end_location};

use semantics::fault::{Cause, Fault};
use stack::stack::NoRoom;

/// Why a transition is not made.
// No `Option<Fault>`: it is the error of a Result, and `Err(None)` would not say that the run is stuck.
#[derive(Clone, Copy, PartialEq, Eq, Debug)]
pub enum Stop {
    /// No rule fits, or what the rule lays does not fit the stacks.
    Stuck,
    /// A rule fits, but a number stands against it.
    Fault(Fault),
}

impl From<NoRoom> for Stop {
    ghost from_gives = { λ _ r. r ≡ Stuck };

    fn from(_e: NoRoom) -> Stop {
        Stop::Stuck
    }
}

impl Stop {
    /// The fault of that row, for that cause.
    pub fn at(row: u32, cause: Cause) -> Stop
        ensures { result ≡ StoppedBy (fault_at row cause) }
    {
        Stop::Fault(Fault { row, cause })
    }

    /// The question's number, 12 to 18.
    pub fn number(self) -> u8
        ensures { result ≡ stop_number self }
    {
        self.fault().map_or(12, Fault::number)
    }

    /// The row of the fault, and 0 of a run that is stuck.
    pub fn row(self) -> u32
        ensures { result ≡ stop_row self }
    {
        self.fault().map_or(0, Fault::row)
    }

    /// The location of the store's refusal, and otherwise 0.
    pub fn location(self) -> u8
        ensures { result ≡ stop_location self }
    {
        self.fault().map_or(0, Fault::location)
    }

    fn fault(self) -> Option<Fault>
        ensures { result ≡ stop_fault self }
    {
        match self {
            Stop::Stuck => None,
            Stop::Fault(fault) => Some(fault),
        }
    }
}

/// How a run has ended.
#[derive(Clone, Copy, PartialEq, Eq, Debug)]
pub enum End {
    /// Both stacks are empty.
    Finished,
    /// The next transition was not made.
    Stopped(Stop),
    /// The count is at the limit.
    Limit,
}

impl End {
    /// The end's number: 0, 12 to 18, or 19.
    pub fn number(self) -> u8
        ensures { result ≡ end_number self }
    {
        match self {
            End::Finished => 0,
            End::Stopped(stop) => stop.number(),
            End::Limit => 19,
        }
    }

    /// The row of a fault, and otherwise 0.
    pub fn row(self) -> u32
        ensures { result ≡ end_row self }
    {
        self.stop().map_or(0, Stop::row)
    }

    /// The location of the store's refusal, and otherwise 0.
    pub fn location(self) -> u8
        ensures { result ≡ end_location self }
    {
        self.stop().map_or(0, Stop::location)
    }

    fn stop(self) -> Option<Stop>
        ensures { result ≡ end_stop self }
    {
        match self {
            End::Stopped(stop) => Some(stop),
            End::Finished | End::Limit => None,
        }
    }
}
