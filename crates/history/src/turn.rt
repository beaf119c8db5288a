// The turns of a plan, and what becomes of each.
use machine::run::Ended;

/// One go-on of a plan: the slice that is asked for, and what became of it.
#[derive(Clone, Copy, PartialEq, Eq, Debug)]
pub struct Turn {
    pub slice: u32,
    pub seen: Seen,
}

/// What became of a turn.
#[derive(Clone, Copy, PartialEq, Eq, Debug)]
pub enum Seen {
    /// It was not taken: the run had ended, or was never begun.
    Unused,
    /// The slice is past the largest, and the run stayed as it was.
    TurnedDown,
    /// The slice was served, and the run has made so many transitions.
    Running(u32),
    /// The run ended within the slice.
    Ended(Ended),
}
