// The theorems, each on the contract of a function that does nothing.
ghost use Rattle.runs.specs.Slices.{OneAnswer};
ghost use Rattle.runs.specs.Promise.{BoardsAgree};

/// A transition that is tried, a slice that is served and a go-on come to one thing at most.
pub fn one_answer()
    ensures { OneAnswer }
{}

/// Two boards that begin with one table, one limit and equal cells keep to the natural rules and come
/// to one end, whatever their stacks, their stores and their slices.
pub fn boards_agree()
    ensures { BoardsAgree }
{}
