// The theorems, each on the contract of a function that does nothing.
ghost use Rattle.semantics.specs.Moves.{MachineIsDeterministic};
ghost use Rattle.semantics.specs.Agreement.{RulesAreDeterministic, RulesAndMachineAgree, EveryCountSettles, ProgramsRunWell};
ghost use Rattle.semantics.specs.Cuts.{CutsDoNotMatter};
ghost use Rattle.semantics.specs.Casebook.{RunsEndAsStated};
ghost use Rattle.semantics.specs.Simulation.{RowMachineIsSimp, SimpIsDeterministic};
ghost use Rattle.semantics.specs.WholeRuns.{WholeRunsAgree, RulesAndSimpAgree};

/// From any configuration one transition is made, or one fault stands against it, or no rule fits.
pub fn machine_is_deterministic()
    ensures { MachineIsDeterministic }
{}

/// A row has one outcome at most, at one cost.
pub fn rules_are_deterministic()
    ensures { RulesAreDeterministic }
{}

/// An outcome is derived at a cost exactly where that many transitions come to it, over any stacks.
pub fn rules_and_machine_agree()
    ensures { RulesAndMachineAgree }
{}

/// Within any number of transitions a row has an outcome, or after all of them it is still unfinished.
pub fn every_count_settles()
    ensures { EveryCountSettles }
{}

/// A program of a loaded table is never stuck, and its stacks stay within its needs.
pub fn programs_run_well()
    ensures { ProgramsRunWell }
{}

/// A program executes, or faults, at a cost exactly where that many transitions from begin lead to
/// empty stacks, or to a refusal.
pub fn whole_runs_agree()
    ensures { WholeRunsAgree }
{}

/// A run in slices leads where the sum of its slices leads.
pub fn cuts_do_not_matter()
    ensures { CutsDoNotMatter }
{}

/// The worked runs end as the casebook says, by the natural rules.
pub fn runs_end_as_stated()
    ensures { RunsEndAsStated }
{}

/// SIMP's own machine has one transition at most.
pub fn simp_is_deterministic()
    ensures { SimpIsDeterministic }
{}

/// A transition of the row machine, read, is SIMP's, and is made exactly where SIMP has one and no
/// number stands against it.
pub fn row_machine_is_simp()
    ensures { RowMachineIsSimp }
{}

/// A program executes at a cost where SIMP's machine finishes its tree in that many transitions, and
/// the other way round unless a fault comes first.
pub fn rules_and_simp_agree()
    ensures { RulesAndSimpAgree }
{}
