// A board's frame timer in small: what a caller of the machine writes, and what he cannot write.
#![tactic(auto)]

ghost use Rattle.std.specs.Prelude.{◌≡◌};
ghost use Rattle.semantics.specs.Machine.{conf};
ghost use Rattle.stack.specs.Contents.{contents, places};
ghost use Rattle.table.specs.Places.{table_of};
ghost use Rattle.transition.specs.Steps.{Keeps, configuration};
ghost use Rattle.machine.specs.States.{board_after};
ghost use Rattle.caller.specs.Frames.{Frames};

use machine::run::go_on::go_on;
use machine::run::{Progress, Running, TurnedDown};
use semantics::item::{Control, Item};
use stack::stack::Stack;
use store::store::Store;
use table::program::Program;
use transition::machine::Machine;
use transition::pair::StackPair;

/// Goes on with a run for two frames. The state that the first gives is the one that the second takes.
pub fn two_frames<S: Store>(
    running: Running,
    program: &Program<'_>,
    machine: &mut Machine<'_, '_, '_, S>,
    slice: u32,
) -> Result<Progress, TurnedDown>
    ensures frames { Frames (table_of program.now) (places machine.old.stacks.control) (places machine.old.stacks.results) running.limit slice running.count (configuration S.cells machine.old) (board_after result (configuration S.cells machine.new)) }
    ensures keeps { Keeps S.rests machine.old machine.new }
{
    match go_on(running, program, machine, slice)? {
        Progress::Ended(ended) => Ok(Progress::Ended(ended)),
        Progress::Running(next) => go_on(next, program, machine, slice),
    }
}

/// The same where the stacks are only on loan, each for a time of its own: they go into the machine and come back.
pub fn two_frames_on_loan<S: Store>(
    running: Running,
    program: &Program<'_>,
    control: &mut Stack<'_, Control>,
    results: &mut Stack<'_, Item>,
    store: &mut S,
    slice: u32,
) -> Result<Progress, TurnedDown>
    ensures frames { Frames (table_of program.now) (places control.old) (places results.old) running.limit slice running.count (conf (contents control.old) (contents results.old) (S.cells store.old)) (board_after result (conf (contents control.new) (contents results.new) (S.cells store.new))) }
    ensures places { (places control.new ≡ places control.old) × (places results.new ≡ places results.old) }
    ensures keeps { S.rests store.new ≡ S.rests store.old }
{
    let stacks = StackPair::of_loans(control, results);
    let mut machine = Machine { stacks, store };
    let answer = two_frames(running, program, &mut machine, slice);
    // Taken apart by name, the machine gives the loans back, and with them what the run left there.
    let Machine {
        stacks,
        store: lent,
    } = machine;
    let _ = lent;
    stacks.hand_back(control, results);
    answer
}
