// One board: it begins a run, and follows its plan turn by turn.
ghost use Rattle.std.specs.Prelude.{◌≡◌};
ghost use Rattle.stack.specs.Contents.{places};
ghost use Rattle.table.specs.Places.{table_of};
ghost use Rattle.transition.specs.Steps.{Keeps, configuration};
ghost use Rattle.runs.specs.Histories.{History};
ghost use Rattle.runs.specs.Promise.{Kept};
ghost use Rattle.machine.specs.States.{board_of, limit_of};
ghost use Rattle.history.specs.Turns.{unused, used, TakesTurn, TakesTurns};
ghost use Rattle.history.specs.Plans.{Calls, Follows, IfBegun};

use crate::turn::{Seen, Turn};
use machine::run::begin::begin;
use machine::run::go_on::go_on;
use machine::run::{BeginRefusal, Progress, Running, TurnedDown};
use store::store::Store;
use table::program::Program;
use transition::machine::Machine;

/// What became of a board: the run that it has come to, or why none was begun.
pub type Fate = Result<Progress, BeginRefusal>;

// One turn of a board that was begun. Once its run has ended, it has no use for a turn, and its limit
// no longer matters: the contract then says 0.
fn take_turn<S: Store>(
    progress: Progress,
    turn: &mut Turn,
    program: &Program<'_>,
    machine: &mut Machine<'_, '_, '_, S>,
) -> Progress
    ensures takes { TakesTurn (table_of program.now) (places machine.old.stacks.control) (places machine.old.stacks.results) (limit_of 0 progress) (board_of progress (configuration S.cells machine.old)) turn.old turn.new (board_of result (configuration S.cells machine.new)) }
    ensures limit { limit_of (limit_of 0 progress) result ≡ limit_of 0 progress }
    ensures keeps { Keeps S.rests machine.old machine.new }
{
    match progress {
        Progress::Ended(ended) => {
            turn.seen = Seen::Unused;
            Progress::Ended(ended)
        }
        Progress::Running(running) => {
            match go_on(running, program, machine, turn.slice) {
                Ok(Progress::Running(running)) => {
                    turn.seen = Seen::Running(running.count());
                    Progress::Running(running)
                }
                Ok(Progress::Ended(ended)) => {
                    turn.seen = Seen::Ended(ended);
                    Progress::Ended(ended)
                }
                Err(TurnedDown { running }) => {
                    turn.seen = Seen::TurnedDown;
                    Progress::Running(running)
                }
            }
        }
    }
}

// The turns of a board that was begun, the first one first.
fn take_turns<S: Store>(
    running: Running,
    turns: &mut [Turn],
    program: &Program<'_>,
    machine: &mut Machine<'_, '_, '_, S>,
) -> Progress
    ensures takes { TakesTurns (table_of program.now) (places machine.old.stacks.control) (places machine.old.stacks.results) running.limit (board_of (Progress.Running running) (configuration S.cells machine.old)) turns.old turns.new (board_of result (configuration S.cells machine.new)) }
    ensures limit { limit_of running.limit result ≡ running.limit }
    ensures keeps { Keeps S.rests machine.old machine.new }
{
    let mut progress = Progress::Running(running);
    for turn in turns.iter_mut() {
        progress = take_turn(progress, turn, program, machine);
    }
    progress
}

// No turn of a board that was not begun is taken.
fn pass_over(turns: &mut [Turn])
    ensures { turns.new ≡ unused turns.old }
{
    for turn in turns.iter_mut() {
        turn.seen = Seen::Unused;
    }
}

// The calls that following a plan makes, and what each of them answers. `follow` says what they come
// to.
fn carry_out<S: Store>(
    program: &Program<'_>,
    machine: &mut Machine<'_, '_, '_, S>,
    limit: u32,
    turns: &mut [Turn],
) -> Fate
    ensures calls { Calls (table_of program.now) (places machine.old.stacks.control) (places machine.old.stacks.results) limit (configuration S.cells machine.old) turns.old result turns.new (configuration S.cells machine.new) }
    ensures keeps { Keeps S.rests machine.old machine.new }
{
    match begin(program, &mut machine.stacks, &*machine.store, limit) {
        Err(no) => {
            pass_over(turns);
            Err(no)
        }
        Ok(running) => Ok(take_turns(running, turns, program, machine)),
    }
}

/// Begins a run of the program, and goes on with it by the slices of the turns, in their order.
///
/// Each turn says then what became of it. The turns after the end are not used, and where the run is
/// not begun, none is. A run that has not ended is handed back, so it cannot be let go unseen.
pub fn follow<S: Store>(
    program: &Program<'_>,
    machine: &mut Machine<'_, '_, '_, S>,
    limit: u32,
    turns: &mut [Turn],
) -> Fate
    ensures follows { Follows (table_of program.now) (places machine.old.stacks.control) (places machine.old.stacks.results) limit (configuration S.cells machine.old) turns.old result turns.new (configuration S.cells machine.new) }
    ensures keeps { Keeps S.rests machine.old machine.new }
    ensures history { IfBegun result (configuration S.cells machine.new) (History (table_of program.now) (places machine.old.stacks.control) (places machine.old.stacks.results) limit (S.cells machine.old.store.now) (used turns.new)) }
    ensures kept { IfBegun result (configuration S.cells machine.new) (Kept (table_of program.now) (S.cells machine.old.store.now) limit (used turns.new)) }
{
    carry_out(program, machine, limit, turns)
}
