// Going on with a run, for a slice of transitions.
ghost use Rattle.std.specs.Prelude.{◌≡◌};
ghost use Rattle.rows.specs.Rows.{row_at};
ghost use Rattle.stack.specs.Contents.{contents, places};
ghost use Rattle.table.specs.Places.{table_of};
ghost use Rattle.transition.specs.Steps.{Keeps, configuration};
ghost use Rattle.runs.specs.Slices.{Serves, GoesOn};
ghost use Rattle.runs.specs.Promise.{AgreesOnward};
ghost use Rattle.runs.specs.Simp.{SimpOnward};
ghost use Rattle.machine.specs.States.{board_of, board_after, limit_of};
ghost use Rattle.machine.specs.Goings.{Answered, none_left, seen};

use super::{Ended, Progress, Running, TurnedDown};
use runs::end::End;
use store::store::Store;
use table::program::Program;
use transition::machine::Machine;
use transition::pair::StackPair;

/// The largest slice.
pub const LARGEST_SLICE: u32 = 1_000_000;

// Both stacks are empty.
fn finished(stacks: &StackPair<'_, '_>) -> bool
    ensures { result ≡ none_left (contents stacks.now.control) (contents stacks.now.results) }
{
    stacks.control.view().is_empty() && stacks.results.view().is_empty()
}

// The look before a transition: how the run ends in place of it, if it does.
fn look(stacks: &StackPair<'_, '_>, made: u32, limit: u32) -> Option<End>
    ensures { result ≡ seen (none_left (contents stacks.now.control) (contents stacks.now.results)) made limit }
{
    if finished(stacks) {
        Some(End::Finished)
    } else if made >= limit {
        Some(End::Limit)
    } else {
        None
    }
}

// At most `slice` transitions more, with the looks before each of them and after the last.
fn serve<S: Store>(
    running: Running,
    program: &Program<'_>,
    machine: &mut Machine<'_, '_, '_, S>,
    slice: u32,
) -> Progress
    ensures serves { Serves (row_at (table_of program.now)) (places machine.old.stacks.control) (places machine.old.stacks.results) running.limit slice running.count (configuration S.cells machine.old) (board_of result (configuration S.cells machine.new)) }
    ensures limit { limit_of running.limit result ≡ running.limit }
    ensures keeps { Keeps S.rests machine.old machine.new }
{
    let Running { count, limit } = running;
    // Counted here and not by the range: it begins anywhere, and the sum with the slice need not fit.
    let mut made = count;
    for _ in 0..slice {
        if let Some(end) = look(&machine.stacks, made, limit) {
            return Progress::Ended(Ended { end, count: made });
        }
        if let Err(stop) = machine.step(program) {
            return Progress::Ended(Ended {
                end: End::Stopped(stop),
                count: made,
            });
        }
        made += 1;
    }
    match look(&machine.stacks, made, limit) {
        Some(end) => Progress::Ended(Ended { end, count: made }),
        None => Progress::Running(Running { count: made, limit }),
    }
}

/// Goes on with a run for at most `slice` transitions, or turns the slice down and gives the run back.
///
/// It looks whether both stacks are empty, whether the count is at the limit, and whether the slice is
/// used up: before every transition, and once more at the end.
pub fn go_on<S: Store>(
    running: Running,
    program: &Program<'_>,
    machine: &mut Machine<'_, '_, '_, S>,
    slice: u32,
) -> Result<Progress, TurnedDown>
    ensures goes { GoesOn (row_at (table_of program.now)) (places machine.old.stacks.control) (places machine.old.stacks.results) running.limit slice running.count (configuration S.cells machine.old) (board_after result (configuration S.cells machine.new)) }
    ensures answers { Answered running slice result }
    ensures keeps { Keeps S.rests machine.old machine.new }
    ensures agrees { AgreesOnward (table_of program.now) (places machine.old.stacks.control) (places machine.old.stacks.results) running.limit slice running.count (configuration S.cells machine.old) (board_after result (configuration S.cells machine.new)) }
    ensures simp { SimpOnward (table_of program.now) running.count (configuration S.cells machine.old) (board_after result (configuration S.cells machine.new)) }
{
    if slice > LARGEST_SLICE {
        return Err(TurnedDown { running });
    }
    Ok(serve(running, program, machine, slice))
}
