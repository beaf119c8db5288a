// A whole run on a board: load, begin, and go on once.
ghost use Rattle.std.specs.Prelude.{◌≡◌, length};
ghost use Rattle.stack.specs.Contents.{places};
ghost use Rattle.table.specs.Places.{table_of};
ghost use Rattle.transition.specs.Steps.{Keeps};
ghost use Rattle.semantics.specs.Worked.{Case, Worked};
ghost use Rattle.worked.specs.Claimed.{ClaimedAnswer, Poses};
ghost use Rattle.worked.specs.Outcomes.{Tells, ComesTo};

use machine::run::begin::begin;
use machine::run::go_on::{LARGEST_SLICE, go_on};
use machine::run::{Ended, Progress, TurnedDown};
use semantics::item::{Control, Item};
use store::store::Store;
use table::program::Program;
use transition::machine::Machine;

// Begins, and goes on for one slice of the largest length. None where begin refuses, or where the
// run is not over after the slice.
fn whole_run<S: Store>(
    program: &Program<'_>,
    machine: &mut Machine<'_, '_, '_, S>,
    limit: u32,
) -> Option<Ended>
    ensures tells { Tells (table_of program.now) (places machine.old.stacks.control) (places machine.old.stacks.results) limit (S.cells machine.old.store.now) (S.cells machine.new.store.now) result }
    ensures keeps { Keeps S.rests machine.old machine.new }
{
    let running = begin(program, &mut machine.stacks, &*machine.store, limit).ok()?;
    match go_on(running, program, machine, LARGEST_SLICE) {
        Ok(Progress::Ended(ended)) => Some(ended),
        Ok(Progress::Running(running)) => {
            running.give_up();
            None
        }
        Err(TurnedDown { running }) => {
            running.give_up();
            None
        }
    }
}

// The run of `outcome`, on stacks of just so many places as loading the table answers.
fn run_on_needs<S: Store>(
    words: &[u32],
    store: &mut S,
    limit: u32,
    control: &mut [Control],
    results: &mut [Item],
) -> Option<Ended>
    ensures comes { ComesTo words.now (length control.old) (length results.old) limit (S.cells store.old) (S.cells store.new) result }
    ensures keeps { S.rests store.new ≡ S.rests store.old }
{
    let mut program = Program::new();
    let needs = program.load(words).ok()?;
    let control = control.get_mut(..needs.control as usize)?;
    let results = results.get_mut(..needs.results as usize)?;
    let mut machine = Machine::new(control, results, store);
    let ended = whole_run(&program, &mut machine, limit);
    // Taken apart by name, the machine gives the store back, and with it what the run left there.
    let Machine { stacks: _, store } = machine;
    let _ = store;
    ended
}

/// Runs the table over the store's cells, on stacks of as many places as loading it answers, and says
/// how the run ended.
///
/// None where the table is refused, where fewer places are lent, where begin refuses, or where the run
/// is not over after a slice of the largest length.
pub fn outcome<S: Store>(
    words: &[u32],
    store: &mut S,
    limit: u32,
    control: &mut [Control],
    results: &mut [Item],
) -> Option<Ended>
    ensures comes { ComesTo words.now (length control.old) (length results.old) limit (S.cells store.old) (S.cells store.new) result }
    ensures claimed { (c : Case) → Worked c → Poses c words.now (length control.old) (length results.old) limit (S.cells store.old) → ClaimedAnswer c (S.cells store.new) result }
    ensures keeps { S.rests store.new ≡ S.rests store.old }
{
    run_on_needs(words, store, limit, control, results)
}
