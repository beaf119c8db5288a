// Beginning a run.
ghost use Rattle.std.specs.Prelude.{◌≡◌, Some, None, MatchResult};
ghost use Rattle.stack.specs.Contents.{places};
ghost use Rattle.table.specs.Places.{table_of};
ghost use Rattle.transition.specs.Exchanges.{room, stacks as held};
ghost use Rattle.transition.specs.Steps.{over};
ghost use Rattle.machine.specs.Begins.{Begins, first_no};

use super::{BeginRefusal, Running};
use semantics::item::Control;
use store::store::Store;
use table::program::Program;
use transition::pair::StackPair;

/// The largest limit on transitions.
pub const LARGEST_LIMIT: u32 = 1_000_000_000;

// Puts the questions in their order, and stops at the first no.
fn ask(program: &Program<'_>, stacks: &StackPair<'_, '_>, limit: u32) -> Result<(), BeginRefusal>
    ensures { MatchResult result (λ _. first_no (table_of program.now) (places stacks.now.control) (places stacks.now.results) limit ≡ None) (λ e. first_no (table_of program.now) (places stacks.now.control) (places stacks.now.results) limit ≡ Some e) }
{
    let needs = program.needs();
    if limit == 0 || limit > LARGEST_LIMIT {
        Err(BeginRefusal::Limit)
    } else if stacks.control.places() < needs.control as usize {
        Err(BeginRefusal::ControlPlaces)
    } else if stacks.results.places() < needs.results as usize {
        Err(BeginRefusal::ResultsPlaces)
    } else {
        Ok(())
    }
}

/// Begins a run of the program over the store's cells: both stacks are emptied, and the control stack
/// gets the last row, whole. After a no nothing is changed.
#[tactic(auto, using(crate::specs::Begins::refuses))]
pub fn begin<S: Store>(
    program: &Program<'_>,
    stacks: &mut StackPair<'_, '_>,
    store: &S,
    limit: u32,
) -> Result<Running, BeginRefusal>
    ensures begins { Begins (table_of program.now) (places stacks.old.control) (places stacks.old.results) limit (over (S.cells store.now) (held stacks.old)) result (over (S.cells store.now) (held stacks.new)) }
    ensures places { room stacks.new ≡ room stacks.old }
{
    ask(program, stacks, limit)?;
    stacks.control.clear();
    stacks.results.clear();
    // There is room: a program needs one place at least, and that was asked.
    stacks
        .control
        .push(Control::Whole(program.last_row()))
        .unwrap();
    Ok(Running { count: 0, limit })
}
