// Two boards with one program and one limit.
ghost use Rattle.stack.specs.Contents.{places};
ghost use Rattle.table.specs.Places.{table_of};
ghost use Rattle.transition.specs.Steps.{Keeps, configuration};
ghost use Rattle.runs.specs.Histories.{History};
ghost use Rattle.runs.specs.Promise.{SameCells, Agree};
ghost use Rattle.history.specs.Turns.{used};
ghost use Rattle.history.specs.Plans.{Follows, IfBegun};

use crate::follow::{Fate, follow};
use crate::turn::Turn;
use store::store::Store;
use table::program::Program;
use transition::machine::Machine;

// One board after the other, with nothing in common but the program and the limit.
fn follow_both<A: Store, B: Store>(
    program: &Program<'_>,
    limit: u32,
    first: &mut Machine<'_, '_, '_, A>,
    turns1: &mut [Turn],
    second: &mut Machine<'_, '_, '_, B>,
    turns2: &mut [Turn],
) -> (Fate, Fate)
    ensures first { Follows (table_of program.now) (places first.old.stacks.control) (places first.old.stacks.results) limit (configuration A.Store.cells first.old) turns1.old result.0 turns1.new (configuration A.Store.cells first.new) }
    ensures second { Follows (table_of program.now) (places second.old.stacks.control) (places second.old.stacks.results) limit (configuration B.Store.cells second.old) turns2.old result.1 turns2.new (configuration B.Store.cells second.new) }
    ensures keeps { (Keeps A.Store.rests first.old first.new) × (Keeps B.Store.rests second.old second.new) }
    ensures histories { IfBegun result.0 (configuration A.Store.cells first.new) (History (table_of program.now) (places first.old.stacks.control) (places first.old.stacks.results) limit (A.Store.cells first.old.store.now) (used turns1.new)) × IfBegun result.1 (configuration B.Store.cells second.new) (History (table_of program.now) (places second.old.stacks.control) (places second.old.stacks.results) limit (B.Store.cells second.old.store.now) (used turns2.new)) }
{
    let fate1 = follow(program, first, limit, turns1);
    let fate2 = follow(program, second, limit, turns2);
    (fate1, fate2)
}

/// Two boards follow their plans, each by itself: neither sees the other's machine or turns.
///
/// Where both are begun, over the same cells, they keep to the natural rules and come to one end,
/// whatever their places, their makes of store and their plans.
pub fn two_boards<A: Store, B: Store>(
    program: &Program<'_>,
    limit: u32,
    first: &mut Machine<'_, '_, '_, A>,
    turns1: &mut [Turn],
    second: &mut Machine<'_, '_, '_, B>,
    turns2: &mut [Turn],
) -> (Fate, Fate)
    ensures first { Follows (table_of program.now) (places first.old.stacks.control) (places first.old.stacks.results) limit (configuration A.Store.cells first.old) turns1.old result.0 turns1.new (configuration A.Store.cells first.new) }
    ensures second { Follows (table_of program.now) (places second.old.stacks.control) (places second.old.stacks.results) limit (configuration B.Store.cells second.old) turns2.old result.1 turns2.new (configuration B.Store.cells second.new) }
    ensures keeps { (Keeps A.Store.rests first.old first.new) × (Keeps B.Store.rests second.old second.new) }
    ensures agree { SameCells (A.Store.cells first.old.store.now) (B.Store.cells second.old.store.now) → IfBegun result.0 (configuration A.Store.cells first.new) (λ b. IfBegun result.1 (configuration B.Store.cells second.new) (Agree (table_of program.now) limit (A.Store.cells first.old.store.now) (B.Store.cells second.old.store.now) (used turns1.new) (used turns2.new) b)) }
{
    follow_both(program, limit, first, turns1, second, turns2)
}
