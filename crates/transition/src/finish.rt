// What is left of a row once its parts have their values.
ghost use Rattle.std.specs.Prelude.{◌≡◌, ◌≤◌, length};
ghost use Rattle.stack.specs.Contents.{contents};
ghost use Rattle.transition.specs.Exchanges.{Moved, stacks, room, arithmetic_of, comparison_of, choice_of, loop_of, finish_of};
ghost use Rattle.transition.specs.Steps.{Stepped, assignment_of, target_of, finish_all_of};

use crate::found::{decided, number_for, topmost, topmost_two};
use crate::machine::Machine;
use crate::pair::StackPair;
use rows::row::{Operator, Relation, Row};
use runs::end::Stop;
use semantics::arithmetic::{compare, compute};
use semantics::fault::Cause;
use semantics::item::{Control, Item};
use store::store::Store;

impl StackPair<'_, '_> {
    fn arithmetic(&mut self, p: u32, operator: Operator) -> Result<(), Stop>
        ensures { Moved (λ k. arithmetic_of k p operator) self.old self.new result }
    {
        let (y, x) = topmost_two::<i32>(self.results.view()).ok_or(Stop::Stuck)?;
        let n = compute(operator, x, y).map_err(|fault| Stop::at(p, Cause::from(fault)))?;
        self.exchange(&[], 2, &[Item::Number(n)])
    }

    fn comparison(&mut self, relation: Relation) -> Result<(), Stop>
        ensures { Moved (λ k. comparison_of k relation) self.old self.new result }
    {
        let (y, x) = topmost_two::<i32>(self.results.view()).ok_or(Stop::Stuck)?;
        self.exchange(&[], 2, &[Item::Truth(compare(relation, x, y))])
    }

    fn choice(&mut self, x: u32, y: u32) -> Result<(), Stop>
        ensures { Moved (λ k. choice_of k x y) self.old self.new result }
    {
        let chosen = if decided(x, y, self.results.view()).ok_or(Stop::Stuck)? {
            x
        } else {
            y
        };
        self.exchange(&[Control::Whole(chosen)], 3, &[])
    }

    // On true the body comes next, and then the same loop again.
    fn turn(&mut self, p: u32, b: u32, x: u32) -> Result<(), Stop>
        ensures { Moved (λ k. loop_of k p b x) self.old self.new result }
    {
        if decided(b, x, self.results.view()).ok_or(Stop::Stuck)? {
            self.exchange(&[Control::Whole(x), Control::Whole(p)], 3, &[])
        } else {
            self.exchange(&[], 3, &[])
        }
    }

    // Every operator but the assignment, which alone changes the store.
    fn operate(&mut self, p: u32, row: Row) -> Result<(), Stop>
        ensures { Moved (λ k. finish_of k p row) self.old self.new result }
    {
        match row {
            Row::Arithmetic(operator, _, _) => self.arithmetic(p, operator),
            Row::Comparison(relation, _, _) => self.comparison(relation),
            Row::Not(_) => {
                let t = topmost::<bool>(self.results.view()).ok_or(Stop::Stuck)?;
                self.exchange(&[], 1, &[Item::Truth(!t)])
            }
            Row::And(_, _) => {
                let (y, x) = topmost_two::<bool>(self.results.view()).ok_or(Stop::Stuck)?;
                self.exchange(&[], 2, &[Item::Truth(x & y)])
            }
            Row::Choice(_, x, y) => self.choice(x, y),
            Row::Loop(b, x) => self.turn(p, b, x),
            _ => Err(Stop::Stuck),
        }
    }
}

// Where the row puts a number.
fn target(row: Row) -> Option<u8>
    ensures { result ≡ target_of row }
{
    match row {
        Row::Assignment(location, _) => Some(location),
        _ => None,
    }
}

impl<S: Store> Machine<'_, '_, '_, S> {
    // The number goes to the store, which may refuse it: then both stacks stay as they are.
    fn assign(&mut self, p: u32, location: u8) -> Result<(), Stop>
        requires { 1 ≤ length (contents self.old.stacks.control) }
        ensures { Stepped S.cells S.rests (assignment_of p location (S.cells self.old.store.now) (stacks self.old.stacks)) self.old self.new result }
    {
        let n = number_for(location, self.stacks.results.view()).ok_or(Stop::Stuck)?;
        // With `map_err` and `?` the proof did not close: the store is known to be as it was only at the error itself.
        if let Err(fault) = self.store.put(location, n) {
            return Err(Stop::at(p, Cause::from(fault)));
        }
        // What is taken was found there, and nothing is laid.
        self.stacks.control.exchange(1, &[]).unwrap();
        self.stacks.results.exchange(2, &[]).unwrap();
        Ok(())
    }

    /// Row `p`'s own operator: it takes the values of the parts, and what it makes of them is laid, put or gone on with.
    pub(crate) fn finish(&mut self, p: u32, row: Row) -> Result<(), Stop>
        requires { 1 ≤ length (contents self.old.stacks.control) }
        ensures { Stepped S.cells S.rests (finish_all_of (room self.old.stacks) p (S.cells self.old.store.now) row (stacks self.old.stacks)) self.old self.new result }
    {
        match target(row) {
            Some(location) => self.assign(p, location),
            None => self.stacks.operate(p, row),
        }
    }
}
