// A row that is to be worked out, with all its parts.
ghost use Rattle.transition.specs.Exchanges.{Moved, read_of, wait_of, whole_of};

use crate::pair::StackPair;
use rows::row::Row;
use runs::end::Stop;
use semantics::fault::Cause;
use semantics::item::{Control, Item};
use store::store::Store;

impl StackPair<'_, '_> {
    // The value of the cell at the location. Room for it is asked for first.
    fn read<S: Store>(&mut self, p: u32, location: u8, store: &S) -> Result<(), Stop>
        ensures { Moved (λ k. read_of k (S.cells store.now) p location) self.old self.new result }
    {
        if !self.results.fits(0, 1) {
            return Err(Stop::Stuck);
        }
        let n = store
            .tell(location)
            .read(location)
            .map_err(|fault| Stop::at(p, Cause::from(fault)))?;
        self.exchange(&[], 0, &[Item::Number(n)])
    }

    /// Opens row `p`: its value goes to the results, or its parts to the control stack.
    pub(crate) fn whole<S: Store>(&mut self, p: u32, row: Row, store: &S) -> Result<(), Stop>
        ensures { Moved (λ k. whole_of k (S.cells store.now) p row) self.old self.new result }
    {
        match row {
            Row::Number(n) => self.exchange(&[], 0, &[Item::Number(n)]),
            Row::Contents(location) => self.read(p, location, store),
            Row::Truth(t) => self.exchange(&[], 0, &[Item::Truth(t)]),
            Row::Arithmetic(_, x, y) | Row::Comparison(_, x, y) | Row::And(x, y) => self.exchange(
                &[Control::Whole(x), Control::Whole(y), Control::Finish(p)],
                0,
                &[],
            ),
            Row::Not(x) => self.exchange(&[Control::Whole(x), Control::Finish(p)], 0, &[]),
            Row::Skip => self.exchange(&[], 0, &[]),
            Row::Assignment(location, x) => self.exchange(
                &[Control::Whole(x), Control::Finish(p)],
                0,
                &[Item::Location(location)],
            ),
            Row::Sequence(x, y) => self.exchange(&[Control::Whole(x), Control::Whole(y)], 0, &[]),
            Row::Choice(b, x, y) => self.wait(p, b, x, y),
            Row::Loop(b, x) => self.wait(p, b, b, x),
        }
    }

    // The condition `b` of row `p` is opened, while the rows x and y wait among the results.
    fn wait(&mut self, p: u32, b: u32, x: u32, y: u32) -> Result<(), Stop>
        ensures { Moved (λ k. wait_of k p b x y) self.old self.new result }
    {
        self.exchange(
            &[Control::Whole(b), Control::Finish(p)],
            0,
            &[Item::Row(x), Item::Row(y)],
        )
    }
}
