// The two stacks of a run, and the one way in which a transition changes them.
ghost use Rattle.std.specs.Prelude.{◌≡◌, []};
ghost use Rattle.stack.specs.Contents.{contents, places};
ghost use Rattle.transition.specs.Exchanges.{Moved, exchanged};

use runs::end::Stop;
use semantics::item::{Control, Item};
use stack::stack::Stack;
use std::mem;

/// The two stacks of a run: what is still to be done, and what has come of it so far. The memory of each may be
/// lent for a time of its own.
#[derive(Drop)]
pub struct StackPair<'c, 'r> {
    pub control: Stack<'c, Control>,
    pub results: Stack<'r, Item>,
}

impl<'c, 'r> StackPair<'c, 'r> {
    /// The pair of two stacks that are themselves only on loan. In the place of each stands an empty one without
    /// places, until `hand_back` puts the stack there again.
    pub fn of_loans(
        control: &mut Stack<'c, Control>,
        results: &mut Stack<'r, Item>,
    ) -> StackPair<'c, 'r>
        ensures takes { (result.control ≡ control.old) × (result.results ≡ results.old) }
        ensures leaves_control { (contents control.new ≡ []) × (places control.new ≡ 0) }
        ensures leaves_results { (contents results.new ≡ []) × (places results.new ≡ 0) }
    {
        StackPair {
            control: mem::replace(control, Stack::new(&mut [])),
            results: mem::replace(results, Stack::new(&mut [])),
        }
    }

    /// Hands both stacks back, as they now are, to where they were taken from.
    pub fn hand_back(self, control: &mut Stack<'c, Control>, results: &mut Stack<'r, Item>)
        ensures { (control.new ≡ self.entry.control) × (results.new ≡ self.entry.results) }
    {
        *control = self.control;
        *results = self.results;
    }
}

impl StackPair<'_, '_> {
    // The topmost control item makes way for `entering`, and the `taken` topmost results for `laid`. Where
    // they do not fit, neither stack changes.
    pub(crate) fn exchange(
        &mut self,
        entering: &[Control],
        taken: usize,
        laid: &[Item],
    ) -> Result<(), Stop>
        ensures { Moved (λ k. exchanged k entering.now taken laid.now) self.old self.new result }
    {
        if !self.control.fits(1, entering.len()) {
            return Err(Stop::Stuck);
        }
        self.results.exchange(taken, laid)?;
        // There is room: that was asked.
        self.control.exchange(1, entering).unwrap();
        Ok(())
    }
}
