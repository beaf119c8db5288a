// What a run works on.
ghost use Rattle.std.specs.Prelude.{◌≡◌, [], length};
ghost use Rattle.stack.specs.Contents.{contents, places};

use crate::pair::StackPair;
use semantics::item::{Control, Item};
use stack::stack::Stack;

/// The abstract machine of a run: its two stacks, and the loan of the store whose cells the rules read and
/// put. The loan may end before the stacks' own does: a board then takes the stacks out, and makes a machine
/// of them again over the next loan.
// The program stands beside a machine and not in it, since two machines of one promise have one program.
#[derive(Drop)]
pub struct Machine<'c, 'r, 'm, S> {
    pub stacks: StackPair<'c, 'r>,
    pub store: &'m mut S,
}

impl<'c, 'r, 'm, S> Machine<'c, 'r, 'm, S> {
    /// A machine over that store. Its stacks are empty, and their places those of the lent slices.
    pub fn new(
        control: &'c mut [Control],
        results: &'r mut [Item],
        store: &'m mut S,
    ) -> Machine<'c, 'r, 'm, S>
        ensures control { (contents result.stacks.control ≡ []) × (places result.stacks.control ≡ length control.old) }
        ensures results { (contents result.stacks.results ≡ []) × (places result.stacks.results ≡ length results.old) }
        ensures store { result.store.now ≡ store.old }
        ensures lends { result.store.ghost_name ≡ store.entry.ghost_name }
    {
        let control = Stack::new(control);
        let results = Stack::new(results);
        Machine {
            stacks: StackPair { control, results },
            store,
        }
    }
}
