// One transition of the row machine.
ghost use Rattle.std.specs.Prelude.{◌≡◌, Ok};
ghost use Rattle.rows.specs.Rows.{row_at};
ghost use Rattle.table.specs.Places.{table_of};
ghost use Rattle.stack.specs.Contents.{places};
ghost use Rattle.runs.specs.Tries.{Tried};
ghost use Rattle.runs.specs.Simp.{AsSimp};
ghost use Rattle.transition.specs.Exchanges.{stacks, room};
ghost use Rattle.transition.specs.Steps.{Keeps, Stepped, configuration, step_of};

use crate::machine::Machine;
use runs::end::Stop;
use semantics::item::Control;
use store::store::Store;
use table::program::Program;

impl<S: Store> Machine<'_, '_, '_, S> {
    // The transition, if there is one.
    fn attempt(&mut self, program: &Program<'_>) -> Result<(), Stop>
        ensures { Stepped S.cells S.rests (step_of (room self.old.stacks) (row_at (table_of program.now)) (S.cells self.old.store.now) (stacks self.old.stacks)) self.old self.new result }
    {
        // Not `ok_or` and `?`: with these the compiler tells the rows' kinds apart twice at every transition.
        let Some(item) = self.stacks.control.top() else {
            return Err(Stop::Stuck);
        };
        match item {
            Control::Whole(p) => {
                let Some(row) = program.row(p) else {
                    return Err(Stop::Stuck);
                };
                self.stacks.whole(p, row, &*self.store)
            }
            Control::Finish(p) => {
                let Some(row) = program.row(p) else {
                    return Err(Stop::Stuck);
                };
                self.finish(p, row)
            }
        }
    }

    /// One transition, tried. Where it is not made, nothing changes, on stacks or store.
    pub fn step(&mut self, program: &Program<'_>) -> Result<(), Stop>
        ensures tries { Tried (row_at (table_of program.now)) (places self.old.stacks.control) (places self.old.stacks.results) (configuration S.cells self.old) result (configuration S.cells self.new) }
        ensures simp { result ≡ Ok tt → AsSimp (table_of program.now) (configuration S.cells self.old) 1 (configuration S.cells self.new) }
        ensures keeps { Keeps S.rests self.old self.new }
    {
        self.attempt(program)
    }
}
