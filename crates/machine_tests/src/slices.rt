// Slices, served and turned down.
use crate::boards::{PUT_SEVEN, SPIN, on, plain, run};
use machine::run::begin::begin;
use semantics::item::{Control, Item};
use sheet::record::Record;
use sheet::sheet::Sheet;
use stack::stack::Stack;
use std::test::Fail;
use table::program::Program;
use transition::machine::Machine;
use transition::pair::StackPair;

#[test]
fn slice_of_0_moves_nothing(rt: HostRuntime) {
    let mut records = [plain(); 4];
    assert_eq!(rt; run(&PUT_SEVEN, &mut records, 3, 0), (255, 0, 0, 0));
}

#[test]
fn the_largest_slice(rt: HostRuntime) {
    let mut records = [Record::blank(); 0];
    assert_eq!(rt;
        run(&SPIN, &mut records, 1_000_000_000, 1_000_000),
        (255, 0, 0, 1_000_000)
    );
    assert_eq!(rt;
        run(&SPIN, &mut records, 1_000_000_000, 1_000_001),
        (11, 0, 0, 0)
    );
}

// A finish shows at the next look, also in a slice that has nothing left.
#[test]
fn cut_at_the_finish(rt: HostRuntime) {
    let mut records = [plain(); 4];
    assert_eq!(rt; run(&PUT_SEVEN, &mut records, 9, 2), (255, 0, 0, 2));
    assert_eq!(rt; run(&PUT_SEVEN, &mut records, 9, 3), (0, 0, 0, 3));
}

// A running state of one run over stacks that are already empty has finished at once.
#[test]
fn empty_stacks_have_finished(rt: HostRuntime) -> Result<(), Fail> {
    let program = Program::new();
    let mut control = [Control::Whole(0); 1];
    let mut results = [Item::Row(0); 0];
    let mut records = [Record::blank(); 0];
    let mut sheet = Sheet::new(&mut records);
    let mut stacks = StackPair {
        control: Stack::new(&mut control),
        results: Stack::new(&mut results),
    };
    let running = begin(&program, &mut stacks, &sheet, 5).map_err(|_| Fail::new("refused"))?;
    stacks.control.clear();
    let mut machine = Machine {
        stacks,
        store: &mut sheet,
    };
    assert_eq!(rt; on(running, &program, &mut machine, 0), (0, 0, 0, 0));
    Ok(())
}

// Stacks that are only on loan go into a pair, and come back as the run left them.
#[test]
fn stacks_on_loan(rt: HostRuntime) -> Result<(), Fail> {
    let mut program = Program::new();
    program
        .load(&PUT_SEVEN)
        .map_err(|_| Fail::new("not loaded"))?;
    let mut control = [Control::Whole(0); 3];
    let mut results = [Item::Row(0); 2];
    let mut control = Stack::new(&mut control);
    let mut results = Stack::new(&mut results);
    let mut records = [plain(); 4];
    let mut sheet = Sheet::new(&mut records);
    let mut stacks = StackPair::of_loans(&mut control, &mut results);
    let running = begin(&program, &mut stacks, &sheet, 9).map_err(|_| Fail::new("refused"))?;
    stacks.hand_back(&mut control, &mut results);
    assert_eq!(rt; (control.len(), control.places()), (1, 3));
    let mut machine = Machine {
        stacks: StackPair::of_loans(&mut control, &mut results),
        store: &mut sheet,
    };
    assert_eq!(rt; on(running, &program, &mut machine, 3), (0, 0, 0, 3));
    machine.stacks.hand_back(&mut control, &mut results);
    assert_eq!(rt; (control.len(), control.places()), (0, 3));
    assert_eq!(rt; (results.len(), results.places()), (0, 2));
    Ok(())
}
