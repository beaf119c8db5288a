// Begin at its edges.
use crate::boards::{PUT_SEVEN, plain, run};
use machine::run::begin::begin;
use semantics::item::{Control, Item};
use sheet::record::Record;
use sheet::sheet::Sheet;
use stack::stack::Stack;
use table::program::Program;
use transition::pair::StackPair;

// The number that begin refuses with, or 0; and how many items are then left on the control stack,
// on which two were lying.
fn begun(control_places: usize, results_places: usize, limit: u32) -> (u8, usize) {
    let mut program = Program::new();
    if program.load(&PUT_SEVEN).is_err() {
        return (1, 0);
    }
    let mut control = [Control::Whole(0); 4];
    let mut results = [Item::Row(0); 4];
    if control_places > 4 || results_places > 4 {
        return (255, 0);
    }
    let mut records = [Record::blank(); 1];
    let sheet = Sheet::new(&mut records);
    let mut stacks = StackPair {
        control: Stack::new(&mut control[..control_places]),
        results: Stack::new(&mut results[..results_places]),
    };
    let _ = stacks.control.push(Control::Finish(9));
    let _ = stacks.control.push(Control::Finish(9));
    let number = match begin(&program, &mut stacks, &sheet, limit) {
        Ok(running) => {
            running.give_up();
            0
        }
        Err(refusal) => refusal.number(),
    };
    (number, stacks.control.len())
}

// The program needs two places on either stack.
#[test]
fn places(rt: HostRuntime) {
    assert_eq!(rt; begun(2, 2, 1), (0, 1));
    assert_eq!(rt; begun(1, 2, 1), (9, 1));
    assert_eq!(rt; begun(2, 1, 1), (10, 2));
    assert_eq!(rt; begun(1, 1, 1), (9, 1));
}

#[test]
fn limits(rt: HostRuntime) {
    assert_eq!(rt; begun(4, 4, 0), (8, 2));
    assert_eq!(rt; begun(4, 4, 1_000_000_000), (0, 1));
    assert_eq!(rt; begun(4, 4, 1_000_000_001), (8, 2));
    assert_eq!(rt; begun(0, 0, 0), (8, 0));
}

// A cost of 3 is within the limit 3, and not within 2.
#[test]
fn limit_reached(rt: HostRuntime) {
    let mut records = [plain(); 4];
    assert_eq!(rt; run(&PUT_SEVEN, &mut records, 3, 1_000_000), (0, 0, 0, 3));
    assert_eq!(rt; records[3].number, 7);
    assert_eq!(rt; run(&PUT_SEVEN, &mut records, 2, 1_000_000), (19, 0, 0, 2));
}
