// Ends: stuck, and the store's refusals with their row and location.
use crate::boards::{COPY_NINE, PUT_SEVEN, Told, narrow, on, plain, run};
use cells::cell::Mark;
use machine::run::begin::begin;
use semantics::item::{Control, Item};
use sheet::record::Record;
use sheet::sheet::Sheet;
use stack::stack::Stack;
use table::program::Program;
use transition::machine::Machine;
use transition::pair::StackPair;

// A run over stacks that the caller has filled: this item alone on control, two results beneath it.
fn filled(words: &[u32], item: Control, below_top: Item, top: Item, places: usize) -> Told {
    let mut program = Program::new();
    if program.load(words).is_err() || places > 4 {
        return (1, 0, 0, 0);
    }
    let mut control = [Control::Whole(0); 4];
    let mut results = [Item::Row(0); 4];
    let mut records = [plain(); 4];
    let mut sheet = Sheet::new(&mut records);
    let mut stacks = StackPair {
        control: Stack::new(&mut control),
        results: Stack::new(&mut results[..places]),
    };
    let running = match begin(&program, &mut stacks, &sheet, 100) {
        Ok(running) => running,
        Err(refusal) => return (refusal.number(), 0, 0, 0),
    };
    stacks.control.clear();
    let _ = stacks.control.push(item);
    let _ = stacks.results.push(below_top);
    let _ = stacks.results.push(top);
    let mut machine = Machine {
        stacks,
        store: &mut sheet,
    };
    on(running, &program, &mut machine, 1)
}

#[test]
fn refusals_of_the_store(rt: HostRuntime) {
    assert_eq!(rt;
        run(&COPY_NINE, &mut [Record::blank(); 10], 100, 100),
        (13, 0, 9, 1)
    );
    assert_eq!(rt;
        run(&COPY_NINE, &mut [plain(); 10], 100, 100),
        (14, 0, 9, 1)
    );
    assert_eq!(rt;
        run(&PUT_SEVEN, &mut [Record::blank(); 0], 100, 100),
        (13, 1, 3, 2)
    );
    assert_eq!(rt;
        run(&PUT_SEVEN, &mut [narrow(Mark::Fixed); 4], 100, 100),
        (15, 1, 3, 2)
    );
    assert_eq!(rt;
        run(&PUT_SEVEN, &mut [narrow(Mark::Free); 4], 100, 100),
        (16, 1, 3, 2)
    );
}

// The assignment of row 1 puts only at its own location, and takes only a number.
#[test]
fn items_have_to_be_the_rows_own(rt: HostRuntime) {
    let finish = Control::Finish(1);
    assert_eq!(rt;
        filled(&PUT_SEVEN, finish, Item::Location(3), Item::Number(7), 4),
        (0, 0, 0, 1)
    );
    assert_eq!(rt;
        filled(&PUT_SEVEN, finish, Item::Location(2), Item::Number(7), 4),
        (12, 0, 0, 0)
    );
    assert_eq!(rt;
        filled(&PUT_SEVEN, finish, Item::Location(3), Item::Truth(true), 4),
        (12, 0, 0, 0)
    );
    assert_eq!(rt;
        filled(
            &PUT_SEVEN,
            Control::Finish(2),
            Item::Location(3),
            Item::Number(7),
            4,
        ),
        (12, 0, 0, 0)
    );
    assert_eq!(rt;
        filled(
            &PUT_SEVEN,
            Control::Whole(2),
            Item::Location(3),
            Item::Number(7),
            4,
        ),
        (12, 0, 0, 0)
    );
}

// Room for the value is asked for before the store is: the location 9 is not even known.
#[test]
fn a_full_stack_is_stuck_before_the_store_is_asked(rt: HostRuntime) {
    assert_eq!(rt;
        filled(&COPY_NINE, Control::Whole(0), Item::Row(0), Item::Row(0), 2),
        (12, 0, 0, 0)
    );
    assert_eq!(rt;
        filled(&COPY_NINE, Control::Whole(0), Item::Row(0), Item::Row(0), 3),
        (13, 0, 9, 0)
    );
}
