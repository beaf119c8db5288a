// Tables that load.
use crate::helpers::{FACTORIAL, loads};
use table::program::Program;
use table::{Needs, Operator, Row};

#[test]
fn new_place_holds_skip(rt: HostRuntime) {
    let place = Program::new();
    assert_eq!(rt;
        place.needs(),
        Needs {
            control: 1,
            results: 0,
        }
    );
    assert_eq!(rt; place.row(0), Some(Row::Skip));
    assert_eq!(rt; place.row(1), None);
}

#[test]
fn factorial(rt: HostRuntime) {
    loads(&rt, &FACTORIAL, 6, 4);
    let mut place = Program::new();
    let _ = place.load(&FACTORIAL);
    assert_eq!(rt; place.row(8), Some(Row::Arithmetic(Operator::Minus, 2, 0)));
    assert_eq!(rt; place.row(11), Some(Row::Loop(4, 10)));
}

#[test]
fn shortest_and_longest(rt: HostRuntime) {
    loads(&rt, &[7, 0, 0, 0], 1, 0);
    loads(&rt, [[7, 0, 0, 0]; 4096].as_flattened(), 1, 0);
}

// Each row names its predecessor twice: worked out by a recursion, it would take 2 to the 4,095 steps.
#[test]
fn every_row_shared_twice(rt: HostRuntime) {
    let mut rows = [[7, 0, 0, 0]; 4096];
    for (below, row) in rows[1..].iter_mut().enumerate() {
        let below = below as u32;
        *row = [9, below, below, 0];
    }
    loads(&rt, rows.as_flattened(), 4096, 0);
}

const NEGATIVE: [u32; 8] = [0, 4_294_967_289, 0, 0, 8, 255, 0, 0];

#[test]
fn negative_number_in_twos_complement(rt: HostRuntime) {
    loads(&rt, &NEGATIVE, 2, 2);
    let mut place = Program::new();
    let _ = place.load(&NEGATIVE);
    assert_eq!(rt; place.row(0), Some(Row::Number(-7)));
    assert_eq!(rt; place.row(1), Some(Row::Assignment(255, 0)));
}
