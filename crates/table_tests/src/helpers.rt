// What the examples have in common.
use std::process::Abort;
use table::Needs;
use table::program::Program;

/// Four to the factorial: cell 2 becomes 1, then cell 1 counts down while cell 2 is multiplied.
pub const FACTORIAL: [u32; 52] = [
    0, 1, 0, 0, 8, 2, 0, 0, 1, 1, 0, 0, 0, 0, 0, 0, 4, 0, 2, 3, 1, 2, 0, 0, 2, 2, 5, 2, 8, 2, 6, 0,
    2, 1, 2, 0, 8, 1, 8, 0, 9, 7, 9, 0, 11, 4, 10, 0, 9, 1, 11, 0,
];

/// The words load into a place that held another table, with these needs.
pub fn loads(rt: &impl Abort, words: &[u32], control: u16, results: u16) {
    let needs = Needs { control, results };
    let mut place = Program::new();
    assert_eq!(rt; place.load(words), Ok(needs));
    assert_eq!(rt; place.needs(), needs);
    assert_eq!(rt; place.table().len(), words.len());
}

/// The words are refused with that question and row, and the place keeps the factorial table.
pub fn refuses(rt: &impl Abort, words: &[u32], number: u8, row: u32) {
    let mut place = Program::new();
    assert!(rt;
        place.load(&FACTORIAL).is_ok(),
        "the factorial table does not load"
    );
    let answer = place
        .load(words)
        .map_err(|refusal| (refusal.number(), refusal.row()));
    assert_eq!(rt; answer.err(), Some((number, row)));
    assert_eq!(rt; place.last_row(), 12);
}
