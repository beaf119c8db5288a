// Tables that are refused: the question and the row.
use crate::helpers::refuses;

#[test]
fn lengths(rt: HostRuntime) {
    refuses(&rt, &[], 1, 0);
    refuses(&rt, &[7, 0, 0], 1, 0);
    refuses(&rt, &[7, 0, 0, 0, 7], 1, 0);
    refuses(&rt, &[7; 16_388], 1, 0);
}

#[test]
fn kinds(rt: HostRuntime) {
    refuses(&rt, &[12, 0, 0, 0, 7, 0, 0, 0, 7, 0, 0, 0], 2, 0);
    refuses(&rt, &[7, 0, 0, 0, 4_294_967_295, 0, 0, 0, 7, 0, 0, 0], 2, 1);
    refuses(&rt, &[7, 0, 0, 0, 7, 0, 0, 0, 12, 0, 0, 0], 2, 2);
}

#[test]
fn unused_words(rt: HostRuntime) {
    refuses(&rt, &[7, 1, 0, 0, 7, 0, 0, 0, 7, 0, 0, 0], 3, 0);
    refuses(&rt, &[0, 0, 0, 0, 8, 1, 0, 9, 7, 0, 0, 0], 3, 1);
    refuses(&rt, &[7, 0, 0, 0, 7, 0, 0, 0, 9, 0, 1, 1], 3, 2);
}

#[test]
fn ranges(rt: HostRuntime) {
    refuses(&rt, &[1, 256, 0, 0, 7, 0, 0, 0, 7, 0, 0, 0], 4, 0);
    refuses(&rt, &[0, 1, 0, 0, 2, 4, 0, 0, 7, 0, 0, 0], 4, 1);
    refuses(&rt, &[0, 1, 0, 0, 4, 3, 0, 0, 7, 0, 0, 0], 4, 1);
    refuses(&rt, &[3, 2, 0, 0, 7, 0, 0, 0, 7, 0, 0, 0], 4, 0);
    refuses(&rt, &[0, 1, 0, 0, 7, 0, 0, 0, 8, 256, 0, 0], 4, 2);
}

#[test]
fn rows_named_too_early(rt: HostRuntime) {
    refuses(&rt, &[5, 0, 0, 0, 7, 0, 0, 0, 7, 0, 0, 0], 5, 0);
    refuses(&rt, &[7, 0, 0, 0, 9, 0, 1, 0, 7, 0, 0, 0], 5, 1);
    refuses(&rt, &[7, 0, 0, 0, 7, 0, 0, 0, 9, 0, 3, 0], 5, 2);
}

// A first row cannot get a no to question 6: a row that names another has failed question 5 there.
#[test]
fn sorts(rt: HostRuntime) {
    refuses(&rt, &[7, 0, 0, 0, 8, 3, 0, 0, 7, 0, 0, 0], 6, 1);
    refuses(&rt, &[0, 1, 0, 0, 7, 0, 0, 0, 10, 0, 1, 1], 6, 2);
}

#[test]
fn last_row_is_no_command(rt: HostRuntime) {
    refuses(&rt, &[0, 1, 0, 0], 7, 0);
    refuses(&rt, &[7, 0, 0, 0, 7, 0, 0, 0, 3, 1, 0, 0], 7, 2);
}

// The earlier row wins, and in one row the lower question.
#[test]
fn two_faults(rt: HostRuntime) {
    refuses(&rt, &[7, 0, 0, 0, 1, 256, 9, 0, 7, 0, 0, 0], 3, 1);
    refuses(&rt, &[7, 0, 0, 0, 8, 256, 5, 0, 7, 0, 0, 0], 4, 1);
    refuses(&rt, &[7, 0, 0, 0, 9, 0, 1, 0, 12, 0, 0, 0], 5, 1);
    refuses(&rt, &[0, 1, 0, 0, 8, 256, 0, 0, 7, 1, 0, 0], 4, 1);
    refuses(&rt, &[12, 0, 0, 0, 3, 1, 0, 0], 2, 0);
}
