// The tables of the worked cases.

// A table's words, written row by row.
macro_rules! rule_table {
    ($([$kind:expr, $a:expr, $b:expr, $c:expr]),+ $(,)?) => {
        &[$($kind, $a, $b, $c),+]
    };
}

// Nothing at all.
pub(crate) const SKIP: &[u32] = rule_table![[7, 0, 0, 0]];

// l3 := 7
pub(crate) const PUT_SEVEN: &[u32] = rule_table![
    [0, 7, 0, 0], // 7
    [8, 3, 0, 0], // l3 := row 0
];

// l3 := 1 / 0
pub(crate) const ONE_OVER_ZERO: &[u32] = rule_table![
    [0, 1, 0, 0], // 1
    [0, 0, 0, 0], // 0
    [2, 3, 0, 1], // row 0 / row 1
    [8, 3, 2, 0], // l3 := row 2
];

// l3 := !l9
pub(crate) const COPY_NINE: &[u32] = rule_table![
    [1, 9, 0, 0], // !l9
    [8, 3, 0, 0], // l3 := row 0
];

// while true do skip
pub(crate) const ENDLESS: &[u32] = rule_table![
    [3, 1, 0, 0],  // true
    [7, 0, 0, 0],  // skip
    [11, 0, 1, 0], // while row 0 do row 1
];

// if false and 1 / 0 = 1 then skip else skip: no operand is left out, so the quotient faults
pub(crate) const FALSE_AND_FAULT: &[u32] = rule_table![
    [3, 0, 0, 0],  // false
    [0, 1, 0, 0],  // 1
    [0, 0, 0, 0],  // 0
    [2, 3, 1, 2],  // row 1 / row 2
    [4, 2, 3, 1],  // row 3 = row 1
    [6, 0, 4, 0],  // row 0 and row 4
    [7, 0, 0, 0],  // skip
    [10, 5, 6, 6], // if row 5 then row 6 else row 6
];

// l2 := 1; while !l1 > 0 do (l2 := !l2 * !l1; l1 := !l1 - 1): l2 becomes the factorial of l1
pub(crate) const FACTORIAL: &[u32] = rule_table![
    [0, 1, 0, 0],   // 1
    [8, 2, 0, 0],   // l2 := row 0
    [1, 1, 0, 0],   // !l1
    [0, 0, 0, 0],   // 0
    [4, 0, 2, 3],   // row 2 > row 3
    [1, 2, 0, 0],   // !l2
    [2, 2, 5, 2],   // row 5 * row 2
    [8, 2, 6, 0],   // l2 := row 6
    [2, 1, 2, 0],   // row 2 - row 0
    [8, 1, 8, 0],   // l1 := row 8
    [9, 7, 9, 0],   // row 7; row 9
    [11, 4, 10, 0], // while row 4 do row 10
    [9, 1, 11, 0],  // row 1; row 11
];

// l3 := !l1; l1 := !l2; l2 := !l3
pub(crate) const EXCHANGE: &[u32] = rule_table![
    [1, 1, 0, 0], // !l1
    [8, 3, 0, 0], // l3 := row 0
    [1, 2, 0, 0], // !l2
    [8, 1, 2, 0], // l1 := row 2
    [9, 1, 3, 0], // row 1; row 3
    [1, 3, 0, 0], // !l3
    [8, 2, 5, 0], // l2 := row 5
    [9, 4, 6, 0], // row 4; row 6
];

// l3 := the lowest number of 32 bits / -1, which is none of 32 bits
pub(crate) const LOWEST_OVER_MINUS_ONE: &[u32] = rule_table![
    [0, 2147483648, 0, 0], // the lowest number
    [0, 4294967295, 0, 0], // -1
    [2, 3, 0, 1],          // row 0 / row 1
    [8, 3, 2, 0],          // l3 := row 2
];

// l3 := -7 / 2
pub(crate) const MINUS_SEVEN_OVER_TWO: &[u32] = rule_table![
    [0, 4294967289, 0, 0], // -7
    [0, 2, 0, 0],          // 2
    [2, 3, 0, 1],          // row 0 / row 1
    [8, 3, 2, 0],          // l3 := row 2
];
