// What lies on the machine's two stacks.

/// An item of the control stack. A row is given by its number.
#[derive(Clone, Copy, PartialEq, Eq, Debug)]
pub enum Control {
    /// The row is to be worked out, with all its parts.
    Whole(u32),
    /// The row's parts are worked out: what is left is the row's own operator.
    Finish(u32),
}

/// An item of the results stack.
#[derive(Clone, Copy, PartialEq, Eq, Debug)]
pub enum Item {
    Number(i32),
    Truth(bool),
    /// Where a number is to be put.
    Location(u8),
    /// A row that waits: a branch of a choice, or a loop's condition or body.
    Row(u32),
}
