// A stack over memory that the caller lends.
ghost use Rattle.std.specs.Prelude.{◌≤◌, length};

mod moves;

/// The items do not fit the places of the stack.
#[derive(Clone, Copy, PartialEq, Eq, Debug)]
pub struct NoRoom;

/// A stack of items of one `Copy` type. Its places are those of the lent slice.
///
/// It grows down, from the end of the slice to its start, so that what stands from `top` on is the
/// contents, topmost first, and no proof has to turn a list round.
// Not a `Vec`: a stack stands over memory that the caller lends, and the engine takes none of its own.
#[derive(Drop)]
pub struct Stack<'a, T> {
    items: &'a mut [T],
    top: usize,
    ghost within: { top ≤ length items.now },
}
