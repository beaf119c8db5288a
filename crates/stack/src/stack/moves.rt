// What can be done with a stack.
ghost use Rattle.std.specs.Prelude.{◌≡◌, ◌+◌, ◌-◌, ◌<◌, ◌≤◌, true, false, [], ◌∷◌, ◌++◌, length, if◌then◌else◌, nat_lt};
ghost use Rattle.std.proofs.Math.ListN.{«drop» as past};
ghost use Rattle.stack.specs.Contents.{contents, places, first, rest, fits, where_room};

use super::{NoRoom, Stack};

// Each call says for itself that the places stay: a fact of before and after, which no field or invariant can hold.
impl<'a, T: Copy> Stack<'a, T> {
    /// An empty stack over the slice, with a place for each of its items.
    pub fn new(items: &'a mut [T]) -> Stack<'a, T>
        ensures contents { contents result ≡ [] }
        ensures places { places result ≡ length items.old }
    {
        let top = items.len();
        Stack { items, top }
    }

    /// How many items it holds.
    pub fn len(&self) -> usize
        ensures { result ≡ length (contents self.now) }
    {
        self.view().len()
    }

    /// How many items it can hold.
    pub fn places(&self) -> usize
        ensures { result ≡ places self.now }
    {
        self.items.len()
    }

    /// What it holds, topmost first.
    pub fn view(&self) -> &[T]
        ensures { result.now ≡ contents self.now }
    {
        &self.items[self.top..]
    }

    /// The topmost item.
    pub fn top(&self) -> Option<T>
        ensures { result ≡ first (contents self.now) }
    {
        self.view().first().copied()
    }

    /// Takes everything off.
    pub fn clear(&mut self)
        ensures contents { contents self.new ≡ [] }
        ensures places { places self.new ≡ places self.old }
    {
        self.top = self.items.len();
    }

    /// Lays the item on top. Where the stack is full, nothing changes.
    pub fn push(&mut self, item: T) -> Result<(), NoRoom>
        ensures answers { result ≡ where_room (nat_lt (length (contents self.old)) (places self.old)) }
        ensures contents { contents self.new ≡ (if nat_lt (length (contents self.old)) (places self.old) then item ∷ contents self.old else contents self.old) }
        ensures places { places self.new ≡ places self.old }
    {
        if self.top == 0 {
            return Err(NoRoom);
        }
        self.top -= 1;
        self.items[self.top] = item;
        Ok(())
    }

    /// Takes the topmost item off, or answers none and changes nothing where there is none.
    pub fn pop(&mut self) -> Option<T>
        ensures item { result ≡ first (contents self.old) }
        ensures contents { contents self.new ≡ rest (contents self.old) }
        ensures places { places self.new ≡ places self.old }
    {
        let item = self.top()?;
        self.top += 1;
        Some(item)
    }

    /// Whether there are `taken` items, in the place of which `laid` items fit.
    pub fn fits(&self, taken: usize, laid: usize) -> bool
        ensures { result ≡ fits (places self.now) (contents self.now) taken laid }
    {
        taken <= self.len() && laid.saturating_sub(taken) <= self.top
    }

    /// Lays the items, the first of them topmost, in the place of the `taken` topmost. Where they do
    /// not fit, nothing changes.
    pub fn exchange(&mut self, taken: usize, laid: &[T]) -> Result<(), NoRoom>
        ensures answers { result ≡ where_room (fits (places self.old) (contents self.old) taken (length laid.now)) }
        ensures contents { contents self.new ≡ (if fits (places self.old) (contents self.old) taken (length laid.now) then laid.now ++ past taken (contents self.old) else contents self.old) }
        ensures places { places self.new ≡ places self.old }
    {
        if !self.fits(taken, laid.len()) {
            return Err(NoRoom);
        }
        self.lose(taken);
        self.lay(laid);
        Ok(())
    }

    // Takes the topmost items off, where there are so many.
    fn lose(&mut self, taken: usize)
        requires { taken ≤ length (contents self.old) }
        ensures contents { contents self.new ≡ past taken (contents self.old) }
        ensures places { places self.new ≡ places self.old }
    {
        self.top += taken;
    }

    // Lays the items on top, the first of them topmost, where there is room.
    fn lay(&mut self, laid: &[T])
        requires { length laid.now + length (contents self.old) ≤ places self.old }
        ensures contents { contents self.new ≡ laid.now ++ contents self.old }
        ensures places { places self.new ≡ places self.old }
    {
        // One by one, and no copy of a slice: where the length is known, each is then a single store.
        for item in laid.iter().rev() {
            self.top -= 1;
            self.items[self.top] = *item;
        }
    }
}
