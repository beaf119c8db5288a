// What a row's own operator finds on top of the results, where it finds what it should.
ghost use Rattle.std.specs.Prelude.{◌≡◌, Option};
ghost use Rattle.semantics.specs.declared.item.Item.{Item};
ghost use Rattle.transition.specs.Found.{as_number, as_truth, topmost, topmost_two, number_for, decided};

use semantics::item::Item;

/// What an operator computes with.
pub trait Operand: Copy {
    /// The operand that an item is, if it is one of this type.
    ghost taken: { Item → Option Self };

    fn of_item(item: Item) -> Option<Self>
        ensures { result ≡ taken item };
}

impl Operand for i32 {
    ghost taken = { as_number };

    fn of_item(item: Item) -> Option<i32> {
        match item {
            Item::Number(n) => Some(n),
            _ => None,
        }
    }
}

impl Operand for bool {
    ghost taken = { as_truth };

    fn of_item(item: Item) -> Option<bool> {
        match item {
            Item::Truth(t) => Some(t),
            _ => None,
        }
    }
}

/// The topmost operand.
pub fn topmost<V: Operand>(items: &[Item]) -> Option<V>
    ensures { result ≡ topmost V.taken items.now }
{
    V::of_item(*items.first()?)
}

/// The right operand, then the left.
pub fn topmost_two<V: Operand>(items: &[Item]) -> Option<(V, V)>
    ensures { result ≡ topmost_two V.taken items.now }
{
    match items {
        [right, left, ..] => Some((V::of_item(*right)?, V::of_item(*left)?)),
        _ => None,
    }
}

/// The number that is to be put at the location.
pub fn number_for(location: u8, items: &[Item]) -> Option<i32>
    ensures { result ≡ number_for location items.now }
{
    match items {
        [Item::Number(n), Item::Location(l), ..] if *l == location => Some(*n),
        _ => None,
    }
}

/// The truth value of a condition, with the rows that wait for it.
pub fn decided(x: u32, y: u32, items: &[Item]) -> Option<bool>
    ensures { result ≡ decided x y items.now }
{
    match items {
        [Item::Truth(t), Item::Row(q), Item::Row(s), ..] if *q == x && *s == y => Some(*t),
        _ => None,
    }
}
