// Going through the fields of a text.
ghost use Rattle.std.specs.Prelude.{◌≡◌, ◌-◌, length};
ghost use Rattle.std.specs.Iterator.{at_most};
ghost use Rattle.fields.specs.FieldSteps.{StepsTo};

use crate::span::{Span, next_field};

/// The fields of a text, in their order.
#[derive(Drop)]
pub struct Fields<'a> {
    text: &'a [u8],
    from: usize,
}

impl<'a> Fields<'a> {
    /// The fields of that text.
    pub fn of(text: &'a [u8]) -> Fields<'a>
        ensures { (result.text.now ≡ text.now) × (result.from ≡ 0) }
    {
        Fields { text, from: 0 }
    }
}

impl Iterator for Fields<'_> {
    type Item = Span;

    ghost next_gives = { StepsTo };

    ghost remaining = { λ s. at_most (length s.text.now - s.from) };

    fn next(&mut self) -> Option<Span> {
        let field = next_field(self.text, self.from)?;
        self.from = field.end;
        Some(field)
    }
}
