// How the words of a row are laid out: what each stands for.
ghost use Rattle.std.specs.Prelude.{◌≡◌};
ghost use Rattle.loading.specs.Layouts.{layout_of, layout_for};

use rows::kind::Kind;
use rows::row::Sort;

/// What one word of a row stands for.
#[derive(Clone, Copy)]
pub enum Field {
    /// Nothing: the word is 0.
    Unused,
    /// A number in two's complement.
    Number,
    /// A location, 0 to 255.
    Location,
    /// One of the four operators.
    Operator,
    /// One of the three relations.
    Relation,
    /// 0 for false, 1 for true.
    Truth,
    /// A lower row, which is to be of that sort.
    Part(Sort),
}

/// What the words a, b and c of a row of one kind stand for.
#[derive(Clone, Copy)]
pub struct Layout {
    pub a: Field,
    pub b: Field,
    pub c: Field,
}

impl Layout {
    /// The layout of the rows of a kind.
    pub fn of(kind: Kind) -> Self
        ensures { result ≡ layout_for kind }
    {
        use Field::*;
        use Sort::*;
        let (a, b, c) = match kind {
            Kind::Number => (Number, Unused, Unused),
            Kind::Contents => (Location, Unused, Unused),
            Kind::Arithmetic => (Operator, Part(Integer), Part(Integer)),
            Kind::Truth => (Truth, Unused, Unused),
            Kind::Comparison => (Relation, Part(Integer), Part(Integer)),
            Kind::Not => (Part(Boolean), Unused, Unused),
            Kind::And => (Part(Boolean), Part(Boolean), Unused),
            Kind::Skip => (Unused, Unused, Unused),
            Kind::Assignment => (Location, Part(Integer), Unused),
            Kind::Sequence => (Part(Command), Part(Command), Unused),
            Kind::Choice => (Part(Boolean), Part(Command), Part(Command)),
            Kind::Loop => (Part(Boolean), Part(Command), Unused),
        };
        Layout { a, b, c }
    }
}

/// The layout of the kind of that number, where there is such a kind.
pub fn layout_of(kind: u32) -> Option<Layout>
    ensures { result ≡ layout_of kind }
{
    Kind::try_from(kind).ok().map(Layout::of)
}
