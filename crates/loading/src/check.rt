// What loading asks of one row: questions 2 to 6.
ghost use Rattle.std.specs.Prelude.{◌≡◌, true, false, Some, Decides, MatchResult};
ghost use Rattle.std.specs.Bool.{MatchBool};
ghost use Rattle.rows.specs.Rows.{words_at, decoded, sort_at};
ghost use Rattle.loading.specs.Questions.{Clear, InRange, Lower, Sorted, Each, Any};
ghost use Rattle.loading.specs.Surveys.{RowPasses, RowRefused};

use crate::layout::{Field, Layout, layout_of};
use crate::refusal::Refusal;
use rows::row::{Row, Sort, row_at};
use rows::words::Words;

impl Field {
    // Question 3 of one word.
    fn clear(self, w: u32) -> bool
        ensures { Decides result (Clear self w) }
    {
        match self {
            Field::Unused => w == 0,
            _ => true,
        }
    }

    // Question 4 of one word.
    fn in_range(self, w: u32) -> bool
        ensures { Decides result (InRange self w) }
    {
        match self {
            Field::Location => w < 256,
            Field::Operator => w < 4,
            Field::Relation => w < 3,
            Field::Truth => w < 2,
            _ => true,
        }
    }

    // Question 5 of one word of the row `p`.
    fn lower(self, p: u32, w: u32) -> bool
        ensures { Decides result (Lower p self w) }
    {
        match self {
            Field::Part(_) => w < p,
            _ => true,
        }
    }

    // Question 6 of one word. With a `part()` and `is_none_or` for it and for `lower`, `check_row` did not prove.
    fn sorted(self, table: &[u32], w: u32) -> bool
        ensures { Decides result (Sorted table.now self w) }
    {
        match self {
            Field::Part(sort) => has_sort(table, w, sort),
            _ => true,
        }
    }
}

// Whether the table has a row `p` of that sort.
#[tactic(auto, unfolding(rows::specs::Rows::sort_at))]
pub(crate) fn has_sort(table: &[u32], p: u32, sort: Sort) -> bool
    ensures { Decides result (sort_at table.now p ≡ Some sort) }
{
    row_at(table, p).is_some_and(|row| row.sort() == sort)
}

impl Layout {
    // Whether each of the three words passes, with what it stands for.
    fn all<F: Fn(Field, u32) -> bool>(self, words: Words, passes: F) -> bool
        requires { F.IsAlwaysCallable passes }
        ensures { MatchBool result (Each (λ f w. F.post passes f w true) words self) (Any (λ f w. F.post passes f w false) words self) }
    {
        passes(self.a, words.a) && passes(self.b, words.b) && passes(self.c, words.c)
    }
}

// Asks questions 2 to 6 of the row `p`, whose words these are, and stops at the first no.
pub(crate) fn check_row(table: &[u32], p: u32, words: Words) -> Result<Row, Refusal>
    requires { words ≡ words_at table.now p }
    ensures { MatchResult result (λ row. RowPasses table.now p × (decoded (words_at table.now p) ≡ Some row)) (RowRefused table.now p) }
{
    // Not `ok_or` and `?`: with these the compiler tells the kinds apart at each question anew, and a load takes 1.4 times
    // as long.
    let Some(layout) = layout_of(words.kind) else {
        return Err(Refusal::Kind(p));
    };
    if !layout.all(words, |field, w| field.clear(w)) {
        return Err(Refusal::Unused(p));
    }
    if !layout.all(words, |field, w| field.in_range(w)) {
        return Err(Refusal::Range(p));
    }
    if !layout.all(words, |field, w| field.lower(p, w)) {
        return Err(Refusal::Forward(p));
    }
    if !layout.all(words, |field, w| field.sorted(table, w)) {
        return Err(Refusal::Mismatch(p));
    }
    // Words that pass spell a row.
    Ok(Row::try_from(words).unwrap())
}
