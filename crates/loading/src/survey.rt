// One pass over a table, from row 0 upward: every question of loading, and the needs of every row.
ghost use Rattle.std.specs.Prelude.{◌≡◌, ℕ, ◌<◌, length, Decides, MatchResult};
ghost use Rattle.loading.specs.declared.refusal.Refusal.TheVariants.{Length};
ghost use Rattle.loading.specs.Loading.{Answers};
ghost use Rattle.loading.specs.Questions.{Yes, FirstNo};
ghost use Rattle.loading.specs.Stacks.{nothing};
ghost use Rattle.loading.specs.Surveys.{Surveyed, known_of};

use crate::check::{check_row, has_sort};
use crate::needs::{Needs, needs_of};
use crate::refusal::Refusal;
use crate::small::SmallNeeds;
use rows::row::Sort;
use rows::words::Words;

// The rows that a table has at most.
const MAX_ROWS: usize = 4096;

// Question 1.
fn length_passes(table: &[u32]) -> bool
    ensures { Decides result (Yes table.now Length) }
{
    let words = table.len();
    words.is_multiple_of(4) && (4..=4 * MAX_ROWS).contains(&words)
}

// Asks questions 2 to 6 of every row, from row 0 upward, and lays down the needs of each. They stand in a
// list since many rows may share one: a recursion would work them out anew for each that names it. The list
// is lent, and not answered, so that its 16 KiB stand on the stack once.
fn survey_rows(table: &[u32], known: &mut [SmallNeeds; MAX_ROWS]) -> Result<(), Refusal>
    requires long { Yes table.now Length }
    requires blank { (k : ℕ) → known_of known.old k ≡ nothing }
    ensures { MatchResult result (λ _. Surveyed table.now known.new) (FirstNo table.now) }
{
    let (rows, _) = table.as_chunks::<4>();
    for (p, words) in rows.iter().enumerate() {
        let row = check_row(table, p as u32, Words::from(*words))?;
        known[p] = SmallNeeds::new(needs_of(row, &*known));
    }
    Ok(())
}

/// Puts the questions of loading in their order, and answers the needs of the last row or the first no.
pub fn survey(table: &[u32]) -> Result<Needs, Refusal>
    ensures { Answers table.now result }
{
    if !length_passes(table) {
        return Err(Refusal::Length);
    }
    let mut known = [SmallNeeds::default(); MAX_ROWS];
    survey_rows(table, &mut known)?;
    let last = table.len() / 4 - 1;
    if !has_sort(table, last as u32, Sort::Command) {
        return Err(Refusal::NotCommand(last as u32));
    }
    Ok(known[last].needs())
}
