// Loading a table into the program place, and what the place tells of the table that it holds.
ghost use Rattle.std.specs.Prelude.{◌≡◌, ◌+◌, [], ◌∷◌, Ok, Result as Answer};
ghost use Rattle.loading.specs.declared.needs.Needs.{Needs};
ghost use Rattle.loading.specs.declared.refusal.Refusal.{Refusal};
ghost use Rattle.loading.specs.Loading.{Answers};
ghost use Rattle.table.specs.Places.{Accepted, Loads, table_of};
ghost use Rattle.rows.specs.Rows.{rows, row_at, last_row};
ghost use Rattle.loading.specs.Stacks.{needs_at};

use super::Program;
use loading::needs::Needs;
use loading::refusal::Refusal;
use loading::survey::survey;
use rows::row::{Row, row_at};

// What a place holds before anything is loaded: one row, skip.
const SKIP: [u32; 4] = [7, 0, 0, 0];

impl<'a> Program<'a> {
    /// A place that holds the table of the one row skip.
    #[tactic(auto, using(crate::proofs::Held::skip_accepted))]
    pub fn new() -> Program<'a>
        ensures { Accepted (7 ∷ 0 ∷ 0 ∷ 0 ∷ []) result }
    {
        let needs = Needs {
            control: 1,
            results: 0,
        };
        Program::holding(&SKIP, needs)
    }

    // A place that holds the words, which have got a yes to every question.
    fn holding(words: &'a [u32], needs: Needs) -> Program<'a>
        requires { Answers words.now (Ok needs) }
        ensures { Accepted words.now result }
    {
        Program { words, needs }
    }

    /// Puts the table into the place and answers its needs, or refuses it and leaves the place as it was.
    pub fn load(&mut self, words: &'a [u32]) -> Result<Needs, Refusal>
        ensures loads { Loads words.now self.old self.new result }
        ensures only { (s : Answer Needs Refusal) → Answers words.now s → s ≡ result }
    {
        let needs = survey(words)?;
        *self = Program::holding(words, needs);
        Ok(needs)
    }

    /// The table that the place holds.
    pub fn table(&self) -> &'a [u32]
        ensures { result.now ≡ table_of self.now }
    {
        self.words
    }

    /// The needs of the table's last row.
    pub fn needs(&self) -> Needs
        ensures { result ≡ needs_at (table_of self.now) (last_row (table_of self.now)) }
    {
        self.needs
    }

    /// The last row's number.
    pub fn last_row(&self) -> u32
        ensures { result + 1 ≡ rows (table_of self.now) }
    {
        (self.words.len() / 4) as u32 - 1
    }

    /// The row `p`, decoded; none past the last.
    pub fn row(&self, p: u32) -> Option<Row>
        ensures { result ≡ row_at (table_of self.now) p }
    {
        row_at(self.words, p)
    }
}

impl Default for Program<'_> {
    ghost is_default = { Accepted (7 ∷ 0 ∷ 0 ∷ 0 ∷ []) };

    fn default() -> Self {
        Program::new()
    }
}
