// The program place.
ghost use Rattle.std.specs.Prelude.{◌≡◌, ◌≤◌};
ghost use Rattle.loading.specs.Questions.{Loaded};
ghost use Rattle.rows.specs.Rows.{rows, last_row};
ghost use Rattle.loading.specs.Stacks.{needs_at};

use loading::needs::Needs;

mod place;

/// A place for a program. It holds a loaded table at all times, with the needs of its last row.
#[derive(Drop)]
pub struct Program<'a> {
    words: &'a [u32],
    needs: Needs,
    ghost loaded: { ∥ Loaded words.now ∥₁ },
    ghost sized: { (1 ≤ rows words.now) × (rows words.now ≤ 4096) },
    ghost exact: { needs ≡ needs_at words.now (last_row words.now) },
}
