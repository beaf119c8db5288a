// The four words of a row, where they lie in a table.

ghost use Rattle.std.specs.Prelude.{◌≡◌};
ghost use Rattle.rows.specs.Rows.{words_in, words_of};

/// The words of one row.
#[derive(Clone, Copy)]
pub struct Words {
    pub kind: u32,
    pub a: u32,
    pub b: u32,
    pub c: u32,
}

impl From<[u32; 4]> for Words {
    ghost from_gives = { λ x w. w ≡ words_in x };

    fn from(words: [u32; 4]) -> Self {
        let [kind, a, b, c] = words;
        Words { kind, a, b, c }
    }
}

/// The words of the row `p`; none past the last whole row.
#[tactic(auto, using(crate::proofs::Chunks::words_in_chunk))]
pub fn words_at(table: &[u32], p: u32) -> Option<Words>
    ensures { result ≡ words_of table.now p }
{
    let (rows, _) = table.as_chunks::<4>();
    let row = rows.get(p as usize)?;
    Some(Words::from(*row))
}
