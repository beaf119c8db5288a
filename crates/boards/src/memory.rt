// The memory that a board lends to its store, its stacks and its plan.
ghost use Rattle.std.specs.Prelude.{◌≡◌, [], length};
ghost use Rattle.std.specs.Vec as vecs;
ghost use Rattle.stack.specs.Contents.{contents, places};

use cells::cell::{Cell, KnownCell};
use history::turn::{Seen, Turn};
use job::{BoardLine, Make};
use semantics::item::{Control, Item};
use sheet::record::Record;
use std::alloc::{AllocError, Global};
use transition::machine::Machine;

/// What a board has besides its cells.
#[derive(Drop)]
pub struct Scratch {
    pub control: Vec<Control>,
    pub results: Vec<Item>,
    pub turns: Vec<Turn>,
}

impl Scratch {
    /// As many places and turns as the line asks for.
    pub fn new(heap: Global, board: &BoardLine) -> Result<Scratch, AllocError> {
        let mut control = Vec::new(heap);
        control.resize(board.control, Control::Whole(0))?;
        let mut results = Vec::new(heap);
        results.resize(board.results, Item::Row(0))?;
        let mut turns = Vec::new(heap);
        for slice in &board.slices {
            turns.push(Turn {
                slice: *slice,
                seen: Seen::Unused,
            })?;
        }
        Ok(Scratch {
            control,
            results,
            turns,
        })
    }

    /// A machine with these stacks over that store, and the turns beside it.
    pub fn machine<'a, S>(
        &'a mut self,
        store: &'a mut S,
    ) -> (Machine<'a, 'a, 'a, S>, &'a mut [Turn])
        ensures control { (contents result.0.stacks.control ≡ []) × (places result.0.stacks.control ≡ length (vecs.vec_items self.old.control)) }
        ensures results { (contents result.0.stacks.results ≡ []) × (places result.0.stacks.results ≡ length (vecs.vec_items self.old.results)) }
        ensures turns { result.1.now ≡ vecs.vec_items self.old.turns }
        ensures store { result.0.store.now ≡ store.old }
        ensures lends { result.0.store.ghost_name ≡ store.entry.ghost_name }
    {
        let machine = Machine::new(
            self.control.as_mut_slice(),
            self.results.as_mut_slice(),
            store,
        );
        (machine, self.turns.as_mut_slice())
    }
}

/// What the cells of a board lie in, by the make of its store.
// A variant holds one value, since the borrow checker binds no two fields of a variant that has an array.
#[derive(Drop)]
pub enum CellMemory {
    Sheet([Record; 256]),
    Cover(CoverMemory),
    Neighbours(NeighboursMemory),
    /// Words of pairs.
    Pairs(Vec<i32>),
}

/// Records of a sheet, and the first and the last location of the cover over it.
#[derive(Drop)]
pub struct CoverMemory {
    pub records: [Record; 256],
    pub first: u8,
    pub last: u8,
}

/// Records of two sheets, and the location at which the second one begins.
#[derive(Drop)]
pub struct NeighboursMemory {
    pub left: [Record; 256],
    pub right: [Record; 256],
    pub split: u8,
}

// Records of those cells, from the first record on; the others are of unknown cells.
fn records_of(cells: &[Cell]) -> [Record; 256] {
    let mut records = [Record::blank(); 256];
    for (record, cell) in records.iter_mut().zip(cells) {
        if let Cell::Known(known) = cell {
            *record = Record::from(*known);
        }
    }
    records
}

// A pair of words for each cell that has a content.
fn words_of(heap: Global, cells: &[Cell; 256]) -> Result<Vec<i32>, AllocError> {
    let mut words = Vec::new(heap);
    for (i, cell) in cells.iter().enumerate() {
        if let Cell::Known(
            KnownCell {
                content: Some(n),
                ..
            },
        ) = cell
        {
            words.push(i as i32)?;
            words.push(*n)?;
        }
    }
    Ok(words)
}

impl CellMemory {
    /// The cells, laid out as the make has them.
    pub fn new(heap: Global, make: Make, cells: &[Cell; 256]) -> Result<CellMemory, AllocError> {
        match make {
            Make::Sheet => Ok(CellMemory::Sheet(records_of(cells))),
            Make::Cover(first, last) => Ok(CellMemory::Cover(CoverMemory {
                records: records_of(cells),
                first,
                last,
            })),
            Make::Neighbours(split) => {
                let (left, right) = cells.split_at(split as usize);
                Ok(CellMemory::Neighbours(NeighboursMemory {
                    left: records_of(left),
                    right: records_of(right),
                    split,
                }))
            }
            Make::Pairs => Ok(CellMemory::Pairs(words_of(heap, cells)?)),
        }
    }
}
