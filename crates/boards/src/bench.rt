// The boards of a job, run two by two.
ghost use Rattle.std.specs.Prelude.{◌≡◌};

use crate::memory::{CellMemory, Scratch};
use cells::cell::Cell;
use history::follow::{Fate, follow};
use history::turn::Turn;
use history::two_boards::two_boards;
use job::job::Job;
use job::{BoardLine, Make};
use machine::run::{BeginRefusal, Ended, Progress};
use pair_list::pairs::PairList;
use sheet::sheet::Sheet;
use std::alloc::{AllocError, Global};
use store::cover::Cover;
use store::known::KnownCells;
use store::neighbours::Neighbours;
use store::store::Store;
use table::program::Program;
use transition::machine::Machine;

/// How a board stands when its slices are used up.
// No Result<Option<Ended>, BeginRefusal>: its None would have to be read as "still running".
#[derive(Clone, Copy)]
pub enum Standing {
    Refused(BeginRefusal),
    Running,
    Ended(Ended),
}

impl From<Fate> for Standing {
    // A run that has not ended is given up here: its count stands in its last turn.
    fn from(fate: Fate) -> Standing {
        match fate {
            Err(refusal) => Standing::Refused(refusal),
            Ok(Progress::Running(running)) => {
                running.give_up();
                Standing::Running
            }
            Ok(Progress::Ended(ended)) => Standing::Ended(ended),
        }
    }
}

impl Standing {
    /// The end, where it has ended.
    pub fn ended(self) -> Option<Ended> {
        match self {
            Standing::Ended(ended) => Some(ended),
            Standing::Refused(_) | Standing::Running => None,
        }
    }
}

/// What a board did: how it stands, what became of each slice, and its cells.
#[derive(Drop)]
pub struct Outcome {
    pub make: Make,
    pub standing: Standing,
    pub turns: Vec<Turn>,
    pub cells: [Cell; 256],
}

fn cells_of<S: Store>(store: &S) -> [Cell; 256] {
    let mut cells = [Cell::Unknown; 256];
    for (location, cell) in KnownCells::of(store) {
        cells[location as usize] = Cell::Known(cell);
    }
    cells
}

// How a board stands, and its cells.
type Told = (Standing, [Cell; 256]);

fn told<S: Store>(fate: Fate, store: &S) -> Told {
    (Standing::from(fate), cells_of(store))
}

// Everything that a board is built of.
#[derive(Drop)]
struct Bench {
    // For the report alone: the memory has what the store needs of it.
    make: Make,
    memory: CellMemory,
    scratch: Scratch,
}

impl Bench {
    fn new(heap: Global, board: &BoardLine, cells: &[Cell; 256]) -> Result<Bench, AllocError> {
        Ok(Bench {
            make: board.make,
            memory: CellMemory::new(heap, board.make, cells)?,
            scratch: Scratch::new(heap, board)?,
        })
    }

    fn outcome(self, told: Told) -> Outcome {
        let (standing, cells) = told;
        let Bench {
            make,
            memory: _,
            scratch,
        } = self;
        Outcome {
            make,
            standing,
            turns: scratch.turns,
            cells,
        }
    }
}

// The body, at the store over that memory, with a copy of its own for each make. Tried in its place: a trait
// with a method that is generic over stores, where the inner of two such calls loses what is known of the outer
// one's store; and an enum of the four stores that is a store itself, where the borrow checker does not cover
// an enum with a variant that holds a struct with a `&mut`.
macro_rules! at_store {
    ($memory:expr, $store:ident => $body:expr) => {
        match $memory {
            CellMemory::Sheet(records) => {
                let mut $store = Sheet::new(records);
                $body
            }
            CellMemory::Cover(memory) => {
                let sheet = Sheet::new(&mut memory.records);
                let mut $store = Cover::new(sheet, memory.first, memory.last);
                $body
            }
            CellMemory::Neighbours(memory) => {
                let left = Sheet::new(&mut memory.left);
                let right = Sheet::new(&mut memory.right);
                let mut $store = Neighbours::new(left, right, memory.split);
                $body
            }
            CellMemory::Pairs(words) => {
                let mut $store = PairList::new(words.as_mut_slice());
                $body
            }
        }
    };
}

// What the boards of a job have in common.
#[derive(Clone, Copy)]
struct Common<'a> {
    program: &'a Program<'a>,
    limit: u32,
}

impl Common<'_> {
    // One board by itself.
    fn run_one<S: Store>(self, store: &mut S, scratch: &mut Scratch) -> Told
        ensures { S.rests store.new ≡ S.rests store.old }
    {
        let (mut machine, turns) = scratch.machine(&mut *store);
        let fate = follow(self.program, &mut machine, self.limit, turns);
        // Taken apart by name, the machine gives the loan back, and with it what the run left in the store.
        let Machine {
            stacks: _,
            store: lent,
        } = machine;
        let _ = lent;
        told(fate, &*store)
    }

    // Two boards, of whatever makes. The steps of one, twice: `two_boards` has to have both machines at once.
    fn run_two<A: Store, B: Store>(
        self,
        store1: &mut A,
        scratch1: &mut Scratch,
        store2: &mut B,
        scratch2: &mut Scratch,
    ) -> (Told, Told)
        ensures { (A.Store.rests store1.new ≡ A.Store.rests store1.old) × (B.Store.rests store2.new ≡ B.Store.rests store2.old) }
    {
        let (mut machine1, turns1) = scratch1.machine(&mut *store1);
        let (mut machine2, turns2) = scratch2.machine(&mut *store2);
        let (fate1, fate2) = two_boards(
            self.program,
            self.limit,
            &mut machine1,
            turns1,
            &mut machine2,
            turns2,
        );
        let Machine {
            stacks: _,
            store: lent1,
        } = machine1;
        let Machine {
            stacks: _,
            store: lent2,
        } = machine2;
        let (_, _) = (lent1, lent2);
        (told(fate1, &*store1), told(fate2, &*store2))
    }

    // A board, over the store of its make.
    fn run_board(self, bench: &mut Bench) -> Told {
        let Bench {
            memory,
            scratch,
            ..
        } = bench;
        at_store!(memory, store => self.run_one(&mut store, scratch))
    }

    // A second board, over the store of its make, beside the first one's store.
    fn run_beside<A: Store>(
        self,
        store1: &mut A,
        scratch1: &mut Scratch,
        second: &mut Bench,
    ) -> (Told, Told)
        ensures { A.rests store1.new ≡ A.rests store1.old }
    {
        let Bench {
            memory,
            scratch,
            ..
        } = second;
        at_store!(memory, store2 => self.run_two(store1, scratch1, &mut store2, scratch))
    }

    // Two boards, the first over the store of its make.
    fn run_boards(self, first: &mut Bench, second: &mut Bench) -> (Told, Told) {
        let Bench {
            memory,
            scratch,
            ..
        } = first;
        at_store!(memory, store1 => self.run_beside(&mut store1, scratch, second))
    }
}

/// What each board of the job did, in their order: they are run two by two, and an odd one by itself.
pub fn run_all(heap: Global, program: &Program<'_>, job: &Job) -> Result<Vec<Outcome>, AllocError> {
    let common = Common {
        program,
        limit: job.limit,
    };
    let mut outcomes = Vec::new(heap);
    for boards in job.boards.as_slice().chunks(2) {
        match boards {
            [first, second] => {
                let mut bench1 = Bench::new(heap, first, &job.cells)?;
                let mut bench2 = Bench::new(heap, second, &job.cells)?;
                let (told1, told2) = common.run_boards(&mut bench1, &mut bench2);
                outcomes.push(bench1.outcome(told1))?;
                outcomes.push(bench2.outcome(told2))?;
            }
            [odd] => {
                let mut bench = Bench::new(heap, odd, &job.cells)?;
                let told = common.run_board(&mut bench);
                outcomes.push(bench.outcome(told))?;
            }
            _ => {}
        }
    }
    Ok(outcomes)
}
