// Small programs, cells and runs for the examples.
use cells::cell::{KnownCell, Mark};
use machine::run::begin::begin;
use machine::run::go_on::go_on;
use machine::run::{Progress, Running, TurnedDown};
use semantics::item::{Control, Item};
use sheet::record::Record;
use sheet::sheet::Sheet;
use stack::stack::Stack;
use table::program::Program;
use transition::machine::Machine;
use transition::pair::StackPair;

/// l3 := 7
pub const PUT_SEVEN: [u32; 8] = [0, 7, 0, 0, 8, 3, 0, 0];

/// l3 := !l9
pub const COPY_NINE: [u32; 8] = [1, 9, 0, 0, 8, 3, 0, 0];

/// while true do skip
pub const SPIN: [u32; 12] = [3, 1, 0, 0, 7, 0, 0, 0, 11, 0, 1, 0];

/// Free, unset and of the widest limits.
pub fn plain() -> Record {
    Record::from(KnownCell::widest(None))
}

/// From 0 to 6, holding 5, fixed or free.
pub fn narrow(mark: Mark) -> Record {
    Record::from(KnownCell {
        lowest: 0,
        highest: 6,
        mark,
        content: Some(5),
    })
}

/// The end's number, row, location and count.
pub type Told = (u8, u32, u8, u32);

/// What a progress tells; a run that goes on tells 255 for its end.
pub fn told(progress: Progress) -> Told {
    match progress {
        Progress::Ended(ended) => (ended.number(), ended.row(), ended.location(), ended.count()),
        Progress::Running(running) => (255, 0, 0, running.give_up()),
    }
}

/// Goes on, and tells what came of it; a slice that is turned down tells its number for its end.
pub fn on(
    running: Running,
    program: &Program<'_>,
    machine: &mut Machine<'_, '_, '_, Sheet<'_>>,
    slice: u32,
) -> Told {
    match go_on(running, program, machine, slice) {
        Ok(progress) => told(progress),
        Err(down) => {
            let number = down.number();
            let TurnedDown { running } = down;
            (number, 0, 0, running.give_up())
        }
    }
}

/// Begins a run on ample stacks with that limit, and goes on for one slice.
pub fn run(words: &[u32], records: &mut [Record], limit: u32, slice: u32) -> Told {
    let mut program = Program::new();
    if program.load(words).is_err() {
        return (1, 0, 0, 0);
    }
    let mut control = [Control::Whole(0); 16];
    let mut results = [Item::Row(0); 16];
    let mut stacks = StackPair {
        control: Stack::new(&mut control),
        results: Stack::new(&mut results),
    };
    let mut sheet = Sheet::new(records);
    let running = match begin(&program, &mut stacks, &sheet, limit) {
        Ok(running) => running,
        Err(refusal) => return (refusal.number(), 0, 0, 0),
    };
    let mut machine = Machine {
        stacks,
        store: &mut sheet,
    };
    on(running, &program, &mut machine, slice)
}
