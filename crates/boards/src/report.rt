// What a board did, line by line.
use crate::bench::{Outcome, Standing};
use cells::cell::Cell;
use history::turn::{Seen, Turn};
use std::io;

fn turn_line(rt: &HostRuntime, turn: &Turn) -> io::Result<()> {
    let slice = turn.slice;
    match turn.seen {
        Seen::Unused => Ok(()),
        // Every slice that is turned down is so by question 11.
        Seen::TurnedDown => println!(rt; "slice {slice}: refused 11"),
        Seen::Running(count) => println!(rt; "slice {slice}: running count {count}"),
        Seen::Ended(ended) => {
            let (end, row) = (ended.number(), ended.row());
            let (location, count) = (ended.location(), ended.count());
            println!(rt; "slice {slice}: end {end} row {row} location {location} count {count}")
        }
    }
}

fn cell_lines(rt: &HostRuntime, cells: &[Cell; 256]) -> io::Result<()> {
    for (i, cell) in cells.iter().enumerate() {
        if let Cell::Known(cell) = cell {
            match cell.content {
                None => println!(rt; "cell {i}: unset")?,
                Some(n) => println!(rt; "cell {i}: {n}")?,
            }
        }
    }
    Ok(())
}

/// The lines of the board with that number.
pub fn report(rt: &HostRuntime, number: usize, outcome: &Outcome) -> io::Result<()> {
    println!(rt; "board {number} {}", outcome.make)?;
    match outcome.standing {
        Standing::Refused(refusal) => println!(rt; "begin: refused {}", refusal.number())?,
        Standing::Running | Standing::Ended(_) => println!(rt; "begin: ok")?,
    }
    for turn in &outcome.turns {
        turn_line(rt, turn)?;
    }
    cell_lines(rt, &outcome.cells)
}
