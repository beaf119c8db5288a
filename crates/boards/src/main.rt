// Runs a job: one table on several boards, each with a store, stacks and slices of its own.
#![tactic(auto)]

use crate::bench::{Outcome, run_all};
use crate::report::report;
use crate::verdict::verdict_on;
use command::program::Command;
use command::trouble::Trouble;
use job::bad_line::BadLine;
use job::job::Job;
use job::read::read;
use std::process::ExitCode;
use table::program::Program;

mod bench;
mod memory;
mod report;
mod verdict;

const BOARDS: Command = Command {
    name: "boards",
    help: "usage: boards < JOB

Reads a job from standard input, runs its table on each of its boards, and prints what each did.
A job has lines of these forms; a line that begins with # is a comment:
  limit N                              how many transitions a run may make
  table W...                           words of the table; further lines append
  cell L LOWEST HIGHEST free|fixed N   a cell that holds the number N; or unset for N
  board MAKE K R SLICE...              a store, the places of both stacks, and slices in order
MAKE is sheet, cover:FIRST:LAST, neighbours:SPLIT or pairs.
A line that is none of these is told on standard error with its number, and the status is 1.",
};

fn main(rt: HostRuntime) -> ExitCode {
    BOARDS.run(&rt, run)
}

fn run(rt: &HostRuntime, text: &[u8]) -> Result<(), Trouble<BadLine>> {
    let job = read(rt.alloc(), text).map_err(|bad| Trouble::Input(bad))?;
    run_job(rt, &job)
}

// Every board is run before anything is printed, so that want of memory leaves no half report.
fn run_job(rt: &HostRuntime, job: &Job) -> Result<(), Trouble<BadLine>> {
    let mut program = Program::new();
    match program.load(job.table.as_slice()) {
        Err(refusal) => println!(rt; "load: {refusal}")?,
        Ok(needs) => {
            let outcomes = run_all(rt.alloc(), &program, job)?;
            println!(rt; "load: {needs}")?;
            report_all(rt, outcomes.as_slice())?;
            println!(rt; "boards {}", verdict_on(outcomes.as_slice()))?;
        }
    }
    Ok(())
}

fn report_all(rt: &HostRuntime, outcomes: &[Outcome]) -> Result<(), Trouble<BadLine>> {
    for (i, outcome) in outcomes.iter().enumerate() {
        report(rt, i + 1, outcome)?;
    }
    Ok(())
}
