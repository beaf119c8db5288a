// Reads a rule table from standard input, and says what loading it answers.
#![tactic(auto)]

use crate::checked::checked;
use crate::complaint::Complaint;
use command::program::Command;
use command::trouble::Trouble;
use fields::read::ReadError;
use std::process::ExitCode;

mod checked;
mod complaint;
mod line;
#[cfg(test)]
mod tests;

const TABLECHECK: Command = Command {
    name: "tablecheck",
    help: "usage: tablecheck < TABLE

Reads a rule table from standard input: unsigned decimal words, parted by white space.
Prints one line:
  control K results R   the table loads, and its run needs so many places on the two stacks
  refused Q row P       question Q of loading gets a no at row P
A word that is no 32-bit number is told on standard error with its place, and the status is 1.",
};

fn main(rt: HostRuntime) -> ExitCode {
    TABLECHECK.run(&rt, check)
}

// Prints the answer for the table that is written in the text.
fn check(rt: &HostRuntime, text: &[u8]) -> Result<(), Trouble<String>> {
    let heap = rt.alloc();
    match checked(heap, text) {
        Ok(line) => println!(rt; "{line}")?,
        Err(ReadError::NoNumber(field)) => {
            let told = Complaint::of(text, field);
            return Err(Trouble::Input(format!(in heap; "tablecheck: {told}")?));
        }
        Err(ReadError::Memory) => return Err(Trouble::Memory),
    }
    Ok(())
}
