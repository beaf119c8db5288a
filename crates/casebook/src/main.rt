// Runs the twelve worked cases on a board, and prints how each ended.
#![tactic(auto)]

ghost use Rattle.std.specs.Prelude.{◌≡◌, ◌≤◌, Some};
ghost use Rattle.worked.specs.Lines.{claimed_line};

use std::io;
use worked::line::Line;

fn main(rt: HostRuntime) -> io::Result<()> {
    println!(rt; "case end row count")?;
    for number in 1..=12 {
        let line = line_of(number);
        println!(rt; "{line}")?;
    }
    Ok(())
}

// The line of a case, of which there are twelve.
fn line_of(number: u8) -> Line
    requires { (1 ≤ number) × (number ≤ 12) }
    ensures { Some result ≡ claimed_line number }
{
    Line::of_case(number).unwrap()
}
