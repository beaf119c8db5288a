// A program that works on its standard input.
ghost use Rattle.std.specs.Prelude.{◌≡◌, ◌≤◌, is_ok, if◌then◌else◌};
ghost use Rattle.std.specs.Process.{exit_status};

use crate::arguments::{Request, asked_for};
use crate::trouble::Trouble;
use std::fmt;
use std::io::Read;
use std::process::ExitCode;

/// What a program tells of itself.
#[derive(Clone, Copy)]
pub struct Command {
    /// Its name, as messages begin.
    pub name: &'static str,
    pub help: &'static str,
}

impl Command {
    // Tells the help, or does the work on all of standard input.
    fn serve<W, F: FnOnce(&HostRuntime, &[u8]) -> Result<(), Trouble<W>>>(
        &self,
        rt: &HostRuntime,
        work: F,
    ) -> Result<(), Trouble<W>>
        requires { F.IsAlwaysCallable work }
    {
        match asked_for(rt)? {
            Request::Help => println!(rt; "{}", self.help)?,
            Request::Run => {
                let mut input = Vec::new(rt.alloc());
                rt.stdin().read_to_end(&mut input)?;
                work(rt, input.as_slice())?;
            }
        }
        Ok(())
    }

    /// Tells what went wrong, if anything did, and answers the status. What is wrong with the input tells its whole line by
    /// itself, all else follows the program's name.
    pub fn end<W: fmt::Display + Drop>(
        &self,
        rt: &HostRuntime,
        done: Result<(), Trouble<W>>,
    ) -> ExitCode
        ensures { exit_status result ≡ (if is_ok done then 0 else 1) }
    {
        match done {
            Ok(()) => return ExitCode::SUCCESS,
            Err(Trouble::Input(wrong)) => {
                let _ = eprintln!(rt; "{wrong}");
            }
            Err(trouble) => {
                let _ = eprintln!(rt; "{}: {trouble}", self.name);
            }
        }
        ExitCode::FAILURE
    }

    /// Tells the help where the command line asks for it, else does the work on all of standard input.
    ///
    /// What goes wrong is told once, on standard error, and the status is then 1: what is wrong with the input by its own
    /// line, all else after the program's name.
    pub fn run<W: fmt::Display + Drop, F: FnOnce(&HostRuntime, &[u8]) -> Result<(), Trouble<W>>>(
        &self,
        rt: &HostRuntime,
        work: F,
    ) -> ExitCode
        requires { F.IsAlwaysCallable work }
        ensures { exit_status result ≤ 1 }
    {
        self.end(rt, self.serve(rt, work))
    }
}
