// The line that keeps a job from being read.
ghost use Rattle.std.specs.Prelude.{Some};
ghost use Rattle.job.specs.Messages.{message_of};

use job_line::wrong::Wrong;
use std::fmt;

/// A line, counted from 1, and what is wrong with it.
#[derive(Clone, Copy, PartialEq, Eq, Debug)]
pub struct BadLine {
    pub line: usize,
    pub wrong: Wrong,
}

impl fmt::Display for BadLine {
    ghost output = { λ b. Some (message_of b) };

    fn fmt<W: fmt::Write>(&self, f: &mut fmt::Formatter<W>) -> fmt::Result {
        let BadLine { line, wrong } = *self;
        write!(f, "line {line}: {wrong}")
    }
}
