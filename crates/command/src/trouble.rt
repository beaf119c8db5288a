// Why a program ends with status 1.
ghost use Rattle.std.specs.Prelude.{◌≡◌};
ghost use Rattle.command.specs.declared.trouble.Trouble.TheVariants.{Memory, Io};
ghost use Rattle.command.specs.Troubles.{message_of};

use std::alloc::AllocError;
use std::{fmt, io};

/// What went wrong, as it is told on standard error; `W` is what can be wrong with the input.
#[derive(Drop)]
pub enum Trouble<W> {
    /// An argument that the program does not know.
    Argument(String),
    /// What is wrong with the input.
    Input(W),
    Memory,
    /// Reading or writing failed.
    Io(io::Error),
}

impl<W> From<AllocError> for Trouble<W> {
    ghost from_gives = { λ _ r. r ≡ Memory };

    fn from(_e: AllocError) -> Trouble<W> {
        Trouble::Memory
    }
}

impl<W> From<io::Error> for Trouble<W> {
    ghost from_gives = { λ e r. r ≡ Io e };

    fn from(e: io::Error) -> Trouble<W> {
        Trouble::Io(e)
    }
}

impl<W: fmt::Display> fmt::Display for Trouble<W> {
    ghost output = { message_of W.output };

    fn fmt<F: fmt::Write>(&self, f: &mut fmt::Formatter<F>) -> fmt::Result {
        match self {
            Trouble::Argument(arg) => write!(
                f,
                "{arg:?} is no argument of mine: --help tells more"
            ),
            Trouble::Input(wrong) => write!(f, "{wrong}"),
            Trouble::Memory => write!(f, "out of memory"),
            Trouble::Io(e) => write!(f, "{e}"),
        }
    }
}
