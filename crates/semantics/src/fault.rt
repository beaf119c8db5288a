// Why a transition is not made, though a rule fits.
ghost use Rattle.std.specs.Prelude.{◌≡◌};
ghost use Rattle.semantics.specs.Faults.{cause_number, cause_location, number_of, row_of, location_of};
ghost use Rattle.semantics.specs.declared.fault.Cause.TheVariants.{Store, Arithmetic};

use crate::arithmetic::ArithmeticFault;
use cells::fault::StoreFault;

/// What stands against it: the store's refusal, as the store gave it, or the arithmetic.
#[derive(Clone, Copy, PartialEq, Eq, Debug)]
pub enum Cause {
    Store(StoreFault),
    Arithmetic(ArithmeticFault),
}

impl Cause {
    /// The question's number, 13 to 18.
    pub fn number(self) -> u8
        ensures { result ≡ cause_number self }
    {
        match self {
            Cause::Store(fault) => fault.number(),
            Cause::Arithmetic(fault) => fault.number(),
        }
    }

    /// The location of the store's refusal, and 0 of the arithmetic's.
    pub fn location(self) -> u8
        ensures { result ≡ cause_location self }
    {
        match self {
            Cause::Store(fault) => fault.location(),
            Cause::Arithmetic(_) => 0,
        }
    }
}

impl From<StoreFault> for Cause {
    ghost from_gives = { λ f r. r ≡ Store f };

    fn from(fault: StoreFault) -> Cause {
        Cause::Store(fault)
    }
}

impl From<ArithmeticFault> for Cause {
    ghost from_gives = { λ f r. r ≡ Arithmetic f };

    fn from(fault: ArithmeticFault) -> Cause {
        Cause::Arithmetic(fault)
    }
}

/// A cause, with the contents, arithmetic or assignment row that it was met at.
#[derive(Clone, Copy, PartialEq, Eq, Debug)]
pub struct Fault {
    pub row: u32,
    pub cause: Cause,
}

impl Fault {
    /// The question's number, 13 to 18.
    pub fn number(self) -> u8
        ensures { result ≡ number_of self }
    {
        self.cause.number()
    }

    /// The row that it was met at.
    pub fn row(self) -> u32
        ensures { result ≡ row_of self }
    {
        self.row
    }

    /// The location of the store's refusal, and 0 of the arithmetic's.
    pub fn location(self) -> u8
        ensures { result ≡ location_of self }
    {
        self.cause.location()
    }
}
