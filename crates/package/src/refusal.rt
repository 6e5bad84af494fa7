// Why a package is refused.
ghost use Rattle.std.specs.Prelude.{◌≡◌};
ghost use Rattle.package.specs.declared.refusal.Refusal.TheVariants.{Memory};
ghost use Rattle.package.specs.Faults.{number as number_of, offset as offset_of, fault_of, HasNumber};

use commands::Unread;
use std::alloc::{AllocError, AllocFailed};

// What is wrong with a package, by its number.
#[derive(Clone, Copy, Debug, PartialEq, Eq)]
pub enum Fault {
    // More than 8,192 bytes.
    TooLong = 1,
    // The bytes end inside a declaration, or before FINISH.
    EndsEarly = 2,
    // No declaration, or no command, has this byte.
    NoSuchByte = 3,
    // The leading byte is below that of the declaration before.
    ByteFalls = 4,
    // One more than a limit allows.
    OverLimit = 5,
    // A number that is not declared, a table's place that is no cell, or a call of a procedure that is not lower.
    NotDeclared = 6,
    // A command that gives an input a value.
    InputAsTarget = 7,
    // An operand or a block past the end of the block around it, a loop of no turns, or a table of no cells.
    PastEnd = 8,
    // Blocks nested too deep, or a procedure too high.
    TooDeep = 9,
    // A body, or a cycle, of too many steps.
    TooManySteps = 10,
    // Bytes after FINISH.
    AfterFinish = 11,
}

// A number that no fault has.
#[derive(Clone, Copy, Debug, PartialEq, Eq)]
pub struct NoSuchFault(pub u8);

// The fault that has this number.
impl TryFrom<u8> for Fault {
    type Error = NoSuchFault;

    ghost try_from_gives = { HasNumber };

    fn try_from(number: u8) -> Result<Fault, NoSuchFault> {
        match number {
            1 => Ok(Fault::TooLong),
            2 => Ok(Fault::EndsEarly),
            3 => Ok(Fault::NoSuchByte),
            4 => Ok(Fault::ByteFalls),
            5 => Ok(Fault::OverLimit),
            6 => Ok(Fault::NotDeclared),
            7 => Ok(Fault::InputAsTarget),
            8 => Ok(Fault::PastEnd),
            9 => Ok(Fault::TooDeep),
            10 => Ok(Fault::TooManySteps),
            11 => Ok(Fault::AfterFinish),
            _ => Err(NoSuchFault(number)),
        }
    }
}

// Why a package is refused: a fault and the offset at which it stands, or there was not enough memory.
#[derive(Clone, Copy, Debug, PartialEq, Eq)]
pub enum Refusal {
    Fault(Fault, usize),
    Memory,
}

impl Refusal {
    // The number of the fault, 0 for want of memory.
    pub fn number(self) -> u8
        ensures { result ≡ number_of self }
    {
        match self {
            Refusal::Fault(fault, _) => fault as u8,
            Refusal::Memory => 0,
        }
    }

    // The offset at which the fault stands, 0 for want of memory.
    pub fn offset(self) -> usize
        ensures { result ≡ offset_of self }
    {
        match self {
            Refusal::Fault(_, offset) => offset,
            Refusal::Memory => 0,
        }
    }
}

impl From<Unread> for Fault {
    ghost from_gives = { λ unread fault. fault ≡ fault_of unread };

    fn from(unread: Unread) -> Fault {
        match unread {
            Unread::NoSuchByte => Fault::NoSuchByte,
            Unread::PastEnd => Fault::PastEnd,
        }
    }
}

impl From<AllocError> for Refusal {
    ghost from_gives = { λ _ refusal. refusal ≡ Memory };

    fn from(_error: AllocError) -> Refusal {
        Refusal::Memory
    }
}

impl<T: Drop> From<AllocFailed<T>> for Refusal {
    ghost from_gives = { λ _ refusal. refusal ≡ Memory };

    fn from(_error: AllocFailed<T>) -> Refusal {
        Refusal::Memory
    }
}
