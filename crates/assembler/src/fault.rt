//! Why a text says no program.

ghost use Rattle.std.specs.Prelude.{◌≡◌, Some};
ghost use Rattle.assembler.specs.declared.fault.AsmFault.TheVariants.{Memory};
ghost use Rattle.assembler.specs.Reports.{asm_fault_text, line_of_fault, name_of_fault};

use std::alloc::{AllocError, AllocFailed};
use std::fmt::{self, Display, Formatter, Write};

/// The first fault of a text, with its line, counted from 1.
#[derive(Clone, Copy, Debug, PartialEq, Eq)]
pub enum AsmFault {
    /// A line's first word is no instruction's name.
    UnknownWord(usize),
    /// A line has a wrong number of operands, or one of a wrong form.
    BadOperand(usize),
    /// A number is too great or too small for its field.
    OutOfRange(usize),
    /// A jump leads to a label that stands nowhere.
    UnknownLabel(usize),
    /// A label stands at an earlier line too.
    DoubleLabel(usize),
    /// An instruction passes 4,096 slots.
    TooLong(usize),
    /// Memory was refused.
    Memory,
    /// There is no instruction.
    NoInstruction,
}

impl AsmFault {
    /// Its line, where it has one.
    pub fn line(&self) -> Option<usize>
        ensures { result ≡ line_of_fault self.now }
    {
        match *self {
            AsmFault::UnknownWord(line) => Some(line),
            AsmFault::BadOperand(line) => Some(line),
            AsmFault::OutOfRange(line) => Some(line),
            AsmFault::UnknownLabel(line) => Some(line),
            AsmFault::DoubleLabel(line) => Some(line),
            AsmFault::TooLong(line) => Some(line),
            AsmFault::Memory => None,
            AsmFault::NoInstruction => None,
        }
    }

    /// Its name, without the line.
    pub fn name(&self) -> &'static str
        ensures { result.now ≡ name_of_fault self.now }
    {
        match *self {
            AsmFault::UnknownWord(_) => "UnknownWord",
            AsmFault::BadOperand(_) => "BadOperand",
            AsmFault::OutOfRange(_) => "OutOfRange",
            AsmFault::UnknownLabel(_) => "UnknownLabel",
            AsmFault::DoubleLabel(_) => "DoubleLabel",
            AsmFault::TooLong(_) => "TooLong",
            AsmFault::Memory => "Memory",
            AsmFault::NoInstruction => "NoInstruction",
        }
    }
}

impl Display for AsmFault {
    ghost output = { λ fault. Some (asm_fault_text fault) };

    fn fmt<W: Write>(&self, f: &mut Formatter<W>) -> fmt::Result {
        let name = self.name();
        match self.line() {
            Some(line) => write!(f, "{name}({line})"),
            None => write!(f, "{name}"),
        }
    }
}

impl From<AllocError> for AsmFault {
    ghost from_gives = { λ _ e. e ≡ Memory };

    fn from(_e: AllocError) -> AsmFault {
        AsmFault::Memory
    }
}

impl<T: Drop> From<AllocFailed<T>> for AsmFault {
    ghost from_gives = { λ _ e. e ≡ Memory };

    fn from(_e: AllocFailed<T>) -> AsmFault {
        AsmFault::Memory
    }
}
