//! Why bytes are no program.

ghost use Rattle.std.specs.Prelude.{◌≡◌, Some};
ghost use Rattle.insn.specs.declared.fault.InsnFault.TheVariants.{Memory};
ghost use Rattle.insn.specs.FaultTexts.{insn_fault_text};

use std::alloc::{AllocError, AllocFailed};
use std::fmt::{self, Display, Formatter, Write};

/// The first fault of some bytes. A slot is the first one of the instruction, counted from 0.
#[derive(Clone, Copy, Debug, PartialEq, Eq)]
pub enum InsnFault {
    /// There are no bytes.
    Empty,
    /// The number of bytes is no multiple of 8.
    BadLength,
    /// There are more than 4,096 slots.
    TooLong,
    /// The table of opcodes lacks this one.
    UnknownOpcode(usize),
    /// A register field that is used is above 10.
    BadRegister(usize),
    /// A field that is not used is not 0, or a field has a value that the table lacks.
    NonzeroField(usize),
    /// A wide load lacks its second slot.
    TruncatedWide(usize),
    /// An atomic operation, which hooks don't have.
    Atomic(usize),
    /// A call, which hooks don't have.
    Call(usize),
    /// A legacy packet load, which hooks don't have.
    LegacyLoad(usize),
    /// Memory was refused.
    Memory,
}

impl Display for InsnFault {
    ghost output = { λ fault. Some (insn_fault_text fault) };

    fn fmt<W: Write>(&self, f: &mut Formatter<W>) -> fmt::Result {
        match self {
            InsnFault::Empty => write!(f, "Empty"),
            InsnFault::BadLength => write!(f, "BadLength"),
            InsnFault::TooLong => write!(f, "TooLong"),
            InsnFault::UnknownOpcode(slot) => write!(f, "UnknownOpcode({slot})"),
            InsnFault::BadRegister(slot) => write!(f, "BadRegister({slot})"),
            InsnFault::NonzeroField(slot) => write!(f, "NonzeroField({slot})"),
            InsnFault::TruncatedWide(slot) => write!(f, "TruncatedWide({slot})"),
            InsnFault::Atomic(slot) => write!(f, "Atomic({slot})"),
            InsnFault::Call(slot) => write!(f, "Call({slot})"),
            InsnFault::LegacyLoad(slot) => write!(f, "LegacyLoad({slot})"),
            InsnFault::Memory => write!(f, "Memory"),
        }
    }
}

impl From<AllocError> for InsnFault {
    ghost from_gives = { λ _ e. e ≡ Memory };

    fn from(_e: AllocError) -> InsnFault {
        InsnFault::Memory
    }
}

impl<T: Drop> From<AllocFailed<T>> for InsnFault {
    ghost from_gives = { λ _ e. e ≡ Memory };

    fn from(_e: AllocFailed<T>) -> InsnFault {
        InsnFault::Memory
    }
}
