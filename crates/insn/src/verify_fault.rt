//! Why a program is not accepted.

ghost use Rattle.std.specs.Prelude.{◌≡◌, Some};
ghost use Rattle.insn.specs.FaultTexts.{verify_fault_text};
ghost use Rattle.insn.specs.Refusals.{look_fault_at, walk_fault_at};

use std::fmt::{self, Display, Formatter, Write};

/// Why a program is refused before any run. A slot is the first one of the instruction, counted from 0.
#[derive(Clone, Copy, Debug, PartialEq, Eq)]
pub enum VerifyFault {
    /// A jump leads past the end.
    JumpOut(usize),
    /// A jump leads back.
    JumpBack(usize),
    /// A jump leads to the second slot of a wide load.
    JumpIntoWide(usize),
    /// R10 is written.
    WritesR10(usize),
    /// The program may run on past its end.
    FallsOff(usize),
    /// A register is read that may be unset.
    UnsetRegister(usize),
    /// A byte of the stack is read that may be unset.
    UnsetByte(usize),
    /// An access may leave its region.
    OutOfRegion(usize),
    /// A byte of the record may be written that is only to be read.
    ReadOnlyField(usize),
    /// A pointer is used as it may not be.
    PointerMisuse(usize),
    /// The program's answer may be a pointer.
    ExitsWithPointer(usize),
    /// A pointer may be moved out of its region.
    PointerRange(usize),
    /// Memory was refused.
    Memory,
}

impl Display for VerifyFault {
    ghost output = { λ fault. Some (verify_fault_text fault) };

    fn fmt<W: Write>(&self, f: &mut Formatter<W>) -> fmt::Result {
        match self {
            VerifyFault::JumpOut(slot) => write!(f, "JumpOut({slot})"),
            VerifyFault::JumpBack(slot) => write!(f, "JumpBack({slot})"),
            VerifyFault::JumpIntoWide(slot) => write!(f, "JumpIntoWide({slot})"),
            VerifyFault::WritesR10(slot) => write!(f, "WritesR10({slot})"),
            VerifyFault::FallsOff(slot) => write!(f, "FallsOff({slot})"),
            VerifyFault::UnsetRegister(slot) => write!(f, "UnsetRegister({slot})"),
            VerifyFault::UnsetByte(slot) => write!(f, "UnsetByte({slot})"),
            VerifyFault::OutOfRegion(slot) => write!(f, "OutOfRegion({slot})"),
            VerifyFault::ReadOnlyField(slot) => write!(f, "ReadOnlyField({slot})"),
            VerifyFault::PointerMisuse(slot) => write!(f, "PointerMisuse({slot})"),
            VerifyFault::ExitsWithPointer(slot) => write!(f, "ExitsWithPointer({slot})"),
            VerifyFault::PointerRange(slot) => write!(f, "PointerRange({slot})"),
            VerifyFault::Memory => write!(f, "Memory"),
        }
    }
}

/// What the first look finds wrong with an instruction.
#[derive(Clone, Copy, Debug, PartialEq, Eq)]
pub enum LookFault {
    JumpOut,
    JumpBack,
    JumpIntoWide,
    WritesR10,
}

impl LookFault {
    /// The fault at a slot.
    pub fn at(self, slot: usize) -> VerifyFault
        ensures { result ≡ look_fault_at self slot }
    {
        match self {
            LookFault::JumpOut => VerifyFault::JumpOut(slot),
            LookFault::JumpBack => VerifyFault::JumpBack(slot),
            LookFault::JumpIntoWide => VerifyFault::JumpIntoWide(slot),
            LookFault::WritesR10 => VerifyFault::WritesR10(slot),
        }
    }
}

/// What a walk over the program's paths finds wrong with an instruction.
#[derive(Clone, Copy, Debug, PartialEq, Eq)]
pub enum WalkFault {
    FallsOff,
    UnsetRegister,
    UnsetByte,
    OutOfRegion,
    ReadOnlyField,
    PointerMisuse,
    ExitsWithPointer,
    PointerRange,
}

impl WalkFault {
    /// The fault at a slot.
    pub fn at(self, slot: usize) -> VerifyFault
        ensures { result ≡ walk_fault_at self slot }
    {
        match self {
            WalkFault::FallsOff => VerifyFault::FallsOff(slot),
            WalkFault::UnsetRegister => VerifyFault::UnsetRegister(slot),
            WalkFault::UnsetByte => VerifyFault::UnsetByte(slot),
            WalkFault::OutOfRegion => VerifyFault::OutOfRegion(slot),
            WalkFault::ReadOnlyField => VerifyFault::ReadOnlyField(slot),
            WalkFault::PointerMisuse => VerifyFault::PointerMisuse(slot),
            WalkFault::ExitsWithPointer => VerifyFault::ExitsWithPointer(slot),
            WalkFault::PointerRange => VerifyFault::PointerRange(slot),
        }
    }
}
