//! Why a command about a hook has no answer.

ghost use Rattle.std.specs.Prelude.{◌≡◌};
ghost use Rattle.hook_commands.specs.declared.fault.HookCommandFault.TheVariants.{OutOfMemory};

use assembler::AsmFault;
use insn::fault::InsnFault;
use insn::verify_fault::VerifyFault;
use std::alloc::AllocError;
use std::fmt::{self, Display, Formatter, Write};

/// Why a command about a hook has no answer.
#[derive(Debug, Drop)]
pub enum HookCommandFault<'w> {
    /// What is to be hex of some code is none, or words tell no ask.
    BadArguments,
    /// The record is not hex, or what it spells is no record.
    BadRecord,
    /// The file of this path cannot be read.
    CannotRead(&'w str),
    /// The file of this path is an ELF file, where the code of a program is wanted.
    IsElf(&'w str),
    /// The file of this path is neither hex nor the bytes of a program.
    IsNotHex(&'w str),
    /// The text says no program, or memory was refused; and the word that names no instruction, where that is the fault.
    Text(AsmFault, Option<String>),
    /// The code is no program, or memory was refused.
    Insn(InsnFault),
    /// The program is not accepted, or memory was refused.
    Verify(VerifyFault),
    /// Memory was refused.
    OutOfMemory,
}

impl<'w> Display for HookCommandFault<'w> {
    fn fmt<W: Write>(&self, f: &mut Formatter<W>) -> fmt::Result {
        match self {
            HookCommandFault::BadArguments => write!(f, "bad arguments"),
            HookCommandFault::BadRecord => write!(f, "bad record"),
            HookCommandFault::CannotRead(path) => write!(f, "cannot read {path}"),
            HookCommandFault::IsElf(path) => write!(f, "ELF file: {path}"),
            HookCommandFault::IsNotHex(path) => write!(f, "not hex: {path}"),
            HookCommandFault::Text(AsmFault::Memory, _)
            | HookCommandFault::Insn(InsnFault::Memory)
            | HookCommandFault::Verify(VerifyFault::Memory)
            | HookCommandFault::OutOfMemory => write!(f, "out of memory"),
            HookCommandFault::Text(fault, word) => {
                let name = fault.name();
                match (fault.line(), word) {
                    (Some(line), Some(word)) => write!(f, "line {line}: {name} {word:?}"),
                    (Some(line), None) => write!(f, "line {line}: {name}"),
                    (None, _) => write!(f, "{name}"),
                }
            }
            HookCommandFault::Insn(fault) => write!(f, "Insn {fault}"),
            HookCommandFault::Verify(fault) => write!(f, "Verify {fault}"),
        }
    }
}

impl<'w> From<AllocError> for HookCommandFault<'w> {
    ghost from_gives = { λ _ f. f ≡ OutOfMemory };

    fn from(_error: AllocError) -> HookCommandFault<'w> {
        HookCommandFault::OutOfMemory
    }
}
