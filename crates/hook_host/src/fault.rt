//! Why a hook is not installed or removed.

ghost use Rattle.std.specs.Prelude.{◌≡◌, Some};
ghost use Rattle.hook_host.specs.Faults.{hook_fault_text, of_decoding, of_verifying};

use insn::fault::InsnFault;
use insn::verify_fault::VerifyFault;
use std::alloc::AllocError;
use std::fmt::{self, Display, Formatter, Write};

/// Why a hook is not installed or removed.
#[derive(Clone, Copy, Debug, PartialEq, Eq)]
pub enum HookFault {
    /// The bytes are no program.
    Insn(InsnFault),
    /// The program is not accepted.
    Verify(VerifyFault),
    /// A hook has that name.
    NameTaken,
    /// The name is not 1 to 32 of `a-z`, `0-9` and `-`.
    BadName,
    /// There is no room for a further hook.
    Full,
    /// No hook has that name.
    Unknown,
    /// Memory was refused.
    Memory,
}

impl Display for HookFault {
    ghost output = { λ fault. Some (hook_fault_text fault) };

    fn fmt<W: Write>(&self, f: &mut Formatter<W>) -> fmt::Result {
        match self {
            HookFault::Insn(fault) => write!(f, "Insn {fault}"),
            HookFault::Verify(fault) => write!(f, "Verify {fault}"),
            HookFault::NameTaken => write!(f, "NameTaken"),
            HookFault::BadName => write!(f, "BadName"),
            HookFault::Full => write!(f, "Full"),
            HookFault::Unknown => write!(f, "Unknown"),
            HookFault::Memory => write!(f, "Memory"),
        }
    }
}

impl From<InsnFault> for HookFault {
    ghost from_gives = { λ fault e. e ≡ of_decoding fault };

    fn from(fault: InsnFault) -> HookFault {
        match fault {
            InsnFault::Memory => HookFault::Memory,
            fault => HookFault::Insn(fault),
        }
    }
}

impl From<VerifyFault> for HookFault {
    ghost from_gives = { λ fault e. e ≡ of_verifying fault };

    fn from(fault: VerifyFault) -> HookFault {
        match fault {
            VerifyFault::Memory => HookFault::Memory,
            fault => HookFault::Verify(fault),
        }
    }
}

impl From<AllocError> for HookFault {
    ghost use Rattle.hook_host.specs.declared.fault.HookFault.TheVariants.{Memory};

    ghost from_gives = { λ _ e. e ≡ Memory };

    fn from(_: AllocError) -> HookFault {
        HookFault::Memory
    }
}
