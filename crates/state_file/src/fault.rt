//! Why a server is not started on a state file.

ghost use Rattle.std.specs.Prelude.{◌≡◌};
ghost use Rattle.state_file.specs.Faults.{of_adding, of_reading, of_redoing, of_replacing, of_encoding, state_fault_of_decoding};
ghost use Rattle.state_file.specs.declared.fault.StateFault.TheVariants.{Memory};

use batch_file::device::ReplaceFault;
use batch_file::frames::AddFault;
use batch_file::framing::ReadFault;
use endpoints::RedoFault;
use hook_host::HookFault;
use std::alloc::{AllocError, AllocFailed};
use std::fmt::{self, Display, Formatter, Write};
use system_faults::SystemFault;
use wire::{DecodeFault, EncodeFault, Fault};

/// Why a server is not started on a state file.
#[derive(Debug, Drop)]
pub enum StateFault {
    /// Memory was refused.
    Memory,
    /// It is no state file.
    NotState,
    /// It is a state file of this other version.
    Version(u8),
    /// So many batches are right, and what is behind them is damaged.
    Damaged(usize),
    /// No other file could be put in the place of this one, which stands as it was.
    Unplaced(SystemFault),
    /// The disk failed.
    Device(SystemFault),
    /// What is to be added has 2^32 bytes or more.
    Full,
    /// The registry's rules are too long to be told: the length of a name, or how many names there are, takes more than
    /// four bytes.
    TooLong,
    /// The first batch does not tell rules.
    NoRules,
    /// A batch spells no dated changes, no rules and no horizon.
    Spelling(Fault),
    /// The scope of this name has another place in the registry, or none.
    ScopeMoved(String),
    /// The owner of this number has another place in the registry, or none, or another one has his number.
    OwnerMoved(u32),
    /// The client of this name has another place in the registry, or none.
    ClientMoved(String),
    /// An owner is left out, or comes by a gateway no more.
    FormerOwner,
    /// The client of this name may not be allowed all that it was.
    ClientNarrowed(String),
    /// Tokens may not live as long.
    LifeNarrowed,
    /// A change does not stand behind those before it.
    Follows(RedoFault),
    /// A hook of this name is set that has another version or code.
    HookDiffers(String),
    /// The hook of this name is refused.
    Hook(String, HookFault),
}

impl Display for StateFault {
    fn fmt<W: Write>(&self, f: &mut Formatter<W>) -> fmt::Result {
        match self {
            StateFault::Memory => write!(f, "Memory"),
            StateFault::NotState => write!(f, "NotState"),
            StateFault::Version(version) => write!(f, "Version {version}"),
            StateFault::Damaged(batches) => write!(f, "Damaged {batches}"),
            StateFault::Unplaced(reason) => write!(f, "Device: {reason}"),
            StateFault::Device(reason) => write!(f, "Device: {reason}"),
            StateFault::Full => write!(f, "Full"),
            StateFault::TooLong => write!(f, "TooLong"),
            StateFault::NoRules => write!(f, "NoRules"),
            StateFault::Spelling(fault) => write!(f, "Spelling {fault}"),
            StateFault::ScopeMoved(name) => write!(f, "ScopeMoved {name}"),
            StateFault::OwnerMoved(number) => write!(f, "OwnerMoved {number}"),
            StateFault::ClientMoved(name) => write!(f, "ClientMoved {name}"),
            StateFault::FormerOwner => write!(f, "FormerOwner"),
            StateFault::ClientNarrowed(name) => write!(f, "ClientNarrowed {name}"),
            StateFault::LifeNarrowed => write!(f, "LifeNarrowed"),
            StateFault::Follows(fault) => write!(f, "Follows {fault}"),
            StateFault::HookDiffers(name) => write!(f, "HookDiffers {name}"),
            StateFault::Hook(name, fault) => write!(f, "Hook {name} {fault}"),
        }
    }
}

impl From<AllocError> for StateFault {
    ghost from_gives = { λ _ fault. fault ≡ Memory };

    fn from(_refused: AllocError) -> StateFault {
        StateFault::Memory
    }
}

impl<T: Drop> From<AllocFailed<T>> for StateFault {
    ghost from_gives = { λ _ fault. fault ≡ Memory };

    fn from(_refused: AllocFailed<T>) -> StateFault {
        StateFault::Memory
    }
}

impl From<DecodeFault> for StateFault {
    ghost from_gives = { λ decoding fault. fault ≡ state_fault_of_decoding decoding };

    fn from(decoding: DecodeFault) -> StateFault {
        match decoding {
            DecodeFault::Memory => StateFault::Memory,
            DecodeFault::Bytes(fault) => StateFault::Spelling(fault),
        }
    }
}

impl From<EncodeFault> for StateFault {
    ghost from_gives = { λ encoding fault. fault ≡ of_encoding encoding };

    fn from(encoding: EncodeFault) -> StateFault {
        match encoding {
            EncodeFault::Memory => StateFault::Memory,
            EncodeFault::TooLong => StateFault::TooLong,
        }
    }
}

impl From<RedoFault> for StateFault {
    ghost from_gives = { λ redoing fault. fault ≡ of_redoing redoing };

    fn from(redoing: RedoFault) -> StateFault {
        match redoing {
            RedoFault::Memory => StateFault::Memory,
            fault => StateFault::Follows(fault),
        }
    }
}

impl From<ReadFault> for StateFault {
    ghost from_gives = { λ reading fault. fault ≡ of_reading reading };

    fn from(reading: ReadFault) -> StateFault {
        match reading {
            ReadFault::Memory => StateFault::Memory,
            ReadFault::NotState => StateFault::NotState,
            ReadFault::Version(version) => StateFault::Version(version),
            ReadFault::Damaged(batches) => StateFault::Damaged(batches),
            ReadFault::Unread(reason) => StateFault::Device(reason),
        }
    }
}

impl From<AddFault> for StateFault {
    ghost from_gives = { λ adding fault. fault ≡ of_adding adding };

    fn from(adding: AddFault) -> StateFault {
        match adding {
            AddFault::Memory => StateFault::Memory,
            AddFault::TooLong => StateFault::Full,
        }
    }
}

impl From<ReplaceFault> for StateFault {
    ghost from_gives = { λ replacing fault. fault ≡ of_replacing replacing };

    fn from(replacing: ReplaceFault) -> StateFault {
        match replacing {
            ReplaceFault::Memory => StateFault::Memory,
            ReplaceFault::Unplaced(reason) => StateFault::Unplaced(reason),
            ReplaceFault::Failed(reason) => StateFault::Device(reason),
        }
    }
}
