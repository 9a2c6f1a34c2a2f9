//! Why a file is not opened, or not made.

ghost use Rattle.std.specs.Prelude.{◌≡◌};
ghost use Rattle.disk_file.specs.declared.faults.OpenFault.TheVariants as opening;
ghost use Rattle.disk_file.specs.declared.faults.MakeFault.TheVariants as making;
ghost use Rattle.disk_file.specs.Faults.{of_error, of_making, of_lock};

use std::alloc::AllocError;
use std::fmt::{self, Display, Formatter, Write};
use std::fs::TryLockError;
use std::io::{self, ErrorKind};
use system_faults::SystemFault;

/// Why a file is not opened.
#[derive(Clone, Copy, Debug, PartialEq, Eq)]
pub enum OpenFault {
    /// Memory was refused.
    Memory,
    /// It is not there.
    Missing,
    /// It is a symbolic link.
    Link,
    /// It is a folder, a pipe or another thing that is no file.
    NotAFile,
    /// It has another name, by a hard link.
    SecondLink,
    /// Its group or others may write it.
    WritableByOthers,
    /// Another program has it: it holds its lock, or has put another file there just now.
    InUse,
    /// The system refused a call.
    Open(SystemFault),
}

impl Display for OpenFault {
    fn fmt<W: Write>(&self, f: &mut Formatter<W>) -> fmt::Result {
        match self {
            OpenFault::Open(reason) => write!(f, "Open: {reason}"),
            _ => write!(f, "{self:?}"),
        }
    }
}

impl From<AllocError> for OpenFault {
    ghost from_gives = { λ _ fault. fault ≡ opening.Memory };

    fn from(_: AllocError) -> OpenFault {
        OpenFault::Memory
    }
}

impl From<io::Error> for OpenFault {
    ghost from_gives = { λ error fault. fault ≡ of_error error };

    fn from(error: io::Error) -> OpenFault {
        match error.kind() {
            ErrorKind::OutOfMemory => OpenFault::Memory,
            ErrorKind::NotFound => OpenFault::Missing,
            _ => OpenFault::Open(SystemFault::of(&error)),
        }
    }
}

impl From<TryLockError> for OpenFault {
    ghost from_gives = { λ refused fault. fault ≡ of_lock refused };

    fn from(refused: TryLockError) -> OpenFault {
        match refused {
            TryLockError::WouldBlock => OpenFault::InUse,
            TryLockError::Error(error) => OpenFault::from(error),
        }
    }
}

/// Why a file is not made.
#[derive(Clone, Copy, Debug, PartialEq, Eq)]
pub enum MakeFault {
    /// Memory was refused.
    Memory,
    /// Something is there.
    Exists,
    /// The system refused a call.
    Make(SystemFault),
}

impl Display for MakeFault {
    fn fmt<W: Write>(&self, f: &mut Formatter<W>) -> fmt::Result {
        match self {
            MakeFault::Make(reason) => write!(f, "Make: {reason}"),
            _ => write!(f, "{self:?}"),
        }
    }
}

impl From<AllocError> for MakeFault {
    ghost from_gives = { λ _ fault. fault ≡ making.Memory };

    fn from(_: AllocError) -> MakeFault {
        MakeFault::Memory
    }
}

impl From<io::Error> for MakeFault {
    ghost from_gives = { λ error fault. fault ≡ of_making error };

    fn from(error: io::Error) -> MakeFault {
        match error.kind() {
            ErrorKind::OutOfMemory => MakeFault::Memory,
            ErrorKind::AlreadyExists => MakeFault::Exists,
            _ => MakeFault::Make(SystemFault::of(&error)),
        }
    }
}
