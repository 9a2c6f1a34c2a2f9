//! Why a server does not listen.

ghost use Rattle.std.specs.Prelude.{◌≡◌};
ghost use Rattle.std.specs.IoError.{error_kind};
ghost use Rattle.ports.specs.Faults.{socket_fault};
ghost use Rattle.ports.specs.declared.fault.ListenFault.TheVariants.{NoSocket};

use std::alloc::AllocError;
use std::fmt::{self, Display, Formatter};
use std::io::{self, ErrorKind};

/// Why there is no socket at an address.
#[derive(Clone, Copy, Debug, PartialEq, Eq)]
pub enum SocketFault {
    /// It is no address, or its name is not known.
    NoAddress,
    /// Another socket is there.
    AddressInUse,
    /// The machine has no such address.
    AddressNotAvailable,
    /// Who runs the program may not listen there.
    PermissionDenied,
    /// The system has another reason.
    Other,
}

impl SocketFault {
    // The fault of a kind of error.
    fn of_kind(kind: ErrorKind) -> SocketFault
        ensures { result ≡ socket_fault kind }
    {
        match kind {
            ErrorKind::InvalidInput => SocketFault::NoAddress,
            ErrorKind::AddrInUse => SocketFault::AddressInUse,
            ErrorKind::AddrNotAvailable => SocketFault::AddressNotAvailable,
            ErrorKind::PermissionDenied => SocketFault::PermissionDenied,
            _ => SocketFault::Other,
        }
    }
}

impl Display for SocketFault {
    fn fmt<W: fmt::Write>(&self, f: &mut Formatter<W>) -> fmt::Result {
        match self {
            SocketFault::NoAddress => write!(f, "no address"),
            SocketFault::AddressInUse => write!(f, "address in use"),
            SocketFault::AddressNotAvailable => write!(f, "address not available"),
            SocketFault::PermissionDenied => write!(f, "permission denied"),
            SocketFault::Other => write!(f, "the system refuses it"),
        }
    }
}

/// Why a server does not listen.
#[derive(Clone, Copy, Debug, PartialEq, Eq)]
pub enum ListenFault {
    /// The system gives no random bytes.
    NoSeed,
    /// There is no socket at the address.
    NoSocket(SocketFault),
    /// Where it listens could not be written.
    Unwritten,
    /// Memory was refused.
    Memory,
}

// There is no socket, for an error of the system.
impl From<io::Error> for ListenFault {
    ghost from_gives = { λ error fault. fault ≡ NoSocket (socket_fault (error_kind error)) };

    fn from(error: io::Error) -> ListenFault {
        ListenFault::NoSocket(SocketFault::of_kind(error.kind()))
    }
}

impl From<AllocError> for ListenFault {
    ghost use Rattle.ports.specs.declared.fault.ListenFault.TheVariants.{Memory};

    ghost from_gives = { λ _ fault. fault ≡ Memory };

    fn from(_error: AllocError) -> ListenFault {
        ListenFault::Memory
    }
}
