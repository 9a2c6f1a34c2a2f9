//! Why a list is not had.

ghost use Rattle.std.specs.Prelude.{◌≡◌};
ghost use Rattle.standby.specs.Faults.{of_asking, of_device, of_reading};
ghost use Rattle.standby.specs.declared.fault.ListFault.TheVariants.{Memory};

use batch_file::device::{DeviceFault, ReplaceFault};
use batch_file::framing::ReadFault;
use etcd_client::AskFault;
use std::alloc::AllocError;
use std::fmt::{self, Display, Formatter, Write};

/// Why a list is not had, or not put there.
#[derive(Clone, Copy, Debug, PartialEq, Eq)]
pub enum ListFault {
    /// No member is named by a URL that begins with `http://`.
    NoMember,
    /// A member's name is not known.
    Unresolved,
    /// The file of the user's password can't be read, or is no text.
    NoPassword,
    /// Nothing was told in time.
    Unclear,
    /// The cluster refuses what was asked, with this code.
    Refused(u64),
    /// There is no list.
    Missing,
    /// It was begun in another cluster.
    OtherCluster,
    /// There is a list.
    AlreadyExists,
    /// Somebody leads.
    Led,
    /// A piece of it is missing, or what stood there was let go of while it was read, too often.
    Unread,
    /// It could not be put there.
    Unplaced,
    /// The door has no socket.
    NoSocket,
    /// Memory was refused.
    Memory,
}

impl Display for ListFault {
    fn fmt<W: Write>(&self, f: &mut Formatter<W>) -> fmt::Result {
        match self {
            ListFault::NoMember => write!(f, "NoMember"),
            ListFault::Unresolved => write!(f, "Unresolved"),
            ListFault::NoPassword => write!(f, "NoPassword"),
            ListFault::Unclear => write!(f, "Unclear"),
            ListFault::Refused(code) => write!(f, "Denied {code}"),
            ListFault::Missing => write!(f, "Missing"),
            ListFault::OtherCluster => write!(f, "OtherCluster"),
            ListFault::AlreadyExists => write!(f, "Exists"),
            ListFault::Led => write!(f, "Led"),
            ListFault::Unread => write!(f, "Unread"),
            ListFault::Unplaced => write!(f, "Unplaced"),
            ListFault::NoSocket => write!(f, "NoSocket"),
            ListFault::Memory => write!(f, "out of memory"),
        }
    }
}

impl From<AllocError> for ListFault {
    ghost from_gives = { λ _ fault. fault ≡ Memory };

    fn from(_error: AllocError) -> ListFault {
        ListFault::Memory
    }
}

impl From<AskFault> for ListFault {
    ghost from_gives = { λ asked fault. fault ≡ of_asking asked };

    fn from(asked: AskFault) -> ListFault {
        match asked {
            AskFault::Unclear => ListFault::Unclear,
            AskFault::Refused(code) => ListFault::Refused(code),
            AskFault::Memory => ListFault::Memory,
        }
    }
}

impl From<DeviceFault> for ListFault {
    ghost from_gives = { λ device fault. fault ≡ of_device device };

    fn from(device: DeviceFault) -> ListFault {
        match device {
            DeviceFault::Memory => ListFault::Memory,
            DeviceFault::Failed(_) => ListFault::Unread,
        }
    }
}

impl From<ReplaceFault> for ListFault {
    ghost use Rattle.standby.specs.Faults.{of_placing};

    ghost from_gives = { λ placing fault. fault ≡ of_placing placing };

    fn from(placing: ReplaceFault) -> ListFault {
        match placing {
            ReplaceFault::Memory => ListFault::Memory,
            ReplaceFault::Unplaced(_) | ReplaceFault::Failed(_) => ListFault::Unplaced,
        }
    }
}

impl From<ReadFault> for ListFault {
    ghost from_gives = { λ reading fault. fault ≡ of_reading reading };

    fn from(reading: ReadFault) -> ListFault {
        match reading {
            ReadFault::Memory => ListFault::Memory,
            _ => ListFault::Unread,
        }
    }
}
