//! Why a server is not started on the file of its state.

ghost use Rattle.std.specs.Prelude.{◌≡◌};

use disk_file::OpenFault;
use ports::ListenFault;

/// Why a start opened no socket, or not the file of its state.
#[derive(Clone, Copy, Debug, PartialEq, Eq)]
pub enum OpeningFault {
    /// The server does not listen.
    Socket(ListenFault),
    /// The file is not opened.
    File(OpenFault),
}

impl From<ListenFault> for OpeningFault {
    ghost use Rattle.daemon.specs.declared.fault.OpeningFault.TheVariants.{Socket};

    ghost from_gives = { λ why fault. fault ≡ Socket why };

    fn from(why: ListenFault) -> OpeningFault {
        OpeningFault::Socket(why)
    }
}

impl From<OpenFault> for OpeningFault {
    ghost use Rattle.daemon.specs.declared.fault.OpeningFault.TheVariants.{File};

    ghost from_gives = { λ why fault. fault ≡ File why };

    fn from(why: OpenFault) -> OpeningFault {
        OpeningFault::File(why)
    }
}
