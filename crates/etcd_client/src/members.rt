//! Who asks the members of a cluster.

ghost use Rattle.std.specs.Prelude.{◌≡◌, ◌∷◌, IfErr, List};
ghost use Rattle.etcd_client.specs.Exchanges.{Exchange, exchange, text_of};
ghost use Rattle.etcd_client.specs.Told.{IsRefusedRight};

use etcd_json::ReplyFault;
use http_call::CallFault;
use std::alloc::{AllocError, AllocFailed};

/// Why nothing is told.
#[derive(Clone, Copy, Debug, PartialEq, Eq)]
pub enum AskFault {
    /// It may be done, be done later, or never: nothing that can be read was told of it.
    Unclear,
    /// It is not done, with this code.
    Refused(u64),
    /// Memory was refused: so it is, or it was not asked.
    Memory,
}

impl From<AllocError> for AskFault {
    ghost use Rattle.etcd_client.specs.declared.members.AskFault.TheVariants.{Memory};

    ghost from_gives = { λ _ fault. fault ≡ Memory };

    fn from(_refused: AllocError) -> AskFault {
        AskFault::Memory
    }
}

impl<T: Drop> From<AllocFailed<T>> for AskFault {
    ghost use Rattle.etcd_client.specs.declared.members.AskFault.TheVariants.{Memory};

    ghost from_gives = { λ _ fault. fault ≡ Memory };

    fn from(_refused: AllocFailed<T>) -> AskFault {
        AskFault::Memory
    }
}

impl From<CallFault> for AskFault {
    ghost use Rattle.etcd_client.specs.declared.members.AskFault.TheVariants.{Unclear};

    ghost from_gives = { λ _ fault. fault ≡ Unclear };

    fn from(_fault: CallFault) -> AskFault {
        AskFault::Unclear
    }
}

impl From<ReplyFault> for AskFault {
    ghost use Rattle.etcd_client.specs.Told.{unread_by};

    ghost from_gives = { λ unread fault. fault ≡ unread_by unread };

    fn from(fault: ReplyFault) -> AskFault {
        match fault {
            ReplyFault::Memory => AskFault::Memory,
            ReplyFault::Strange => AskFault::Unclear,
        }
    }
}

/// The members of a cluster, asked one request at a time.
pub trait Members {
    /// What was asked, and what was told of it, the last first.
    ghost exchanges: { Self → List Exchange };

    /// Sends a request once to one of them, and gives the text of its answer, where it was done.
    fn ask(&mut self, path: &str, body: &[u8]) -> Result<Vec<u8>, AskFault>
        ensures asked { exchanges self.new ≡ exchange path.now body.now (text_of result) ∷ exchanges self.old }
        ensures refused { IfErr result IsRefusedRight };

    /// The next request goes to another one.
    fn turn(&mut self)
        ensures { exchanges self.new ≡ exchanges self.old };

    /// Waits so many milliseconds.
    fn pause(&self, time: u64);

    /// A clock that never goes back, in milliseconds.
    fn now(&self) -> Option<u64>;
}
