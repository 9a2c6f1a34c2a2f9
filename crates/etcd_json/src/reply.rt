//! What etcd tells.

ghost use Rattle.std.specs.Prelude.{◌≡◌};

use std::alloc::{AllocError, AllocFailed};

/// Why a reply is not read.
#[derive(Clone, Copy, Debug, PartialEq, Eq)]
pub enum ReplyFault {
    /// Memory was refused.
    Memory,
    /// It is no such reply.
    Strange,
}

impl From<AllocError> for ReplyFault {
    ghost use Rattle.etcd_json.specs.declared.reply.ReplyFault.TheVariants.{Memory};

    ghost from_gives = { λ _ fault. fault ≡ Memory };

    fn from(_refused: AllocError) -> ReplyFault {
        ReplyFault::Memory
    }
}

impl<T: Drop> From<AllocFailed<T>> for ReplyFault {
    ghost use Rattle.etcd_json.specs.declared.reply.ReplyFault.TheVariants.{Memory};

    ghost from_gives = { λ _ fault. fault ≡ Memory };

    fn from(_refused: AllocFailed<T>) -> ReplyFault {
        ReplyFault::Memory
    }
}

/// Which cluster it is, and the revision of its newest change by then.
#[derive(Clone, Copy, Debug, PartialEq, Eq)]
pub struct Header {
    pub cluster: u64,
    pub revision: u64,
}

/// What stands under a key.
#[derive(Drop)]
pub struct Entry {
    pub key: Vec<u8>,
    pub value: Vec<u8>,
    /// The revision at which it was created.
    pub created: u64,
    /// The revision at which it was written last.
    pub written: u64,
    /// The lease until whose end it stands: 0 where it has none.
    pub lease: u64,
}

/// What stands under keys.
#[derive(Drop)]
pub struct Found {
    pub entries: Vec<Entry>,
    /// There are more of them.
    pub more: bool,
}

/// What an operation comes to.
#[derive(Drop)]
pub enum Response {
    Put,
    Deleted,
    Found(Found),
}

/// What a transaction comes to.
#[derive(Drop)]
pub struct Reply {
    pub header: Header,
    /// All compares held.
    pub succeeded: bool,
    /// What each of the operations came to.
    pub responses: Vec<Response>,
}

/// A lease, and how many seconds it lasts.
#[derive(Clone, Copy, Debug, PartialEq, Eq)]
pub struct Granted {
    pub lease: u64,
    pub seconds: u64,
}
