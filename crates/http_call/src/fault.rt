//! Why a request has no response.

ghost use Rattle.std.specs.Prelude.{◌≡◌};

use http1::{ReadError, WriteError};
use std::alloc::AllocError;
use std::io;

/// Why a request has no response. The connection is of no use any more.
#[derive(Clone, Copy, Debug, PartialEq, Eq)]
pub enum CallFault {
    /// Memory was refused.
    Memory,
    /// The request can't be written so.
    BadRequest,
    /// The connection could not be written or read, or not in time.
    Broken,
    /// What came is no response, or is beyond a limit.
    NotHttp,
    /// The body of the response has more bytes than were allowed.
    TooLong,
    /// It was closed.
    Closed,
}

impl From<AllocError> for CallFault {
    ghost use Rattle.http_call.specs.declared.fault.CallFault.TheVariants.{Memory};

    ghost from_gives = { λ _ fault. fault ≡ Memory };

    fn from(_refused: AllocError) -> CallFault {
        CallFault::Memory
    }
}

impl From<io::Error> for CallFault {
    ghost use Rattle.http_call.specs.declared.fault.CallFault.TheVariants.{Broken};

    ghost from_gives = { λ _ fault. fault ≡ Broken };

    fn from(_error: io::Error) -> CallFault {
        CallFault::Broken
    }
}

impl From<ReadError> for CallFault {
    ghost use Rattle.http_call.specs.declared.fault.CallFault.TheVariants.{NotHttp};

    ghost from_gives = { λ _ fault. fault ≡ NotHttp };

    fn from(_error: ReadError) -> CallFault {
        CallFault::NotHttp
    }
}

impl From<WriteError> for CallFault {
    ghost use Rattle.http_call.specs.declared.fault.CallFault.TheVariants.{BadRequest};

    ghost from_gives = { λ _ fault. fault ≡ BadRequest };

    fn from(_error: WriteError) -> CallFault {
        CallFault::BadRequest
    }
}
