//! Why an event is refused.

use std::fmt::{self, Display, Formatter, Write};

/// Why an event is refused.
#[derive(Clone, Copy, Debug, PartialEq, Eq)]
pub enum EdgeFault {
    /// There are 64 connections that were not forgotten.
    TooMany,
    /// The connection is not there, or it has ended.
    NotOpen,
    /// The connection is there: it is open, or it has ended and was not forgotten.
    AlreadyOpen,
    /// A piece has more than 65,536 bytes.
    PieceTooLong,
    /// A piece completes more requests than there are draws.
    DrawsShort,
    /// A piece completes more than 64 requests.
    TooManyRequests,
    /// Memory was refused.
    Memory,
}

impl Display for EdgeFault {
    fn fmt<W: Write>(&self, f: &mut Formatter<W>) -> fmt::Result {
        write!(f, "{self:?}")
    }
}
