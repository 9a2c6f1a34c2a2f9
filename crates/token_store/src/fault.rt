//! Why codes and tokens are refused.

use std::fmt::{self, Display, Formatter, Write};

/// Why a code or a token may not be given.
#[derive(Clone, Copy, Debug, PartialEq, Eq)]
pub enum StoreFault {
    /// More codes and tokens would be unexpired than may be.
    Full,
    /// More of the client's would be than may be.
    ClientFull,
    /// Something unexpired has the digest, or two of the new ones have one.
    DrawTaken,
}

impl Display for StoreFault {
    fn fmt<W: Write>(&self, f: &mut Formatter<W>) -> fmt::Result {
        write!(f, "{self:?}")
    }
}

/// Why a change is not made again.
#[derive(Clone, Copy, Debug, PartialEq, Eq)]
pub enum AgainFault {
    /// It names a family that it cannot be of.
    Unknown,
    /// Something unexpired has the digest of its code or token.
    DrawTaken,
    /// Memory was refused.
    Memory,
}

impl Display for AgainFault {
    fn fmt<W: Write>(&self, f: &mut Formatter<W>) -> fmt::Result {
        write!(f, "{self:?}")
    }
}
