//! Why bytes are not read, and why values are not written.

ghost use Rattle.std.specs.Prelude.{◌≡◌};
ghost use Rattle.wire.specs.declared.fault.DecodeFault.TheVariants as decoding;
ghost use Rattle.wire.specs.declared.fault.EncodeFault.TheVariants as encoding;

use std::alloc::{AllocError, AllocFailed};
use std::error::Error;
use std::fmt::{self, Display, Formatter, Write};

/// The first fault of some bytes, from left to right.
#[derive(Clone, Copy, Debug, PartialEq, Eq)]
pub enum Fault {
    /// The first byte names another version of the layout.
    Version,
    /// The bytes end within a field, or before one.
    Short,
    /// A moment is 2^63 seconds or later.
    Moment,
    /// No variant has this byte.
    Variant,
    /// The number of a client or an owner is 0.
    Number,
    /// No kind of token has this byte.
    Kind,
    /// No version of a hook's record has this number.
    RecordVersion,
    /// A text is not UTF-8.
    NotText,
    /// Bytes stand behind the value.
    Behind,
}

impl Display for Fault {
    fn fmt<W: Write>(&self, f: &mut Formatter<W>) -> fmt::Result {
        write!(f, "{self:?}")
    }
}

impl Error for Fault {}

/// Why bytes are not read.
#[derive(Clone, Copy, Debug, PartialEq, Eq)]
pub enum DecodeFault {
    /// What is wrong with the bytes.
    Bytes(Fault),
    /// Memory was refused.
    Memory,
}

impl Display for DecodeFault {
    fn fmt<W: Write>(&self, f: &mut Formatter<W>) -> fmt::Result {
        match *self {
            DecodeFault::Bytes(fault) => write!(f, "{fault}"),
            DecodeFault::Memory => write!(f, "Memory"),
        }
    }
}

impl Error for DecodeFault {}

impl From<AllocError> for DecodeFault {
    ghost from_gives = { λ _ fault. fault ≡ decoding.Memory };

    fn from(_refused: AllocError) -> DecodeFault {
        DecodeFault::Memory
    }
}

impl<T: Drop> From<AllocFailed<T>> for DecodeFault {
    ghost from_gives = { λ _ fault. fault ≡ decoding.Memory };

    fn from(_refused: AllocFailed<T>) -> DecodeFault {
        DecodeFault::Memory
    }
}

/// Why a value is not written.
#[derive(Clone, Copy, Debug, PartialEq, Eq)]
pub enum EncodeFault {
    /// A text or a code has 2^32 bytes or more, or a list has as many items.
    TooLong,
    /// Memory was refused.
    Memory,
}

impl From<AllocError> for EncodeFault {
    ghost from_gives = { λ _ fault. fault ≡ encoding.Memory };

    fn from(_refused: AllocError) -> EncodeFault {
        EncodeFault::Memory
    }
}

impl<T: Drop> From<AllocFailed<T>> for EncodeFault {
    ghost from_gives = { λ _ fault. fault ≡ encoding.Memory };

    fn from(_refused: AllocFailed<T>) -> EncodeFault {
        EncodeFault::Memory
    }
}
