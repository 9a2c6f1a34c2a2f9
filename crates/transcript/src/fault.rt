//! Why a transcript has no answer.

ghost use Rattle.std.specs.Prelude.{◌≡◌};
ghost use Rattle.transcript.specs.Faults.{of_config, of_event};
ghost use Rattle.transcript.specs.declared.fault.ReplayFault.TheVariants.{Memory};

use clients::ConfigFault;
use http_edge::EdgeFault;
use std::alloc::{AllocError, AllocFailed};
use std::error::Error;
use std::fmt::{self, Display, Formatter, Write};

/// The first fault of a transcript. Lines count from 1.
#[derive(Clone, Copy, Debug, PartialEq, Eq)]
pub enum ReplayFault {
    /// The first line hands in no registry.
    Config(ConfigFault),
    /// A line has another form.
    BadLine(usize),
    /// The event of a line is refused, and not for memory.
    Refused(usize, EdgeFault),
    /// Memory was refused.
    Memory,
}

impl ReplayFault {
    /// The fault of a line's event.
    pub(crate) fn of_event(line: usize, fault: EdgeFault) -> ReplayFault
        ensures { result ≡ of_event line fault }
    {
        match fault {
            EdgeFault::Memory => ReplayFault::Memory,
            fault => ReplayFault::Refused(line, fault),
        }
    }
}

impl Display for ReplayFault {
    fn fmt<W: Write>(&self, f: &mut Formatter<W>) -> fmt::Result {
        match *self {
            ReplayFault::Config(fault) => write!(f, "Config {fault}"),
            ReplayFault::BadLine(line) => write!(f, "line {line}: bad line"),
            ReplayFault::Refused(line, fault) => write!(f, "line {line}: {fault}"),
            ReplayFault::Memory => write!(f, "Memory"),
        }
    }
}

impl Error for ReplayFault {}

impl From<ConfigFault> for ReplayFault {
    ghost from_gives = { λ refused fault. fault ≡ of_config refused };

    fn from(refused: ConfigFault) -> ReplayFault {
        match refused {
            ConfigFault::Memory => ReplayFault::Memory,
            fault => ReplayFault::Config(fault),
        }
    }
}

impl From<AllocError> for ReplayFault {
    ghost from_gives = { λ _ fault. fault ≡ Memory };

    fn from(_refused: AllocError) -> ReplayFault {
        ReplayFault::Memory
    }
}

impl<T: Drop> From<AllocFailed<T>> for ReplayFault {
    ghost from_gives = { λ _ fault. fault ≡ Memory };

    fn from(_refused: AllocFailed<T>) -> ReplayFault {
        ReplayFault::Memory
    }
}
