//! Why a connection, or the whole loop, ends.

use http_edge::EdgeFault;
use std::fmt::{self, Display, Formatter, Write};

/// Why a connection ends before its time.
#[derive(Clone, Copy, Debug, PartialEq, Eq)]
pub enum ConnectionFault {
    /// It could not be accepted.
    Accept,
    /// A read failed.
    Read,
    /// A write failed, or took no byte.
    Write,
    /// The edge refused an event.
    Refused(EdgeFault),
}

/// Why the loop ends.
#[derive(Clone, Copy, Debug, PartialEq, Eq)]
pub enum LoopFault {
    /// A wait failed.
    Wait,
    /// The clocks could not tell the times.
    Clock,
    /// The clocks told a moment that is so many seconds ahead of the greatest that was kept, more than it may be.
    ClockAhead(u64),
    /// Changes, or a moment, could not be kept, or it is not known whether what is kept was shortened.
    Keep,
    /// So many rounds were made as can be counted.
    Rounds,
    /// A reload was wanted.
    Reload,
}

impl Display for ConnectionFault {
    fn fmt<W: Write>(&self, f: &mut Formatter<W>) -> fmt::Result {
        match self {
            ConnectionFault::Accept => write!(f, "Accept"),
            ConnectionFault::Read => write!(f, "Read"),
            ConnectionFault::Write => write!(f, "Write"),
            ConnectionFault::Refused(fault) => write!(f, "Refused {fault}"),
        }
    }
}

impl Display for LoopFault {
    fn fmt<W: Write>(&self, f: &mut Formatter<W>) -> fmt::Result {
        match self {
            LoopFault::ClockAhead(seconds) => write!(f, "ClockAhead {seconds}"),
            _ => write!(f, "{self:?}"),
        }
    }
}
