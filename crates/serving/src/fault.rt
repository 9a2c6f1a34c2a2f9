//! Why the service of a connection ends early.

use http_edge::EdgeFault;
use std::fmt::{self, Display, Formatter, Write};

/// Why the service of a connection ends early.
#[derive(Clone, Copy, Debug, PartialEq, Eq)]
pub enum ServeFault {
    /// A read failed.
    Read,
    /// A write failed, or took no byte.
    Write,
    /// The edge refused an event.
    Refused(EdgeFault),
    /// The clock could not tell the time.
    Clock,
}

impl Display for ServeFault {
    fn fmt<W: Write>(&self, f: &mut Formatter<W>) -> fmt::Result {
        match self {
            ServeFault::Read => write!(f, "Read"),
            ServeFault::Write => write!(f, "Write"),
            ServeFault::Refused(fault) => write!(f, "Refused {fault}"),
            ServeFault::Clock => write!(f, "Clock"),
        }
    }
}
