//! What the loop asks of the outside: sockets, clocks and a journal, by what they do; and what it tells there.
#![tactic(auto)]

mod clocks;
mod fault;
mod journal;
mod report;
mod sockets;

pub use clocks::{Clocks, Times};
pub use fault::{ConnectionFault, LoopFault};
pub use journal::Journal;
pub use report::{Notice, Report};
pub use sockets::{Accepted, Ready, Received, Sent, Sockets};
