//! Sockets that listen, and connections at their places.
#![tactic(auto)]

mod fault;
mod listening;
mod seats;

pub use fault::{ListenFault, SocketFault};
pub use listening::{announce, listen, next_connection, see_off};
pub use seats::{Ports, let_go};
