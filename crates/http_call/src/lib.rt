//! Requests over HTTP/1.1 (RFC 9112) on one connection, one after the other, each with its response; and a connection with a deadline.
#![tactic(auto)]

mod call;
mod fault;
mod stream;

pub use call::{Caller, Request, Response};
pub use fault::CallFault;
pub use stream::TimedStream;
