//! What no command line can say, tried by public calls: refused memory, hosts, files, streams and sockets without a system,
//! and runs that are drawn.
//!
//! The tests stand in a crate of their own, so that no crate that others wait for is proved once more for its tests.
#![tactic(auto)]

#[cfg(test)]
mod tests;
