//! A file in a cluster as a device: a crash is the beginning of another server.
//!
//! `device` has the file as a `Device`, `source` reads all of it at a start, `told_log` notes what was told then, and `counting` how
//! often a call has failed.
#![tactic(auto)]

mod counting;
mod device;
mod source;
mod told_log;

pub use device::ClusterDevice;
pub use source::ClusterSource;
