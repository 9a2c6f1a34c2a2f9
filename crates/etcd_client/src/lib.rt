//! A list in etcd (version 3.4 or later), asked over its JSON gateway.
//!
//! `asked` has the requests and `told` what is read of replies; `members` who is asked, `asking` members over the network, one after
//! another, `call_log` what clauses know of the calls, `client` asks and notes that, `cluster` is the list as a `Cluster`, `leading` who
//! writes it, and `past` reads it as it stood at one version.
#![tactic(auto)]

mod asked;
mod asking;
mod call_log;
mod client;
mod cluster;
pub mod laws;
mod leading;
mod members;
mod past;
mod told;

pub use asking::{Access, Asking};
pub use client::EtcdCluster;
pub use etcd_keys::Names;
pub use leading::{Led, begun_elsewhere, cluster_of, give_back, lead};
pub use members::{AskFault, Members};
pub use past::{head_there, pieces_then};
