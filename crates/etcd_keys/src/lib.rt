//! The keys under which a list stands in etcd, and what its head says as bytes.
#![tactic(auto)]

mod names;

pub use names::{Names, head_bytes, head_told, is_head_of_other, place_told};
