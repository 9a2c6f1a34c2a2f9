//! A file of batches that stands in a cluster.
//!
//! `file` is what stands there: what is written is put there at once. `pieces` reads it, `opened` all of it in turn before it is
//! written, `beside` writes the next one, `compacting` lets go of what stood there before, and `merging` makes few pieces of many.
#![tactic(auto)]

mod beside;
mod compacting;
mod file;
mod merging;
mod opened;
mod pieces;

pub use file::ClusterFile;
