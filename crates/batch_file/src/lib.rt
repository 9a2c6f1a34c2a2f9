//! A file of batches of bytes, each on the disk, whole, before it is acknowledged.
//!
//! Read `device` first: what a file does, and what a crash may leave of it. `framing` reads a file's bytes, `frames` makes
//! those of a new one, and `appending` has `BatchFile`, which adds a batch or puts another file in the place of all. `next`
//! reads it batch by batch, and writes the next file beside it. `source` and `reader` read a file in pieces, as it is opened,
//! `walk` over its frames.
#![tactic(auto)]

pub mod appending;
pub mod device;
pub mod device_source;
pub mod frames;
pub mod framing;
pub mod laws;
pub mod next;
pub mod reader;
pub mod source;
pub mod walk;
