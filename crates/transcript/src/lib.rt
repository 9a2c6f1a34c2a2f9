//! Transcripts: what comes on connections, one event a line, and what the server answers.
#![tactic(auto)]

mod fault;
pub mod line;
mod number;
mod piece;
mod running;

pub use fault::ReplayFault;
pub use running::{replay, replay_on};
