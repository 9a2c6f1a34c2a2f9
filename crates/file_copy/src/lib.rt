//! A copy of a file of batches, with others behind those that it has, in its own place.
#![tactic(auto)]

pub mod placing;

pub use placing::place_behind;
