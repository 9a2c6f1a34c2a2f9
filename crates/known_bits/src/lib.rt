//! What is known of single bits of a word, as a set of words.
#![tactic(auto)]

mod arithmetic;
pub mod bits;
mod domain;
mod moves;
mod ranges;
mod refinement;

pub use bits::KnownBits;
