//! What is known of a register: nothing, a set of numbers, or a pointer and the offsets that it may have.
#![tactic(auto)]

pub mod place;
pub mod reg;
pub mod span;

pub use place::Place;
pub use reg::Reg;
pub use span::{Direction, Span};
