//! Registers whose number is another's plus a constant, or a constant less another's, or stands in a block of the stack, too: what
//! that says of both, and what instructions leave of it.
#![tactic(auto)]

pub mod link;

pub use link::{Link, Links, Turn, refine_same};
