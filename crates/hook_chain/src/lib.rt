//! The hooks of a server, seen as one host: each of them is a verified program, and answers in its turn.
#![tactic(auto)]

mod chain;
mod hook;
pub mod laws;
mod name;

pub use chain::Chain;
