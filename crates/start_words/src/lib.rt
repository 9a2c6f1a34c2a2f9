//! What the words behind `start` give: where it listens, the file of its registry, and its options.
#![tactic(auto)]

mod fault;
mod list;
mod number;
mod option;
mod options;
mod words;

pub use fault::{StartFault, WordFault};
pub use list::{ListWords, StatePlace, UserWords};
pub use number::number_said;
pub use option::{HookFile, Waiting};
pub use options::Options;
pub use words::StartWords;
