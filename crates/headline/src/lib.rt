//! What the server is proved to do: in one sentence, `make_calls`, and what a sceptic would ask of it, as laws.
#![tactic(auto)]

mod call;
mod following;
pub mod laws;
mod making;

pub use call::{EdgeCall, Upshot};
pub use following::{chains_are_safe, connections_are_conversations, connections_say_answers};
pub use making::{Made, make_calls};
