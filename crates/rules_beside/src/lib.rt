//! Rules that a file tells beside those of a registry: which names have their places, what clients may be allowed, and who the owners
//! are. Where both state the numbers of owners, a number is its owner's for ever; else who was told has to stand at his number, and is
//! known by what he is called, or by his key.
#![tactic(auto)]

mod listed;
mod owners;
mod places;

pub use owners::OwnersBeside;
pub use places::{moved_client, moved_scope, narrowed_client};
