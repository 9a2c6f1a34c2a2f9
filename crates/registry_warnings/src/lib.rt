//! What in the text of a registry may be a mistake: members whose names mean nothing there, members that stand twice,
//! and digests that no key has.
#![tactic(auto)]

mod names;
mod objects;
mod text;

pub use text::warnings;
