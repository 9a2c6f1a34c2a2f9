//! What servers do to a list that stands in a cluster, as values: which changes, and what comes of them.
//!
//! The bytes of a list stand in pieces, each under its generation and the place of its first byte. Its *head* says which generation
//! counts and how many bytes of it. Every change puts the head, and is done only where the head is of the version that it names:
//! so the version decides what stands there, it only grows, and of all that name one version one change at most is ever done,
//! however late it comes. `cluster` has what is promised of a cluster, `settling` how one learns what became of a change.
#![tactic(auto)]

pub mod change;
pub mod cluster;
pub mod settling;
