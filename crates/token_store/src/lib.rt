//! The codes and tokens that an authorization server has given, and what they are at a moment.
//!
//! A store is read, is made room in, and has changes made in it: `reserve` is the one call in which
//! memory is refused, and `apply` the one by which answers change. Before all that it can be made of
//! a list of changes: `redo` makes each again, as far as there is memory, and `settle` ends it.
//! A moment is in seconds, and no call's is below an earlier one's. A digest is the SHA-256 of the
//! bytes that a code or token spells.
#![tactic(auto)]

mod applying;
mod expiring;
mod fault;
mod found;
mod kin;
mod listing;
mod quota;
mod record;
mod redoing;
mod reserving;
mod store;
mod tables;

pub use fault::{AgainFault, StoreFault};
pub use found::{Family, Found};
pub use quota::Quota;
pub use store::Store;
