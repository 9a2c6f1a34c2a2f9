//! Hosts of token hooks, which answer what may be granted of an ask.
//!
//! A host keeps hooks under names, in the order in which they were installed. Whatever it answers, `decided` leaves
//! nothing of a grant that the ask did not hold.
#![tactic(auto)]

mod count;
mod decision;
mod entry;
mod fault;
mod host;
mod verdicts;

pub use count::hook_count;
pub use decision::{decided, no_answer_widens};
pub use entry::Entry;
pub use fault::HookFault;
pub use host::HookHost;
pub use verdicts::Verdicts;
