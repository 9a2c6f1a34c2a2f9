//! The program's manual: the page of its commands, and what each command and each fault means.
#![tactic(auto)]

mod page;
mod topic;
mod topics;

pub use page::{PAGE, VERSION};
pub use topic::Topic;
pub use topics::{explained, is_command};
