//! A command line: what its words call for, on which files, and what comes of it.
//!
//! `call` is what words call for: a command that answers, of crate `commands`, or a `service`, which serves connections.
//! `call_files` reads the files that a call names, `hook_files` those of the hooks that `start` names, and takes them. A
//! `state_command` makes a state file (`making`), or tries a start on one. A `list_command` does so with a list in etcd, which is
//! asked by `list_keys`. `starting` starts a server where its state is to stand, and `performing` does all of it, words in, lines
//! and a status out; `stopping` is what the faults of a server are to it.
#![tactic(auto)]

mod call;
mod call_files;
mod hook_files;
mod list_command;
mod list_keys;
mod list_performing;
mod making;
mod performing;
mod service;
mod starting;
mod state_command;
mod state_performing;
mod stopping;

pub use call::Call;
pub use call_files::{CallFiles, read_files};
pub use hook_files::HookRead;
pub use list_command::ListCommand;
pub use list_performing::perform_list;
pub use performing::{perform, perform_service};
pub use service::{ServeWords, Service};
pub use starting::{Machine, Starts};
pub use state_command::StateCommand;
pub use state_performing::perform_state;
