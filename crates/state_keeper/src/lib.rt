//! What keeps the changes of each round, and the moment, in a state file, so that a crash leaves them: a server is started on the file,
//! and once the file is long, what is left of its changes is written beside it by slices, and put in its place.
#![tactic(auto)]

mod coding;
mod counting;
mod course;
mod deciding;
mod following;
mod keeper;
mod leaving;
mod noting;
mod passing;
mod renewing;
mod starting;

pub use keeper::StateKeeper;
pub use starting::{NotStarted, Origin, Started, settle};
