//! A file of the system as a device: `file`, which is opened as a `source` that is read in pieces. `call_log` notes the calls that are made on it, and `making` makes a new one. `before` names what may have been on its disk before it was opened.
#![tactic(auto)]

pub mod at_end;
pub mod before;
pub mod call_log;
pub mod faults;
pub mod file;
pub mod making;
pub mod source;

pub use at_end::open_at_end;
pub use before::{Before, Unknown};
pub use faults::{MakeFault, OpenFault};
pub use file::{DiskFile, SystemFile};
pub use making::make;
pub use source::DiskSource;
