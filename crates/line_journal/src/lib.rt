//! Where a server tells of faults, reports and requests, in lines, and what is measured of it.
#![tactic(auto)]

mod audit_log;
mod due;
mod line_journal;
mod line_sink;
mod measures;
mod outlet;

pub use audit_log::AuditLog;
pub use line_journal::{Hearers, LineJournal};
pub use measures::Measures;
