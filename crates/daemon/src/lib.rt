//! The server on the machine's sockets and clocks: it listens, and serves the connections that come.
#![tactic(auto)]

mod announcement;
mod by_count;
mod call_log;
mod drawn;
mod fault;
mod machine_clock;
mod machine_clocks;
mod machine_random;
mod reliving;
mod reloads;
mod resumption;
mod sockets;
mod starting;
mod timed_disk;
mod timing;

pub use by_count::serve;
pub use call_log::CallLog;
pub use fault::OpeningFault;
pub use line_journal::{AuditLog, LineJournal};
pub use machine_clock::MachineClock;
pub use machine_clocks::MachineClocks;
pub use machine_random::MachineRandom;
pub use ports::{ListenFault, SocketFault};
pub use reports::report_text;
pub use sockets::MachineSockets;
pub use starting::{
    Opened, Pace, Served, ServedOn, StateTerms, Terms, start, start_on, start_on_file,
};
pub use timed_disk::TimedDisk;
