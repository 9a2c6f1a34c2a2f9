//! What is measured of a server, and how that is told in the text format of Prometheus, version 0.0.4.
#![tactic(auto)]

mod bound;
mod denials;
mod histogram;
mod latencies;
mod metrics;
mod page;
mod reported;
mod target;
mod timed;
mod waits;
mod watches;

pub use bound::{BOUNDS, Bound};
pub use denials::{Denials, DeniedBy};
pub use histogram::{Bucket, Histogram};
pub use latencies::Latencies;
pub use metrics::Metrics;
pub use waits::Waits;
pub use watches::{Timed, Watch, Watches};
