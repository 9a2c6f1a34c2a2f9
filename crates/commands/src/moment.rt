//! The moment that the machine's clock tells.

use consent::Moment;
use std::rt::Clock;
use std::time::{SystemTime, UNIX_EPOCH};

/// The moment that the machine's clock tells, unless it tells none.
pub fn moment_now(rt: &impl Clock) -> Option<Moment> {
    let now = SystemTime::now(rt).ok()?;
    let seconds = now.duration_since(UNIX_EPOCH).ok()?.as_secs();
    if seconds < 1 << 63 {
        Some(Moment::new(seconds))
    } else {
        None
    }
}
