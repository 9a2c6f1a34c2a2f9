//! The machine's clock.

use consent::Moment;
use serving::Clock;
use std::rt;
use std::time::{SystemTime, UNIX_EPOCH};

/// The machine's clock, which tells the time of day.
#[derive(Clone, Copy, Drop)]
pub struct MachineClock<'r, R>(pub &'r R);

impl<'r, R: rt::Clock> Clock for MachineClock<'r, R> {
    fn now(&mut self) -> Option<Moment> {
        let now = SystemTime::now(self.0).ok()?;
        let seconds = now.duration_since(UNIX_EPOCH).ok()?.as_secs();
        if seconds < 1 << 63 {
            Some(Moment::new(seconds))
        } else {
            None
        }
    }
}

/// The time of day, if the machine tells it.
pub(crate) fn moment_now<R: rt::Clock>(rt: &R) -> Option<Moment> {
    MachineClock(rt).now()
}
