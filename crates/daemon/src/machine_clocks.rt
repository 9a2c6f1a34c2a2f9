//! The machine's two clocks.

ghost use Rattle.std.specs.Prelude.{◌≡◌, []};
ghost use Rattle.daemon.specs.Noting.{NotesTimes};

use crate::call_log::{CallLog, SystemCall};
use crate::machine_clock::MachineClock;
use event_loop::{Clocks, Times};
use serving::Clock;
use std::rt;

/// The machine's clocks, with a log of what they told: one tells the time of day, and one never goes back.
#[derive(Drop)]
pub struct MachineClocks<'r, R> {
    rt: &'r R,
    pub(crate) log: CallLog,
}

impl<'r, R: rt::Clock> MachineClocks<'r, R> {
    /// Those of a machine.
    pub(crate) fn new(rt: &'r R) -> MachineClocks<'r, R>
        ensures { result.log.calls ≡ [] }
    {
        MachineClocks {
            rt,
            log: CallLog::new(),
        }
    }

    // What they tell.
    fn times(&self) -> Option<Times> {
        let moment = MachineClock(self.rt).now()?;
        let steady = self.rt.monotonic().ok()?.as_secs();
        Some(Times { moment, steady })
    }
}

impl<'r, R: rt::Clock> Clocks for MachineClocks<'r, R> {
    ghost tells = { NotesTimes };

    fn read(&mut self) -> Option<Times> {
        let times = self.times();
        self.log.note(&SystemCall::Look(&times));
        times
    }
}
