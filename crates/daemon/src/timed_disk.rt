//! How long the disk is waited for.

ghost use Rattle.std.specs.Prelude.{◌≡◌};

use crate::timing::nanos_now;
use batch_file::device::{Beginning, Device, DeviceFault, ReplaceFault};
use line_journal::Measures;
use std::alloc::Global;
use std::rt::Clock;
use system_faults::SystemFault;

/// A device of whose syncs it is measured how long they take, by a clock that never goes back.
#[derive(Drop)]
pub struct TimedDisk<'r, R, D> {
    rt: &'r R,
    pub(crate) device: D,
    measures: Option<Measures>,
}

impl<'r, R, D> TimedDisk<'r, R, D> {
    /// A device, measured in these measures, where there are some.
    pub(crate) fn new(rt: &'r R, device: D, measures: Option<Measures>) -> TimedDisk<'r, R, D>
        ensures { result.device ≡ device }
    {
        TimedDisk {
            rt,
            device,
            measures,
        }
    }
}

impl<'r, R: Clock, D> TimedDisk<'r, R, D> {
    // A sync that began then is over.
    fn note(&self, began: Option<u64>) {
        let (Some(began), Some(now), Some(measures)) = (began, nanos_now(self.rt), &self.measures)
        else {
            return;
        };
        measures.note_sync(now.saturating_sub(began));
    }
}

impl<'r, R: Clock, D: Device> Device for TimedDisk<'r, R, D> {
    ghost seen = { λ timed. D.seen timed.device };

    ghost may_leave = { λ timed left. D.may_leave timed.device left };

    ghost moment = { λ timed. D.moment timed.device };

    ghost left_since = { λ timed t left. D.left_since timed.device t left };

    ghost faults = { λ timed. D.faults timed.device };

    ghost reads_true = { λ timed. D.reads_true timed.device };

    ghost next = { λ timed. D.next timed.device };

    ghost next_on_disk = { λ timed. D.next_on_disk timed.device };

    ghost counts_now = { λ timed t left le now. D.counts_now timed.device t left le now };

    ghost only_now = { λ timed left since. D.only_now timed.device left since };

    ghost only_true = { λ timed left now. D.only_true timed.device left now };

    ghost is_sole = { λ timed t. D.is_sole timed.device t };

    ghost tends = { λ old now due new. D.tends old.device now due new.device };

    ghost tells_place = { λ timed is. D.tells_place timed.device is };

    ghost tells_full = { λ timed size reason. D.tells_full timed.device size reason };

    fn is_in_place(&self) -> bool {
        self.device.is_in_place()
    }

    fn write_at(&mut self, at: usize, bytes: &[u8]) -> Result<(), DeviceFault> {
        self.device.write_at(at, bytes)
    }

    fn grow(&mut self, end: usize, size: usize) -> Result<Option<SystemFault>, DeviceFault> {
        self.device.grow(end, size)
    }

    fn sync(&mut self) -> Result<(), DeviceFault> {
        let began = nanos_now(self.rt);
        let answer = self.device.sync();
        self.note(began);
        answer
    }

    fn begin(&mut self, end: usize, bytes: &[u8]) -> Result<Beginning, ReplaceFault> {
        self.device.begin(end, bytes)
    }

    fn confirm(&mut self) -> Result<(), DeviceFault> {
        self.device.confirm()
    }

    fn tend(&mut self, now: u64) -> Result<Option<u64>, DeviceFault> {
        self.device.tend(now)
    }

    fn replace(&mut self, bytes: &[u8]) -> Result<(), ReplaceFault> {
        self.device.replace(bytes)
    }

    fn read_at(&mut self, alloc: Global, at: usize, size: usize) -> Result<Vec<u8>, DeviceFault> {
        self.device.read_at(alloc, at, size)
    }

    fn begin_next(&mut self) -> Result<(), DeviceFault> {
        self.device.begin_next()
    }

    fn add_to_next(&mut self, bytes: &[u8]) -> Result<(), DeviceFault> {
        self.device.add_to_next(bytes)
    }

    fn sync_next(&mut self) -> Result<(), DeviceFault> {
        self.device.sync_next()
    }

    fn place_next(&mut self) -> Result<(), ReplaceFault> {
        self.device.place_next()
    }

    fn drop_next(&mut self) {
        self.device.drop_next()
    }

    fn set_aside(&self, torn: &[u8]) -> Result<(), DeviceFault> {
        self.device.set_aside(torn)
    }
}
