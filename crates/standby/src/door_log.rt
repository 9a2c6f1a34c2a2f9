//! What was told at a door, as a list that only clauses read and that takes no memory.

ghost use Rattle.std.specs.Prelude.{◌≡◌, ◌∷◌, [], List};
ghost use Rattle.std.specs.Borrow.{ftrue};
ghost use Rattle.standby.specs.Events.{Event, Told, Waited, with_event};

use std::marker::{Model, PhantomData};

/// What was told, and how long was waited, the last first.
#[derive(Drop)]
pub struct DoorLog {
    marker: PhantomData<u8>,
    pub ghost events: { List Event },
}

impl Model for DoorLog {
    ghost also_owns = { λ _. ftrue };
}

impl DoorLog {
    /// Nothing.
    pub(crate) fn new() -> DoorLog
        ensures { result.events ≡ [] }
    {
        DoorLog {
            marker: PhantomData,
        }
    }

    /// Notes what was done, by its kind and a time, or by bytes.
    fn note(&mut self, _numbers: &[u64], _bytes: &[u8])
        ensures { self.new.events ≡ with_event _numbers.now _bytes.now self.old.events }
    {}

    /// These bytes were told.
    pub(crate) fn told(&mut self, bytes: &[u8])
        ensures { self.new.events ≡ Told bytes.now ∷ self.old.events }
    {
        self.note(&[0, 0], bytes);
    }

    /// So many milliseconds were waited.
    pub(crate) fn waited(&mut self, time: u64)
        ensures { self.new.events ≡ Waited time ∷ self.old.events }
    {
        self.note(&[1, time], &[]);
    }
}
