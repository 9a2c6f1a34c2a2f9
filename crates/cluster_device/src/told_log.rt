//! What a source told, as a list that only clauses read and that takes no memory.

ghost use Rattle.std.specs.Prelude.{◌≡◌, ◌++◌, [], List, ℕ};
ghost use Rattle.std.specs.Borrow.{ftrue};
ghost use Rattle.cluster_device.specs.Sources.{with_note};

use std::marker::{Model, PhantomData};

/// The bytes that were told.
#[derive(Drop)]
pub struct ToldLog {
    marker: PhantomData<u8>,
    pub ghost told: { List ℕ },
}

impl Model for ToldLog {
    ghost also_owns = { λ _. ftrue };
}

impl ToldLog {
    /// None.
    pub(crate) fn new() -> ToldLog
        ensures { result.told ≡ [] }
    {
        ToldLog {
            marker: PhantomData,
        }
    }

    /// Notes what was told, by its kind, which is the first of the numbers.
    fn note(&mut self, _numbers: &[u64], _bytes: &[u8])
        ensures { self.new.told ≡ with_note _numbers.now _bytes.now self.old.told }
    {}

    /// More was.
    pub(crate) fn add(&mut self, bytes: &[u8])
        ensures { self.new.told ≡ self.old.told ++ bytes.now }
    {
        self.note(&[0], bytes);
    }

    /// It begins anew.
    pub(crate) fn clear(&mut self)
        ensures { self.new.told ≡ [] }
    {
        self.note(&[1], &[]);
    }
}
