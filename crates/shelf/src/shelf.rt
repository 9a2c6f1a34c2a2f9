//! The shelf.
ghost use Rattle.std.specs.Prelude.{◌≡◌, ◌+◌, ◌≤◌, ◌<◌, ◌^◌, ℕ, [], IfOk, length};
ghost use Rattle.chains.specs.Chained.{none};
ghost use Rattle.shelf.specs.Shelved.{entries_of, IsShelved, lists_of_wheel};

use crate::slots::{Blank, Slots};
use crate::tally::Tally;
use chains::Chains;
use consent::Digest;
use std::alloc::{AllocError, Global};

/// How many lists there are by the second of expiry.
pub(crate) const SECONDS: usize = 1 << 16;

/// The list of what was taken out of those, and has not been looked at.
pub(crate) const PENDING: usize = SECONDS;

/// The list of what has expired.
pub(crate) const DUE: usize = SECONDS + 1;

/// The list of the slots in which nothing is.
pub(crate) const FREE: usize = SECONDS + 2;

/// What can be kept: until a moment.
pub trait Lasts {
    /// The first moment at which it has expired.
    ghost until: { Self → ℕ };

    /// The number of whose it is.
    ghost whose: { Self → ℕ };

    /// As it is once it was used.
    ghost spent: { Self → Self };

    fn until(&self) -> u64
        ensures { result ≡ until self.now };

    fn whose(&self) -> u32
        ensures { result ≡ whose self.now };

    fn spend(&mut self)
        ensures spent { self.new ≡ spent self.old }
        ensures until { until self.new ≡ until self.old }
        ensures whose { whose self.new ≡ whose self.old };
}

/// What is kept, and what names it.
#[derive(Drop)]
pub struct Slot<K, R> {
    pub key: K,
    pub kept: R,
}

/// What the lists and the tally tell of what is kept.
#[derive(Clone, Copy)]
pub(crate) struct Facts {
    pub(crate) digest: Digest,
    pub(crate) until: u64,
    pub(crate) whose: u32,
}

/// What is kept.
#[derive(Drop)]
pub struct Shelf<R> {
    pub(crate) slots: Slots<Digest, R>,
    /// The slots by what names them.
    pub(crate) names: Chains,
    /// The slots by when they expire, those that have, and the free ones.
    pub(crate) wheel: Chains,
    /// What has not expired before the second.
    pub(crate) tally: Tally,
    /// In how many slots something is.
    pub(crate) used: usize,
    /// What expires before this second is due, or pending.
    pub(crate) second: u64,
}

impl<R: Lasts + Blank + Drop> Shelf<R> {
    /// Nothing, with so many lists by name, and the memory for so many slots. What expires before the
    /// second is due at once.
    pub fn new(
        alloc: Global,
        heads: usize,
        slots: usize,
        second: u64,
    ) -> Result<Shelf<R>, AllocError>
        requires heads { 1 ≤ heads }
        requires names { heads + slots ≤ none }
        requires wheel { lists_of_wheel + slots ≤ none }
        ensures shelved { IfOk result (λ shelf. IsShelved R.until R.whose shelf) }
        ensures empty { IfOk result (λ shelf. entries_of shelf ≡ []) }
    {
        let names = Chains::new(alloc, heads, slots)?;
        let wheel = Chains::new(alloc, FREE + 1, slots)?;
        Ok(Shelf {
            slots: Slots::new(alloc, slots)?,
            names,
            wheel,
            tally: Tally::new(alloc),
            used: 0,
            second,
        })
    }

    /// How many are kept, with those that have expired and were not let go of.
    pub fn len(&self) -> usize
        requires { IsShelved R.until R.whose self.now }
        ensures value { result ≡ length (entries_of self.now) }
        ensures small { result < none }
    {
        self.used
    }
}
