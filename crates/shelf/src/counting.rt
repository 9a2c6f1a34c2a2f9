//! How many have not expired.
ghost use Rattle.std.specs.Prelude.{◌≡◌, ◌+◌, ◌<◌, ◌≤◌, ◌^◌, false, count_by, nat_lt, if◌then◌else◌};
ghost use Rattle.std.specs.Map.{values_of};
ghost use Rattle.shelf.specs.Shelved.{entries_of, in_slot, is_noticed, lasts, lasts_of, slot_at, IsShelved};

use crate::shelf::{Lasts, PENDING, Shelf};
use crate::slots::Blank;
use consent::Moment;

// One more, if it counts.
fn more_if(count: usize, counts: bool) -> usize
    requires { count + 1 < 2 ^ 64 }
    ensures { result ≡ count + (if counts then 1 else 0) }
{
    if counts {
        return count + 1;
    }
    count
}

impl<R: Lasts + Blank + Drop> Shelf<R> {
    // Whether what has expired at the moment is due, and nothing else is.
    fn is_noticed(&self, moment: Moment) -> bool
        requires { IsShelved R.until R.whose self.now }
        ensures { result ≡ is_noticed self.now moment }
    {
        self.second == moment.get() + 1 && self.wheel.first(PENDING).is_none()
    }

    // Whether what expires after the moment may be due already.
    pub(crate) fn is_past(&self, moment: Moment) -> bool
        ensures { result ≡ nat_lt (moment + 1) self.now.second }
    {
        moment.get() + 1 < self.second
    }

    // Whether something is in the slot that has not expired.
    fn is_lasting(&self, slot: usize, moment: Moment) -> bool
        ensures { result ≡ in_slot (lasts R.until moment) (slot_at self.now.slots.items slot) }
    {
        let Some(found) = self.slots.get(slot) else {
            return false;
        };
        moment.get() < found.kept.until()
    }

    // And it is of whose number this is.
    fn is_lasting_of(&self, slot: usize, whose: u32, moment: Moment) -> bool
        ensures { result ≡ in_slot (lasts_of R.until R.whose whose moment) (slot_at self.now.slots.items slot) }
    {
        let Some(found) = self.slots.get(slot) else {
            return false;
        };
        moment.get() < found.kept.until() && found.kept.whose() == whose
    }

    // In how many slots something is that has not expired: all are looked at.
    fn count_in(&self, moment: Moment) -> usize
        requires { is_noticed self.now moment ≡ false }
        ensures { result ≡ count_by (in_slot (lasts R.until moment)) self.now.slots.items }
    {
        let mut count = 0;
        for slot in 0..self.slots.len() {
            count = more_if(count, self.is_lasting(slot, moment));
        }
        count
    }

    // And it is of whose number this is.
    fn count_in_of(&self, whose: u32, moment: Moment) -> usize
        requires { is_noticed self.now moment ≡ false }
        ensures { result ≡ count_by (in_slot (lasts_of R.until R.whose whose moment)) self.now.slots.items }
    {
        let mut count = 0;
        for slot in 0..self.slots.len() {
            count = more_if(count, self.is_lasting_of(slot, whose, moment));
        }
        count
    }

    /// How many have not expired at the moment. Where that was noticed, none is looked at.
    pub fn count(&self, moment: Moment) -> usize
        requires { IsShelved R.until R.whose self.now }
        ensures { result ≡ count_by (lasts R.until moment) (values_of (entries_of self.now)) }
    {
        if self.is_noticed(moment) {
            return self.tally.all;
        }
        self.count_in(moment)
    }

    /// How many of whose number this is have not expired. Where that was noticed, none is looked at.
    pub fn count_of(&self, whose: u32, moment: Moment) -> usize
        requires { IsShelved R.until R.whose self.now }
        ensures { result ≡ count_by (lasts_of R.until R.whose whose moment) (values_of (entries_of self.now)) }
    {
        if self.is_noticed(moment) {
            return self.tally.share(whose);
        }
        self.count_in_of(whose, moment)
    }

    /// At least as many as have not expired at the moment: none is looked at.
    pub fn most(&self, moment: Moment) -> usize
        requires { IsShelved R.until R.whose self.now }
        ensures { count_by (lasts R.until moment) (values_of (entries_of self.now)) ≤ result }
    {
        if self.is_past(moment) {
            return self.used;
        }
        self.tally.all
    }

    /// At least as many of whose number this is as have not expired at the moment: none is looked at.
    pub fn most_of(&self, whose: u32, moment: Moment) -> usize
        requires { IsShelved R.until R.whose self.now }
        ensures { count_by (lasts_of R.until R.whose whose moment) (values_of (entries_of self.now)) ≤ result }
    {
        if self.is_past(moment) {
            return self.used;
        }
        self.tally.share(whose)
    }
}
