//! What has expired goes.
ghost use Rattle.std.specs.Prelude.{◌≡◌, ◌^◌, ◌*◌, ◌+◌, ◌<◌, ◌≤◌, ℕ, true, false, None, Some, IfSome, IfNone, length};
ghost use Rattle.std.specs.HashMap.{spare};
ghost use Rattle.shelf.specs.Shelved.{due_left, entries_of, pending_left, room, slot_at, slot_room, to_sort, AllLast, HasGone, IsCountedAs, IsHeldAt, IsSettled, IsShelved};
ghost use Rattle.shelf.specs.Looking.{is_expired, is_held, IsDueIn, IsExpiredAt};

use crate::filling::list_for;
use crate::shelf::{DUE, FREE, Lasts, PENDING, SECONDS, Shelf};
use crate::slots::Blank;
use consent::Moment;

impl<R: Lasts + Blank + Drop> Shelf<R> {
    // Whether something is in the slot.
    pub(crate) fn is_held(&self, slot: u32) -> bool
        ensures { result ≡ is_held (slot_at self.now.slots.items slot) }
    {
        self.slots.holds(slot as usize)
    }

    // Whether what is in the slot has expired.
    fn is_expired(&self, slot: usize, moment: Moment) -> bool
        ensures { result ≡ is_expired R.until moment (slot_at self.now.slots.items slot) }
    {
        let Some(found) = self.slots.get(slot) else {
            return false;
        };
        found.kept.until() <= moment.get()
    }

    // The next second has come: all of its list is pending.
    pub(crate) fn turn(&mut self)
        requires settled { IsSettled R.until R.whose self.old }
        requires more { self.old.second < 2 ^ 63 }
        ensures shelved { IsShelved R.until R.whose self.new }
        ensures slots { self.new.slots ≡ self.old.slots }
        ensures second { self.new.second ≡ self.old.second + 1 }
        ensures room { room self.new ≡ room self.old }
        ensures more { to_sort self.new ≤ to_sort self.old + 2 * length self.old.slots.items }
    {
        let list = (self.second % SECONDS as u64) as usize;
        self.wheel.move_all(list, PENDING);
        self.second += 1;
    }

    // One of those that are pending is where it belongs, and counts no more where it is due.
    pub(crate) fn sort(&mut self) -> bool
        requires { IsShelved R.until R.whose self.old }
        ensures shelved { IsShelved R.until R.whose self.new }
        ensures settled { result ≡ false → IsSettled R.until R.whose self.new }
        ensures same { result ≡ false → self.new ≡ self.old }
        ensures slots { self.new.slots ≡ self.old.slots }
        ensures second { self.new.second ≡ self.old.second }
        ensures room { (slot_room self.new ≡ slot_room self.old) × (spare self.new.tally.of ≡ spare self.old.tally.of) }
        ensures goes { result ≡ true → to_sort self.new < to_sort self.old }
    {
        let Some(slot) = self.wheel.pop(PENDING) else {
            return false;
        };
        let Some(facts) = self.facts_of(slot) else {
            self.wheel.push(FREE, slot);
            return true;
        };
        self.tally.leave_if(facts.until < self.second, facts.whose);
        let list = list_for(self.second, facts.until);
        self.wheel.push(list, slot);
        true
    }

    // All that is pending is where it belongs.
    pub(crate) fn settle(&mut self)
        requires { IsShelved R.until R.whose self.old }
        ensures settled { IsSettled R.until R.whose self.new }
        ensures slots { self.new.slots ≡ self.old.slots }
        ensures second { self.new.second ≡ self.old.second }
        ensures room { (slot_room self.new ≡ slot_room self.old) × (spare self.new.tally.of ≡ spare self.old.tally.of) }
        ensures less { to_sort self.new ≤ to_sort self.old }
    {
        while self.sort() {}
    }

    // Where all that is kept is due, no second before the moment has to be looked at.
    pub(crate) fn skip(&mut self, moment: Moment)
        requires shelved { IsShelved R.until R.whose self.old }
        requires before { self.old.second ≤ moment }
        ensures shelved { IsShelved R.until R.whose self.new }
        ensures slots { self.new.slots ≡ self.old.slots }
        ensures wheel { self.new.wheel ≡ self.old.wheel }
        ensures later { self.old.second ≤ self.new.second }
        ensures before { self.new.second ≤ moment }
        ensures room { room self.new ≡ room self.old }
    {
        if self.tally.all == 0 && self.second < moment.get() {
            self.second = moment.get();
        }
    }

    /// What has expired at the moment is due, and counts no more.
    pub fn notice(&mut self, moment: Moment)
        requires { IsShelved R.until R.whose self.old }
        ensures shelved { IsShelved R.until R.whose self.new }
        ensures settled { IsSettled R.until R.whose self.new }
        ensures slots { self.new.slots ≡ self.old.slots }
        ensures noticed { moment < self.new.second }
        ensures room { room self.new ≡ room self.old }
    {
        self.settle();
        while self.second <= moment.get() {
            self.skip(moment);
            self.turn();
            self.settle();
        }
    }

    // The first of those that are due comes first again, or its slot is free, where nothing is in it.
    pub(crate) fn look_due(&mut self) -> Option<u32>
        requires { IsShelved R.until R.whose self.old }
        ensures shelved { IsShelved R.until R.whose self.new }
        ensures slots { self.new.slots ≡ self.old.slots }
        ensures second { self.new.second ≡ self.old.second }
        ensures room { room self.new ≡ room self.old }
        ensures some { IfSome result (λ x. is_held (slot_at self.old.slots.items x) ≡ true → IsDueIn R.until R.whose self.new x) }
        ensures fewer { IfSome result (λ x. is_held (slot_at self.old.slots.items x) ≡ false → due_left self.new < due_left self.old) }
        ensures none { IfNone result ((due_left self.new ≡ 0) × (self.new ≡ self.old)) }
        ensures pending { pending_left self.new ≤ pending_left self.old }
        ensures due { due_left self.new ≤ due_left self.old }
    {
        let slot = self.wheel.pop(DUE)?;
        if self.is_held(slot) {
            self.wheel.push(DUE, slot);
            return Some(slot);
        }
        self.wheel.push(FREE, slot);
        Some(slot)
    }

    // A slot in which something is that is due.
    fn first_due(&mut self) -> Option<u32>
        requires { IsShelved R.until R.whose self.old }
        ensures shelved { IsShelved R.until R.whose self.new }
        ensures slots { self.new.slots ≡ self.old.slots }
        ensures second { self.new.second ≡ self.old.second }
        ensures room { room self.new ≡ room self.old }
        ensures some { IfSome result (λ x. IsDueIn R.until R.whose self.new x × IsHeldAt self.new x) }
        ensures none { IfNone result (due_left self.new ≡ 0) }
        ensures pending { pending_left self.new ≤ pending_left self.old }
    {
        while let Some(slot) = self.look_due() {
            if self.is_held(slot) {
                return Some(slot);
            }
        }
        None
    }

    // A slot in which something is that has expired: all are looked at, where what expires later is
    // due already.
    pub(crate) fn find_expired(&self, moment: Moment) -> Option<u32>
        requires shelved { IsShelved R.until R.whose self.now }
        requires past { moment + 1 < self.now.second }
        ensures some { IfSome result (λ x. IsExpiredAt R.until self.now x moment) }
        ensures none { IfNone result (AllLast R.until (entries_of self.now) moment) }
    {
        let mut slot = 0;
        while slot < self.slots.len() {
            if self.is_expired(slot, moment) {
                return Some(slot as u32);
            }
            slot += 1;
        }
        None
    }

    // A slot in which something is that has expired.
    fn next_expired(&mut self, moment: Moment) -> Option<u32>
        requires { IsShelved R.until R.whose self.old }
        ensures shelved { IsShelved R.until R.whose self.new }
        ensures slots { self.new.slots ≡ self.old.slots }
        ensures room { room self.new ≡ room self.old }
        ensures some { IfSome result (λ x. IsExpiredAt R.until self.new x moment) }
        ensures counted { IfSome result (λ x. IsCountedAs R.until R.whose self.new x false) }
        ensures none { IfNone result (AllLast R.until (entries_of self.new) moment) }
    {
        self.notice(moment);
        if self.second - 1 == moment.get() {
            return self.first_due();
        }
        self.find_expired(moment)
    }

    /// Takes something that has expired at the moment, if anything has.
    pub fn take_expired(&mut self, moment: Moment) -> Option<R>
        requires { IsShelved R.until R.whose self.old }
        ensures shelved { IsShelved R.until R.whose self.new }
        ensures some { IfSome result (λ r. HasGone R.until (entries_of self.old) (entries_of self.new) moment r) }
        ensures none { IfNone result ((entries_of self.new ≡ entries_of self.old) × AllLast R.until (entries_of self.new) moment) }
        ensures room { room self.new ≡ room self.old }
    {
        let slot = self.next_expired(moment)?;
        self.evict(slot, false)
    }
}
