//! What has expired goes, a look at a time.
ghost use Rattle.std.specs.Prelude.{◌≡◌, ◌+◌, ◌<◌, ◌≤◌, true, false};
ghost use Rattle.shelf.specs.Shelved.{due_left, entries_of, room, IsSettled, IsShelved};
ghost use Rattle.shelf.specs.Looking.{is_done, to_look, LooksAt};

use crate::shelf::{Lasts, Shelf};
use crate::slots::Blank;
use consent::Moment;

/// What came of a look at what may have expired.
#[derive(Drop)]
pub enum Look<R> {
    /// This had expired, and is not kept any more.
    Gone(R),
    /// Nothing went. There may be more to look at.
    More,
    /// Nothing that is kept has expired.
    Done,
}

impl<R: Lasts + Blank + Drop> Shelf<R> {
    // One of those that are pending is where it belongs, or else the next second has come, if it is not
    // after the moment.
    fn go_on(&mut self, moment: Moment) -> bool
        requires { IsShelved R.until R.whose self.old }
        ensures shelved { IsShelved R.until R.whose self.new }
        ensures settled { result ≡ false → IsSettled R.until R.whose self.new }
        ensures later { result ≡ false → moment < self.new.second }
        ensures same { result ≡ false → self.new ≡ self.old }
        ensures slots { self.new.slots ≡ self.old.slots }
        ensures room { room self.new ≡ room self.old }
        ensures goes { result ≡ true → to_look self.new moment < to_look self.old moment }
    {
        if self.sort() {
            return true;
        }
        if moment.get() < self.second {
            return false;
        }
        self.skip(moment);
        self.turn();
        true
    }

    // A look at something that is not due.
    fn look_on(&mut self, moment: Moment) -> Look<R>
        requires shelved { IsShelved R.until R.whose self.old }
        requires none_due { due_left self.old ≡ 0 }
        ensures shelved { IsShelved R.until R.whose self.new }
        ensures looked { LooksAt R.until (entries_of self.old) (entries_of self.new) moment result }
        ensures goes { is_done result ≡ false → to_look self.new moment < to_look self.old moment }
        ensures room { room self.new ≡ room self.old }
    {
        if self.go_on(moment) {
            return Look::More;
        }
        Look::Done
    }

    // A look at all, where what expires later is due already.
    fn look_back(&mut self, moment: Moment) -> Look<R>
        requires shelved { IsShelved R.until R.whose self.old }
        requires past { moment + 1 < self.old.second }
        ensures shelved { IsShelved R.until R.whose self.new }
        ensures looked { LooksAt R.until (entries_of self.old) (entries_of self.new) moment result }
        ensures goes { is_done result ≡ false → to_look self.new moment < to_look self.old moment }
        ensures room { room self.new ≡ room self.old }
    {
        let Some(slot) = self.find_expired(moment) else {
            return Look::Done;
        };
        let counts = self.counts(slot);
        let Some(gone) = self.evict(slot, counts) else {
            return Look::More;
        };
        Look::Gone(gone)
    }

    /// Looks at one of those that may have expired at the moment, if there is one.
    pub fn look(&mut self, moment: Moment) -> Look<R>
        requires { IsShelved R.until R.whose self.old }
        ensures shelved { IsShelved R.until R.whose self.new }
        ensures looked { LooksAt R.until (entries_of self.old) (entries_of self.new) moment result }
        ensures goes { is_done result ≡ false → to_look self.new moment < to_look self.old moment }
        ensures room { room self.new ≡ room self.old }
    {
        if self.is_past(moment) {
            return self.look_back(moment);
        }
        let Some(slot) = self.look_due() else {
            return self.look_on(moment);
        };
        if !self.is_held(slot) {
            return Look::More;
        }
        let Some(gone) = self.evict(slot, false) else {
            return Look::More;
        };
        Look::Gone(gone)
    }
}
