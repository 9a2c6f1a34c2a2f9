//! A shelf that takes its memory once something is to be put there.
ghost use Rattle.std.specs.Prelude.{◌≡◌, ◌+◌, ◌<◌, ◌≤◌, ◌^◌, ℕ, [], Some, None, IfSome, IfNone, OnOk, false, length, count_by, option_copied};
ghost use Rattle.std.specs.Map.{lookup, values_of};
ghost use Rattle.std.specs.Str.{bytes_eq};
ghost use Rattle.chains.specs.Chained.{none};
ghost use Rattle.shelf.specs.Shelved.{AllLast, Finds, HasGone, Puts, lasts, lasts_of, slot_at, spent_in};
ghost use Rattle.shelf.specs.Looking.{is_done, LooksAt};
ghost use Rattle.shelf.specs.Standing.{stand_entries, stand_room, stand_slots, stand_to_look, IsStanding};

use crate::looking::Look;
use crate::shelf::{Lasts, Shelf, Slot};
use crate::slots::Blank;
use consent::{Digest, Moment};
use std::alloc::{AllocError, Global};

// The fewest lists by name, and the most; no more slots are made ready.
const LEAST: usize = 1 << 10;

pub(crate) const MOST: usize = 1 << 24;

/// What is kept: nothing, or a shelf.
#[derive(Drop)]
pub struct Stand<R> {
    pub(crate) shelf: Option<Shelf<R>>,
    /// For how many it is made.
    pub(crate) size: u32,
    /// The greatest moment that was asked about before it was.
    pub(crate) second: u64,
}

// How many lists by name there are for so many.
pub(crate) fn heads_for(size: u32) -> usize
    ensures some { 1 ≤ result }
    ensures few { result ≤ 16777216 }
{
    let mut heads = LEAST;
    let most = MOST.min(size as usize);
    while heads * 2 <= most {
        heads *= 2;
    }
    heads
}

impl<R: Lasts + Blank + Drop> Stand<R> {
    /// Nothing, and no memory yet: there will be for so many.
    pub fn new(size: u32) -> Stand<R>
        ensures standing { IsStanding R.until R.whose result }
        ensures empty { stand_entries result ≡ [] }
    {
        Stand {
            shelf: None,
            size,
            second: 0,
        }
    }

    /// How many are kept, with those that have expired and were not let go of.
    pub fn len(&self) -> usize
        requires { IsStanding R.until R.whose self.now }
        ensures value { result ≡ length (stand_entries self.now) }
        ensures small { result < none }
    {
        let Some(shelf) = &self.shelf else {
            return 0;
        };
        shelf.len()
    }

    /// What the digest names.
    pub fn get(&self, digest: &Digest) -> Option<&R>
        requires { IsStanding R.until R.whose self.now }
        ensures { option_copied result ≡ lookup (bytes_eq digest.now) (stand_entries self.now) }
    {
        let Some(shelf) = &self.shelf else {
            return None;
        };
        shelf.get(digest)
    }

    /// What the digest names was used, if it names something.
    pub fn spend(&mut self, digest: &Digest)
        requires { IsStanding R.until R.whose self.old }
        ensures standing { IsStanding R.until R.whose self.new }
        ensures spent { stand_entries self.new ≡ spent_in R.spent digest.now (stand_entries self.old) (lookup (bytes_eq digest.now) (stand_entries self.old)) }
        ensures room { stand_room self.new ≡ stand_room self.old }
    {
        if let Some(shelf) = &mut self.shelf {
            shelf.spend(digest);
        }
    }

    // The shelf, for which memory is taken where there is none. Where there is none for as many as it
    // is made for, it takes it as they come.
    fn make(&mut self, alloc: Global) -> Result<(), AllocError>
        requires { IsStanding R.until R.whose self.old }
        ensures standing { IsStanding R.until R.whose self.new }
        ensures same { stand_entries self.new ≡ stand_entries self.old }
    {
        if self.shelf.is_some() {
            return Ok(());
        }
        let heads = heads_for(self.size);
        let slots = (self.size as usize).min(MOST);
        let made = match Shelf::new(alloc, heads, slots, self.second) {
            Ok(shelf) => shelf,
            Err(_) => Shelf::new(alloc, heads, 0, self.second)?,
        };
        self.shelf = Some(made);
        Ok(())
    }

    /// Takes the memory for so many more.
    pub fn reserve(&mut self, alloc: Global, more: usize) -> Result<(), AllocError>
        requires { IsStanding R.until R.whose self.old }
        ensures standing { IsStanding R.until R.whose self.new }
        ensures same { stand_entries self.new ≡ stand_entries self.old }
        ensures room { OnOk result (more ≤ stand_room self.new) }
    {
        self.make(alloc)?;
        let Some(shelf) = &mut self.shelf else {
            return Err(AllocError);
        };
        shelf.reserve(more)
    }

    /// Keeps it under the digest, in the place of what was.
    pub fn put(&mut self, digest: &Digest, kept: R) -> Option<R>
        requires standing { IsStanding R.until R.whose self.old }
        requires room { 1 ≤ stand_room self.old }
        ensures standing { IsStanding R.until R.whose self.new }
        ensures puts { Puts (stand_entries self.old) (stand_entries self.new) digest.now kept result }
        ensures found { Finds (stand_entries self.old) (stand_entries self.new) digest.now kept }
        ensures room { stand_room self.old ≤ stand_room self.new + 1 }
    {
        let Some(shelf) = &mut self.shelf else {
            unreachable!()
        };
        shelf.put(digest, kept)
    }

    /// What has expired at the moment is counted no more.
    pub fn notice(&mut self, moment: Moment)
        requires { IsStanding R.until R.whose self.old }
        ensures standing { IsStanding R.until R.whose self.new }
        ensures same { stand_entries self.new ≡ stand_entries self.old }
        ensures room { stand_room self.new ≡ stand_room self.old }
    {
        let Some(shelf) = &mut self.shelf else {
            self.second = self.second.max(moment.get());
            return;
        };
        shelf.notice(moment);
    }

    /// Takes something that has expired at the moment, if anything has.
    pub fn take_expired(&mut self, moment: Moment) -> Option<R>
        requires { IsStanding R.until R.whose self.old }
        ensures standing { IsStanding R.until R.whose self.new }
        ensures some { IfSome result (λ r. HasGone R.until (stand_entries self.old) (stand_entries self.new) moment r) }
        ensures none { IfNone result ((stand_entries self.new ≡ stand_entries self.old) × AllLast R.until (stand_entries self.new) moment) }
        ensures room { stand_room self.new ≡ stand_room self.old }
    {
        let Some(shelf) = &mut self.shelf else {
            self.second = self.second.max(moment.get());
            return None;
        };
        shelf.take_expired(moment)
    }

    /// Looks at one of those that may have expired at the moment, if there is one.
    pub fn look(&mut self, moment: Moment) -> Look<R>
        requires { IsStanding R.until R.whose self.old }
        ensures standing { IsStanding R.until R.whose self.new }
        ensures looked { LooksAt R.until (stand_entries self.old) (stand_entries self.new) moment result }
        ensures goes { is_done result ≡ false → stand_to_look self.new moment < stand_to_look self.old moment }
        ensures room { stand_room self.new ≡ stand_room self.old }
    {
        let Some(shelf) = &mut self.shelf else {
            self.second = self.second.max(moment.get());
            return Look::Done;
        };
        shelf.look(moment)
    }

    /// At least as many as have not expired at the moment: none is looked at.
    pub fn most(&self, moment: Moment) -> usize
        requires { IsStanding R.until R.whose self.now }
        ensures { count_by (lasts R.until moment) (values_of (stand_entries self.now)) ≤ result }
    {
        let Some(shelf) = &self.shelf else {
            return 0;
        };
        shelf.most(moment)
    }

    /// At least as many of whose number this is as have not: none is looked at.
    pub fn most_of(&self, whose: u32, moment: Moment) -> usize
        requires { IsStanding R.until R.whose self.now }
        ensures { count_by (lasts_of R.until R.whose whose moment) (values_of (stand_entries self.now)) ≤ result }
    {
        let Some(shelf) = &self.shelf else {
            return 0;
        };
        shelf.most_of(whose, moment)
    }

    /// How many have not expired at the moment. Where that was noticed, none is looked at.
    pub fn count(&self, moment: Moment) -> usize
        requires { IsStanding R.until R.whose self.now }
        ensures { result ≡ count_by (lasts R.until moment) (values_of (stand_entries self.now)) }
    {
        let Some(shelf) = &self.shelf else {
            return 0;
        };
        shelf.count(moment)
    }

    /// How many of whose number this is have not. Where that was noticed, none is looked at.
    pub fn count_of(&self, whose: u32, moment: Moment) -> usize
        requires { IsStanding R.until R.whose self.now }
        ensures { result ≡ count_by (lasts_of R.until R.whose whose moment) (values_of (stand_entries self.now)) }
    {
        let Some(shelf) = &self.shelf else {
            return 0;
        };
        shelf.count_of(whose, moment)
    }

    /// How many slots there are.
    pub fn slot_count(&self) -> usize
        ensures { result ≡ length (stand_slots self.now) }
    {
        let Some(shelf) = &self.shelf else {
            return 0;
        };
        shelf.slots.len()
    }

    /// What is in the slot, if anything is.
    pub fn slot(&self, slot: usize) -> Option<&Slot<Digest, R>>
        ensures { option_copied result ≡ slot_at (stand_slots self.now) slot }
    {
        let Some(shelf) = &self.shelf else {
            return None;
        };
        shelf.slots.get(slot)
    }
}
