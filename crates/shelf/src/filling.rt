//! What is put onto the shelf, and what is taken off it.
ghost use Rattle.std.specs.Prelude.{◌≡◌, ◌+◌, ◌<◌, ◌≤◌, ◌^◌, ◌∷◌, ℕ, None, Some, OnOk, IfSome, IfNone, length};
ghost use Rattle.std.specs.List.Sorted.{IsPermutation};
ghost use Rattle.std.specs.Map.{lookup, remove_entry};
ghost use Rattle.std.specs.HashMap.{spare};
ghost use Rattle.std.specs.Str.{bytes_eq};
ghost use Rattle.shelf.specs.Shelved.{entries_of, list_for, room, slot_at, slot_room, to_sort, Finds, HasTaken, IsCountedAs, IsHeldAt, IsLoose, IsShelved, Named, Puts};

use crate::finding::bucket;
use crate::shelf::{DUE, FREE, Lasts, SECONDS, Shelf};
use crate::slots::Blank;
use consent::Digest;
use std::alloc::AllocError;

// The list of what expires then, where this second is next: what is of a second that is over is due.
pub(crate) fn list_for(second: u64, until: u64) -> usize
    ensures { result ≡ list_for second until }
{
    if until < second {
        return DUE;
    }
    (until % SECONDS as u64) as usize
}

impl<R: Lasts + Blank + Drop> Shelf<R> {
    /// Takes the memory for so many more.
    pub fn reserve(&mut self, more: usize) -> Result<(), AllocError>
        requires { IsShelved R.until R.whose self.old }
        ensures shelved { IsShelved R.until R.whose self.new }
        ensures same { entries_of self.new ≡ entries_of self.old }
        ensures room { OnOk result (more ≤ room self.new) }
    {
        self.slots.reserve(more)?;
        self.names.reserve(more)?;
        self.wheel.reserve(more)?;
        self.tally.reserve(more)
    }

    // A slot in which nothing is, and which is in no list.
    fn free_slot(&mut self, digest: &Digest) -> u32
        requires shelved { IsShelved R.until R.whose self.old }
        requires room { 1 ≤ slot_room self.old }
        ensures loose { IsLoose R.until R.whose self.new result }
        ensures same { entries_of self.new ≡ entries_of self.old }
        ensures room { slot_room self.old ≤ slot_room self.new + 1 }
        ensures tally { self.new.tally ≡ self.old.tally }
    {
        if let Some(slot) = self.wheel.pop(FREE) {
            return slot;
        }
        let slot = self.slots.len() as u32;
        self.slots.widen(*digest);
        self.names.widen();
        self.wheel.widen();
        slot
    }

    // Puts it into the slot, in which nothing is.
    fn fill(&mut self, slot: u32, digest: &Digest, kept: R)
        requires loose { IsLoose R.until R.whose self.old slot }
        requires new { lookup (bytes_eq digest.now) (entries_of self.old) ≡ None }
        requires room { 1 ≤ spare self.old.tally.of }
        ensures shelved { IsShelved R.until R.whose self.new }
        ensures put { IsPermutation ((digest.now, kept) ∷ entries_of self.old) (entries_of self.new) }
        ensures found { Finds (entries_of self.old) (entries_of self.new) digest.now kept }
        ensures room { slot_room self.new ≡ slot_room self.old }
        ensures tally { spare self.old.tally.of ≤ spare self.new.tally.of + 1 }
    {
        let until = kept.until();
        self.tally.enter_if(self.second <= until, kept.whose());
        let list = bucket(&self.names, digest);
        self.names.push(list, slot);
        self.wheel.push(list_for(self.second, until), slot);
        self.slots.fill(slot as usize, *digest, kept);
        self.used += 1;
    }

    // Whether what is in the slot counts. Where it may or may not, all that is pending is looked at.
    pub(crate) fn counts(&mut self, slot: u32) -> bool
        requires shelved { IsShelved R.until R.whose self.old }
        requires held { IsHeldAt self.old slot }
        ensures counted { IsCountedAs R.until R.whose self.new slot result }
        ensures slots { self.new.slots ≡ self.old.slots }
        ensures second { self.new.second ≡ self.old.second }
        ensures room { (slot_room self.new ≡ slot_room self.old) × (spare self.new.tally.of ≡ spare self.old.tally.of) }
        ensures less { to_sort self.new ≤ to_sort self.old }
    {
        let Some(facts) = self.facts_of(slot) else {
            return false;
        };
        if self.second <= facts.until {
            return true;
        }
        self.settle();
        false
    }

    // Takes what is in the slot: the slot stays in its list by time until that is looked at.
    pub(crate) fn evict(&mut self, slot: u32, counts: bool) -> Option<R>
        requires counted { IsCountedAs R.until R.whose self.old slot counts }
        requires held { IsHeldAt self.old slot }
        ensures shelved { IsShelved R.until R.whose self.new }
        ensures gone { (s : Named R) → slot_at self.old.slots.items slot ≡ Some s → (result ≡ Some s.kept) × HasTaken (entries_of self.old) (entries_of self.new) s.key s.kept }
        ensures room { (slot_room self.new ≡ slot_room self.old) × (spare self.new.tally.of ≡ spare self.old.tally.of) }
        ensures second { self.new.second ≡ self.old.second }
        ensures wheel { self.new.wheel ≡ self.old.wheel }
        ensures long { length self.new.slots.items ≡ length self.old.slots.items }
        ensures fewer { length (entries_of self.new) + 1 ≡ length (entries_of self.old) }
    {
        let facts = self.facts_of(slot)?;
        self.tally.leave_if(counts, facts.whose);
        let list = bucket(&self.names, &facts.digest);
        self.names.remove(list, slot);
        self.used -= 1;
        Some(self.slots.clear(slot as usize))
    }

    /// Takes what the digest names.
    pub fn take(&mut self, digest: &Digest) -> Option<R>
        requires { IsShelved R.until R.whose self.old }
        ensures shelved { IsShelved R.until R.whose self.new }
        ensures some { IfSome result (λ r. HasTaken (entries_of self.old) (entries_of self.new) digest.now r) }
        ensures none { IfNone result ((entries_of self.new ≡ entries_of self.old) × (lookup (bytes_eq digest.now) (entries_of self.old) ≡ None)) }
        ensures room { (slot_room self.new ≡ slot_room self.old) × (spare self.new.tally.of ≡ spare self.old.tally.of) }
    {
        let slot = self.find(digest)?;
        let counts = self.counts(slot);
        self.evict(slot, counts)
    }

    /// Keeps it under the digest, in the place of what was.
    pub fn put(&mut self, digest: &Digest, kept: R) -> Option<R>
        requires shelved { IsShelved R.until R.whose self.old }
        requires room { 1 ≤ room self.old }
        ensures shelved { IsShelved R.until R.whose self.new }
        ensures puts { Puts (entries_of self.old) (entries_of self.new) digest.now kept result }
        ensures found { Finds (entries_of self.old) (entries_of self.new) digest.now kept }
        ensures room { room self.old ≤ room self.new + 1 }
    {
        let was = self.take(digest);
        let slot = self.free_slot(digest);
        self.fill(slot, digest, kept);
        was
    }
}
