//! The store of codes and tokens.
ghost use Rattle.std.specs.Prelude.{◌≡◌, ◌≤◌, ◌⊎◌, ◌+◌, ℕ, List, [], None, length, option_map, IfErr, IfOk, OnOk};
ghost use Rattle.consent.specs.History.{Event, families_of, greatest_family, is_new, next_family, unexpired_count, with_change};
ghost use Rattle.consent.specs.Changes.{as_list, change_of};
ghost use Rattle.consent.specs.Seen.{seen_at};
ghost use Rattle.token_store.specs.Kept.{Held};
ghost use Rattle.token_store.specs.Records.{ArePeopled, IsTied};
ghost use Rattle.token_store.specs.Room.{held_of, HasRoom};
ghost use Rattle.token_store.specs.Fits.{FitsHistory, FitsStore, ForEachHistory, MakesChanges, refusal};
ghost use Rattle.token_store.specs.Image.{as_kept};
ghost use Rattle.token_store.specs.Lists.{family_told, standing_refusal, FitsList, ForEachList, RefusesAgain};
ghost use Rattle.token_store.specs.Found.{family_at, family_seen, found_seen};

use crate::fault::{AgainFault, StoreFault};
use crate::found::{Family, Found};
use crate::quota::Quota;
use crate::tables::Tables;
use consent::{Change, Changes, Digest, FAMILY_LIMIT, KeptRecord, Moment, OwnerNo};
use std::alloc::{AllocError, Global};
use std::marker::Model;

/// The codes and tokens that were given.
#[derive(Drop)]
pub struct Store {
    tables: Tables,
    alloc: Global,
}

impl Model for Store {
    ghost Value = { Held };

    ghost view = { λ s. held_of s.tables };

    ghost invariant = { λ s. IsTied s.tables };
}

impl Store {
    /// No codes and tokens, which later ones take memory from `alloc` for: the first for so many.
    pub fn new(alloc: Global, size: u32) -> Self
        ensures fits { (moment : ℕ) → FitsStore result [] moment }
        ensures list { (moment : ℕ) → FitsList result [] moment }
    {
        Store {
            tables: Tables::new(alloc, size),
            alloc,
        }
    }

    /// The unexpired codes and tokens, of which a store can be made again.
    pub fn records(&self, alloc: Global, moment: Moment) -> Result<Vec<KeptRecord<'_>>, AllocError>
        ensures { IfOk result (λ list. ForEachHistory self.now moment (λ history. FitsHistory (as_kept list.items) history moment)) }
    {
        self.tables.kept_records(alloc, moment)
    }

    /// What the digest names, if it is unexpired.
    pub fn at(&self, digest: &Digest, moment: Moment) -> Option<Found<'_>>
        ensures { ForEachHistory self.now moment (λ history. option_map found_seen result ≡ seen_at history digest.now moment) }
    {
        let record = self.tables.record_at(digest, moment)?;
        let shared = self.tables.families.get(record.family)?;
        Some(record.found(shared))
    }

    /// The family of the number, if something of it is unexpired.
    pub fn family(&self, number: u64, moment: Moment) -> Option<Family>
        ensures { ForEachHistory self.now moment (λ history. option_map family_seen result ≡ family_at history moment number) }
    {
        if !self.tables.lives(number, moment) {
            return None;
        }
        Some(self.tables.families.get(number)?.family())
    }

    /// Whether the number is greater than that of each family so far.
    pub fn is_new(&self, number: u64) -> bool
        ensures { (history : List Event) (moment : ℕ) → FitsStore self.now history moment → result ≡ is_new history number }
    {
        self.tables.last < number
    }

    /// The number of the family that is opened next. There is one, unless 2^64 - 1 has been one's.
    pub fn next_family(&self) -> Option<u64>
        ensures { (history : List Event) (moment : ℕ) → FitsStore self.now history moment → result ≡ next_family history }
    {
        if self.tables.last < FAMILY_LIMIT {
            return Some(self.tables.last + 1);
        }
        None
    }

    /// The greatest number of a family so far, 0 where there is none.
    pub fn last_family(&self) -> u64
        ensures { (history : List Event) (moment : ℕ) → FitsStore self.now history moment → result ≡ greatest_family history }
    {
        self.tables.last
    }

    /// Why codes or tokens of these digests may not be given to the client of the quota. Full comes
    /// first, and DrawTaken last.
    pub fn refusal(&self, digests: &[Digest], quota: &Quota, moment: Moment) -> Option<StoreFault>
        ensures { ForEachHistory self.now moment (λ history. result ≡ refusal quota.now history moment digests.now) }
    {
        self.tables.refusal(digests, quota, moment)
    }

    /// How many of the owner's families there are that a code opened and nothing ended, and of which
    /// something is unexpired.
    pub fn families_of(&self, owner: OwnerNo, moment: Moment) -> usize
        ensures { ForEachHistory self.now moment (λ history. result ≡ families_of history owner moment) }
    {
        self.tables.families_of(owner, moment)
    }

    /// Takes the memory that the changes need, which changes no answer.
    pub fn reserve(&mut self, changes: &Changes<'_>) -> Result<(), AllocError>
        ensures room { OnOk result (HasRoom self.new (as_list changes.now)) }
        ensures fits { (history : List Event) (moment : ℕ) → FitsStore self.old history moment → FitsStore self.new history moment }
    {
        self.tables.reserve(self.alloc, changes)
    }

    /// Makes the changes, which room was made for.
    pub fn apply(&mut self, changes: &Changes<'_>, moment: Moment)
        requires { HasRoom self.old (as_list changes.now) }
        ensures { MakesChanges self.old self.new moment (as_list changes.now) }
    {
        self.tables.apply(changes, moment);
    }

    /// Lets go of what has expired, which changes no answer.
    pub fn drop_expired(&mut self, moment: Moment)
        ensures fits { ForEachHistory self.old moment (λ history. FitsStore self.new history moment) }
        // Spent ones and those of ended families are unexpired too.
        ensures kept { ForEachHistory self.old moment (λ history. length self.new.kept ≡ unexpired_count history moment) }
    {
        self.tables.drop_expired(moment, false);
    }

    /// Lets go of some of what has expired, which changes no answer: of all, or of 64 codes and tokens.
    pub fn drop_some(&mut self, moment: Moment)
        ensures fits { ForEachHistory self.old moment (λ history. FitsStore self.new history moment) }
        ensures kept { ForEachHistory self.old moment
            (λ history. (length self.new.kept ≡ unexpired_count history moment) ⊎ length self.new.kept + 64 ≤ length self.old.kept) }
    {
        self.tables.drop_some(moment);
    }

    /// Makes a change of a list again: one that can stand next in it, though it could not follow.
    pub fn redo(&mut self, change: &Change<'_>, moment: Moment) -> Result<(), AgainFault>
        ensures redone { OnOk result (ForEachList self.old moment (λ list. FitsList self.new (with_change list moment (change_of change.now)) moment)) }
        ensures stands { OnOk result (ForEachList self.old moment (λ list. standing_refusal list moment change.now ≡ None)) }
        ensures refused { IfErr result (RefusesAgain self.old moment change.now) }
    {
        self.tables.redo(self.alloc, change, moment)
    }

    /// Lets go of the codes and tokens that have expired, and of no family.
    pub fn drop_records(&mut self, moment: Moment)
        ensures { ForEachList self.old moment (λ list. FitsList self.new list moment) }
    {
        self.tables.drop_expired(moment, true);
    }

    /// The family of the number, whether something of it is unexpired or not.
    pub fn family_told(&self, number: u64) -> Option<Family>
        ensures { (list : List Event) (moment : ℕ) → FitsList self.now list moment → option_map family_seen result ≡ family_told list number }
    {
        Some(self.tables.families.get(number)?.family())
    }

    /// The list is at its end: families without codes and tokens go.
    pub fn settle(&mut self)
        ensures fits { (list : List Event) (moment : ℕ) → FitsList self.old list moment → FitsStore self.new list moment }
        ensures peopled { ArePeopled self.new.room.families }
    {
        self.tables.settle();
    }

    /// How many codes and tokens it has in memory, with those that have expired and were not let go of.
    pub fn kept(&self) -> usize
        ensures { result ≡ length self.now.kept }
    {
        self.tables.records.len()
    }
}
