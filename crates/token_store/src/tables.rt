//! The tables: records by digest, the families, and those of each owner and client.
ghost use Rattle.std.specs.Prelude.{nat_eq, ◌==◌, ◌≡◌, ◌+◌, ◌<◌, ◌≤◌, ◌^◌, ℕ, [], ◌∷◌, ◌++◌, None, Some, true, false, not, nat_lt, max, bytes_eq, count_by, is_some, option_copied, OnOk, OnErr, IfSome, IfNone};
ghost use Rattle.std.specs.List.{list_any, IsDistinct};
ghost use Rattle.std.specs.Map.{lookup, keys_of, values_of};
ghost use Rattle.shelf.specs.Shelved.{in_slot};
ghost use Rattle.shelf.specs.Standing.{stand_entries};
ghost use Rattle.token_store.specs.Kept.{kept_at, kept_lives, kept_unexpired, kept_unexpired_of};
ghost use Rattle.token_store.specs.FitsParts.{are_kept, has_kept_client_room, has_kept_room, kept_refusal};
ghost use Rattle.token_store.specs.Room.{HasSpare, Waits, room_of};
ghost use Rattle.token_store.specs.Records.{family_numbered, is_member_at, expiry, kept_of, shared_at, turned, IsOwned, IsTied};
ghost use Rattle.token_store.specs.RecordsParts.{goes_beyond, is_open_of, key_of, open_in, start_of, IsNextOwned, kept_found, HasEntered, HasLeft, HasClosed, HasEnded, HasIndexed, HasLowered, HasStruck, KeepsAs, KeepsToo, OthersStay, TellsSame};

use crate::fault::StoreFault;
use crate::kin::Families;
use crate::quota::Quota;
use crate::record::{CodeTexts, Record, Shared};
use consent::{ClientNo, Digest, Moment, OwnerNo, ScopeSet};
use shelf::{Slot, Stand};
use std::alloc::{AllocError, Global};
use std::collections::BTreeSet;
use std::ops::Bound;

/// Of a family: the numbers of its owner and client, and the place of its own.
pub(crate) type OwnerKey = ((u32, u32), u64);

/// Families that have not ended and whose code is known.
pub(crate) type Owners = BTreeSet<OwnerKey>;

/// A family without records, for a code or a token that is about to come.
#[derive(Drop)]
pub(crate) struct Coming {
    pub(crate) number: u64,
    /// A code's texts.
    pub(crate) texts: Option<Box<CodeTexts>>,
}

#[derive(Drop)]
pub(crate) struct Tables {
    pub(crate) records: Stand<Record>,
    pub(crate) families: Families,
    /// The families that a code opened and nothing ended, by owner and client.
    pub(crate) owners: Owners,
    /// What room was made for.
    pub(crate) coming: Option<Coming>,
    /// The greatest number of a family so far.
    pub(crate) last: u64,
    /// What was let go of so far had expired by then.
    pub(crate) swept: u64,
}

impl Tables {
    /// Nothing. Once the first comes memory is made ready for so many records.
    pub(crate) fn new(alloc: Global, size: u32) -> Self
        ensures tied { IsTied result }
        ensures empty { kept_of result ≡ [] }
        ensures homeless { result.families.entries ≡ [] }
        ensures coming { result.coming ≡ None }
        ensures last { result.last ≡ 0 }
    {
        Tables {
            records: Stand::new(size),
            families: Families::new(alloc, size),
            owners: BTreeSet::new(alloc),
            coming: None,
            last: 0,
            swept: 0,
        }
    }

    /// The unexpired record of the digest.
    #[tactic(auto, using(crate::proofs::Looking::found))]
    pub(crate) fn record_at(&self, digest: &Digest, moment: Moment) -> Option<&Record>
        requires { IsTied self.now }
        ensures { kept_found self.now digest.now (option_copied result) ≡ kept_at (kept_of self.now) digest.now moment }
    {
        let record = self.records.get(digest)?;
        if !record.is_unexpired(moment) {
            return None;
        }
        Some(record)
    }

    // How many records are unexpired.
    fn count_unexpired(&self, moment: Moment) -> usize
        requires { IsTied self.now }
        ensures { result ≡ kept_unexpired (kept_of self.now) moment }
    {
        self.records.count(moment)
    }

    // At least as many as are unexpired: none is looked at.
    fn most_unexpired(&self, moment: Moment) -> usize
        requires { IsTied self.now }
        ensures { kept_unexpired (kept_of self.now) moment ≤ result }
    {
        self.records.most(moment)
    }

    /// So many more would be one too many.
    pub(crate) fn is_full(&self, limit: u32, more: usize, moment: Moment) -> bool
        requires { IsTied self.now }
        ensures { result ≡ not (has_kept_room limit (kept_of self.now) moment more) }
    {
        let Some(most) = most_before(limit, more) else {
            return true;
        };
        self.most_unexpired(moment) > most && self.count_unexpired(moment) > most
    }

    // How many of the client's records are unexpired.
    fn count_of(&self, client: ClientNo, moment: Moment) -> usize
        requires { IsTied self.now }
        ensures { result ≡ kept_unexpired_of (kept_of self.now) client moment }
    {
        self.records.count_of(client.get(), moment)
    }

    // At least as many as are unexpired of the client's: none is looked at.
    fn most_of(&self, client: ClientNo, moment: Moment) -> usize
        requires { IsTied self.now }
        ensures { kept_unexpired_of (kept_of self.now) client moment ≤ result }
    {
        self.records.most_of(client.get(), moment)
    }

    // So many more of the client's would be one too many, if those have a limit.
    fn is_client_full(&self, quota: &Quota, more: usize, moment: Moment) -> bool
        requires { IsTied self.now }
        ensures { result ≡ not (has_kept_client_room quota.now.of_client (kept_of self.now) quota.now.client moment more) }
    {
        let Some(limit) = quota.of_client else {
            return false;
        };
        let Some(most) = most_before(limit, more) else {
            return true;
        };
        self.most_of(quota.client, moment) > most && self.count_of(quota.client, moment) > most
    }

    // One of the digests is that of an unexpired record, or of another of them.
    pub(crate) fn is_taken(&self, digests: &[Digest], moment: Moment) -> bool
        requires { IsTied self.now }
        ensures { result ≡ are_kept (kept_of self.now) moment digests.now }
    {
        let [digest, others @ ..] = digests else {
            return false;
        };
        if self.record_at(digest, moment).is_some() || is_among(digest, others) {
            return true;
        }
        self.is_taken(others, moment)
    }

    /// Why codes or tokens of these digests may not be given to the client of the quota.
    pub(crate) fn refusal(
        &self,
        digests: &[Digest],
        quota: &Quota,
        moment: Moment,
    ) -> Option<StoreFault>
        requires { IsTied self.now }
        ensures { result ≡ kept_refusal quota.now (kept_of self.now) moment digests.now }
    {
        if self.is_full(quota.records, digests.len(), moment) {
            return Some(StoreFault::Full);
        }
        if self.is_client_full(quota, digests.len(), moment) {
            return Some(StoreFault::ClientFull);
        }
        let is_taken = self.is_taken(digests, moment);
        is_taken.then_some(StoreFault::DrawTaken)
    }

    // Whether records are of the family.
    pub(crate) fn is_peopled(&self, number: u64) -> bool
        ensures { result ≡ nat_lt 0 (shared_at self.now.families.entries number).count }
    {
        let family = self.families.get(number);
        family.is_some_and(|shared| shared.count > 0)
    }

    /// Whether one of the family's records is unexpired.
    pub(crate) fn lives(&self, number: u64, moment: Moment) -> bool
        requires { IsTied self.now }
        ensures { result ≡ kept_lives (kept_of self.now) moment number }
    {
        if moment.get() < self.swept {
            return self.has_live(number, moment);
        }
        self.lasts(number, moment)
    }

    // Whether one may be, by when the last of them expires.
    fn lasts(&self, number: u64, moment: Moment) -> bool
        ensures { result ≡ nat_lt moment (shared_at self.now.families.entries number).until }
    {
        let family = self.families.get(number);
        family.is_some_and(|shared| moment.get() < shared.until)
    }

    // Whether one is, at a moment before what has gone expired: all records are looked at.
    fn has_live(&self, number: u64, moment: Moment) -> bool
        requires { moment < self.now.swept }
        ensures { result ≡ list_any (is_member_at number moment) (values_of (stand_entries self.now.records)) }
    {
        for slot in 0..self.records.slot_count() {
            if is_member_in(self.records.slot(slot), number, moment) {
                return true;
            }
        }
        false
    }

    /// How many of the owner's families there are that a code opened and nothing ended, and of which
    /// something is unexpired: all families are looked at.
    pub(crate) fn families_of(&self, owner: OwnerNo, moment: Moment) -> usize
        requires { IsTied self.now }
        ensures count { result ≡ count_by (is_open_of owner (kept_lives (kept_of self.now) moment)) self.now.families.entries }
        ensures unique { IsDistinct nat_eq (keys_of self.now.families.entries) }
    {
        let Some(slots) = self.families.slots() else {
            return 0;
        };
        let mut count = 0;
        for slot in 0..slots.len() {
            count += usize::from(self.is_open_in(slots.get(slot), owner, moment));
        }
        count
    }

    // Whether such a family is in the slot.
    fn is_open_in(&self, slot: Option<&Slot<u64, Shared>>, owner: OwnerNo, moment: Moment) -> bool
        requires { IsTied self.now }
        ensures { result ≡ open_in owner (kept_lives (kept_of self.now) moment) (option_copied slot.entry) }
    {
        let Some(found) = slot else {
            return false;
        };
        found.kept.is_open_for(owner) && self.lives(found.key, moment)
    }

    /// The number is a family's.
    pub(crate) fn pass(&mut self, number: u64)
        requires { IsTied self.old }
        ensures tied { IsTied self.new }
        ensures same { self.new ≡ record self.old { last = max self.old.last number } }
    {
        self.last = self.last.max(number);
    }

    /// Opens a family without records, in the place of one without any.
    pub(crate) fn open_family(&mut self, number: u64, shared: Shared) -> Result<(), AllocError>
        requires tied { IsTied self.old }
        requires empty { shared.count ≡ 0 }
        requires fresh { shared.until ≡ 0 }
        requires bare { (shared_at self.old.families.entries number).count ≡ 0 }
        ensures tied { IsTied self.new }
        ensures here { OnOk result (family_numbered self.new.families.entries number ≡ Some shared) }
        ensures others { OthersStay self.old.families.entries self.new.families.entries number }
        ensures same { kept_of self.new ≡ kept_of self.old }
        ensures beside { self.new ≡ record self.old { families = self.new.families; owners = self.new.owners } }
    {
        close(&mut self.families, &mut self.owners, number);
        self.families.reserve(1)?;
        add_owner(&mut self.owners, key_of(&shared, number))?;
        self.families.put(number, shared);
        Ok(())
    }

    /// Keeps the record in its family, in the place of what has expired under its digest.
    pub(crate) fn put(&mut self, digest: &Digest, new: Record)
        requires tied { IsTied self.old }
        requires open { is_some (family_numbered self.old.families.entries new.family) ≡ true }
        requires passed { new.family ≤ self.old.last }
        requires room { HasSpare (room_of self.old) 1 }
        ensures tied { IsTied self.new }
        ensures last { self.new.last ≡ self.old.last }
        ensures coming { self.new.coming ≡ self.old.coming }
        ensures peopled { 0 < (shared_at self.new.families.entries new.family).count }
        ensures keeps { KeepsToo self.old self.new digest.now new }
        ensures room { (room_of self.old).records ≤ (room_of self.new).records + 1 }
        ensures entered { lookup (bytes_eq digest.now) (stand_entries self.old.records) ≡ None → HasEntered self.old.families.entries self.new.families.entries new.family (expiry new) }
    {
        // There are fewer than 2^32, and so there are of the family.
        let _ = self.records.len();
        let Some(shared) = self.families.get(new.family).copied() else {
            unreachable!()
        };
        let mut new = new;
        enter(&mut self.families, new.family, new.expiry());
        new.home(shared.client);
        if let Some(expired) = self.records.put(digest, new) {
            self.swept = self.swept.max(expired.expiry());
            leave(&mut self.families, &mut self.owners, expired.family, false);
        }
    }

    /// Keeps the record in its family, which waited for it and is as it is given.
    pub(crate) fn put_expected(&mut self, shared: Shared, digest: &Digest, new: Record)
        requires tied { IsTied self.old }
        requires waits { Waits self.old.families.entries new.family shared }
        requires empty { shared.count ≡ 0 }
        requires fresh { shared.until ≡ 0 }
        requires passed { new.family ≤ self.old.last }
        requires room { HasSpare (room_of self.old) 1 }
        ensures tied { IsTied self.new }
        ensures last { self.new.last ≡ self.old.last }
        ensures coming { self.new.coming ≡ self.old.coming }
        ensures peopled { 0 < (shared_at self.new.families.entries new.family).count }
        ensures room { (room_of self.old).records ≤ (room_of self.new).records + 1 }
        ensures keeps { KeepsAs self.old self.new shared digest.now new }
    {
        self.families.set(new.family, shared);
        self.put(digest, new);
    }
}

// How many there may be before so many more, if so many may be at all.
fn most_before(limit: u32, more: usize) -> Option<usize>
    ensures some { IfSome result (λ most. most + more ≡ limit) }
    ensures none { IfNone result (limit < more) }
{
    (limit as usize).checked_sub(more)
}

// The number's place in the index: each sixteen from its last to its first, which fills the nodes where
// numbers come in their order. It is the number of that place's.
#[tactic(auto, unfolding(crate::specs::Records::turned))]
pub(crate) fn turned(number: u64) -> u64
    ensures { result ≡ turned number }
{
    number - number % 16 + (15 - number % 16)
}

// The index's key of the family, if it stands there.
fn key_of(shared: &Shared, number: u64) -> Option<OwnerKey>
    ensures { result ≡ key_of shared.now number }
{
    if shared.ended || !shared.coded {
        return None;
    }
    Some(((shared.owner, shared.client.get()), turned(number)))
}

// Puts the key into the index, if there is one.
fn add_owner(owners: &mut Owners, key: Option<OwnerKey>) -> Result<(), AllocError>
    ensures indexed { OnOk result (HasIndexed owners.old.keys owners.new.keys key) }
    ensures err { OnErr result (owners.new.keys ≡ owners.old.keys) }
{
    let Some(key) = key else {
        return Ok(());
    };
    owners.insert(key)?;
    Ok(())
}

// Takes the key out of the index, if there is one.
fn strike_key(owners: &mut Owners, key: Option<OwnerKey>)
    ensures { HasStruck owners.old.keys owners.new.keys key }
{
    if let Some(key) = key {
        owners.remove(&key);
    }
}

// One record more is of the family, which expires then.
fn enter(families: &mut Families, number: u64, until: u64)
    requires few { (shared_at families.old.entries number).count + 1 < 2 ^ 32 }
    ensures entered { HasEntered families.old.entries families.new.entries number until }
{
    if let Some(mut shared) = families.get(number).copied() {
        shared.count += 1;
        shared.until = shared.until.max(until);
        families.set(number, shared);
    }
}

// Ends the family, if there is one with the number, and takes it out of the index.
pub(crate) fn end_one(families: &mut Families, owners: &mut Owners, number: u64)
    ensures owned { IsOwned families.old.entries owners.old.keys → IsOwned families.new.entries owners.new.keys }
    ensures ended { HasEnded families.old.entries families.new.entries number }
{
    let Some(mut shared) = families.get(number).copied() else {
        return;
    };
    strike_key(owners, key_of(&shared, number));
    shared.ended = true;
    families.set(number, shared);
}

// Ends each family of the two whose code's scope is not within the mask: each is looked at once.
pub(crate) fn lower_all(
    families: &mut Families,
    owners: &mut Owners,
    parties: (u32, u32),
    mask: ScopeSet,
)
    requires owned { IsOwned families.old.entries owners.old.keys }
    ensures owned { IsOwned families.new.entries owners.new.keys }
    ensures lowered { HasLowered families.old.entries families.new.entries parties.0 parties.1 mask }
{
    let mut after = None;
    while let Some(place) = next_owned(owners, parties, after) {
        after = Some(place);
        let number = turned(place);
        if goes_beyond(families, number, mask) {
            end_one(families, owners, number);
        }
    }
}

// Whether a code opened the family, whose scope is not within the mask.
fn goes_beyond(families: &Families, number: u64, mask: ScopeSet) -> bool
    ensures { result ≡ goes_beyond mask (family_numbered families.now.entries number) }
{
    let family = families.get(number);
    family.is_some_and(|shared| shared.coded && !shared.scope.is_within(mask))
}

// The place of the first of the two's families that comes after the one given.
fn next_owned(owners: &Owners, parties: (u32, u32), after: Option<u64>) -> Option<u64>
    ensures { IsNextOwned owners.now.keys parties after result }
{
    let start = start_of(parties, after);
    let key = owners.range((start, Bound::Unbounded)).next()?;
    if key.0 != parties {
        return None;
    }
    Some(key.1)
}

fn start_of(parties: (u32, u32), after: Option<u64>) -> Bound<OwnerKey>
    ensures { result ≡ start_of parties after }
{
    match after {
        Some(place) => Bound::Excluded((parties, place)),
        None => Bound::Included((parties, 0)),
    }
}

// Whether an unexpired record of the family is in the slot.
fn is_member_in(slot: Option<&Slot<Digest, Record>>, number: u64, moment: Moment) -> bool
    ensures { result ≡ in_slot (is_member_at number moment) (option_copied slot.entry) }
{
    slot.is_some_and(|found| found.kept.family == number && found.kept.is_unexpired(moment))
}

fn is_among(digest: &Digest, digests: &[Digest]) -> bool
    ensures { result ≡ list_any (bytes_eq digest.now) digests.now }
{
    digests.iter().any(|other| *digest == *other)
}

// One record of the family is gone, and so is the family with the last, unless it is kept.
pub(crate) fn leave(families: &mut Families, owners: &mut Owners, number: u64, keeps: bool)
    ensures owned { IsOwned families.old.entries owners.old.keys → IsOwned families.new.entries owners.new.keys }
    ensures left { HasLeft families.old.entries families.new.entries number keeps }
{
    let Some(mut shared) = families.get(number).copied() else {
        return;
    };
    if keeps || shared.count > 1 {
        shared.count = shared.count.saturating_sub(1);
        families.set(number, shared);
        return;
    }
    close(families, owners, number);
}

// Lets go of the family, in the index too.
pub(crate) fn close(families: &mut Families, owners: &mut Owners, number: u64)
    ensures owned { IsOwned families.old.entries owners.old.keys → IsOwned families.new.entries owners.new.keys }
    ensures closed { HasClosed families.old.entries families.new.entries number }
{
    let Some(shared) = families.take(number) else {
        return;
    };
    strike_key(owners, key_of(&shared, number));
}
