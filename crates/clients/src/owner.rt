//! The owners of a registry.

ghost use Rattle.std.specs.Prelude.{◌≡◌, ◌<◌, ◌≤◌, [], ◌∷◌, ◌++◌, length, map, string_bytes, option_map, option_copied, is_some, None, IfSome, IfOk, IfErr, OnOk, OnErr};
ghost use Rattle.std.specs.Fmt.{decimal};
ghost use Rattle.serde_json.specs.View.{view, items_view};
ghost use Rattle.clients.specs.Bounds.{owner_had, owner_said};
ghost use Rattle.clients.specs.Limits.{owner_limit, key_limit};
ghost use Rattle.registry_json.specs.Faults.{GivesUnless};
ghost use Rattle.registry_json.specs.FaultsParts.{seen_by};
ghost use Rattle.clients.specs.Owners.{owner_keyed, owner_listed, own_owner, key_in, new_key, sub_member, sub_text, stated_number, number_after, owner_of, are_numbered, owners_of};
ghost use Rattle.clients.specs.OwnersParts.{ArePlacesByKey, ArePlacesByNumber, with_owner};
ghost use Rattle.registry_json.specs.declared.fault.Refusal.TheVariants as refusal;
ghost use Rattle.clients.specs.OwnerRecord.{OwnerRecord, Listed};
ghost use Rattle.clients.specs.RegistryRules.{IsOwner, AreOwners};

use crate::bounds::OwnerBounds;
use crate::digest::{key_digest, sent_digest, text_digest};
use consent::{Digest, OwnerNo};
use registry_json::fault::{ConfigFault, Refusal, located};
use registry_json::json::number_to;
use registry_json::spot::Spot;
use registry_json::text::key;
use serde_json::Value;
use std::alloc::{AllocError, Global};
use std::collections::HashMap;
use std::marker::Model;

const MOST_OWNERS: usize = 65_536;

const GREATEST_NUMBER: u32 = u32::MAX;

/// What an owner is called where tokens are introspected (RFC 7662, section 2.2, `sub`).
#[derive(Clone, Copy, Debug, PartialEq, Eq)]
pub enum OwnerSub<'r> {
    /// As the registry says.
    Called(&'r str),
    /// By its number in decimal: a gateway named it, and it is not listed.
    Numbered(OwnerNo),
}

impl OwnerSub<'_> {
    // By the number.
    #[tactic(auto, using(crate::proofs::Digits::decimal_short))]
    pub(crate) fn numbered(number: OwnerNo) -> OwnerSub<'static>
        ensures value { sub_text result ≡ decimal number }
        ensures short { length (sub_text result) ≤ key_limit }
    {
        // It has 32 bits.
        let _ = number.get();
        OwnerSub::Numbered(number)
    }
}

// An owner of what is protected (RFC 6749, section 1.1).
#[derive(Drop)]
pub(crate) struct Owner {
    number: OwnerNo,
    key: Digest,
    sub: Option<String>,
    sub_digest: Option<Digest>,
}

impl Model for Owner {
    ghost Value = { OwnerRecord };

    ghost view = { λ o. record { number = o.number; key = o.key; sub = option_map string_bytes o.sub; sub_digest = o.sub_digest } };

    ghost invariant = { λ o. IsOwner (record { number = o.number; key = o.key; sub = option_map string_bytes o.sub; sub_digest = o.sub_digest }) };
}

impl Owner {
    // The owner's number.
    pub(crate) fn number(&self) -> OwnerNo
        ensures { result ≡ self.now.number }
    {
        self.number
    }

    // What the owner is called.
    pub(crate) fn sub(&self) -> Option<&str>
        ensures value { option_copied result ≡ self.now.sub }
        ensures short { IfSome result (λ text. length text.now ≤ key_limit) }
    {
        Some(self.sub.as_ref()?.as_str())
    }

    // What bounds the owner's grants.
    fn bounds(&self) -> OwnerBounds
        ensures { owner_said result ≡ owner_had self.now }
    {
        OwnerBounds {
            number: self.number,
            key: self.key,
            sub: self.sub_digest,
        }
    }
}

// Owners, no two of one key or one number, and whether they state their numbers.
#[derive(Drop)]
pub(crate) struct Owners {
    list: Vec<Owner>,
    // The place of each, by the digest of its key and by its number: one is found without looking at every one. What is
    // looked up under is a SHA-256, so how long it takes tells nothing of a key.
    by_key: HashMap<Digest, u32>,
    by_number: HashMap<u32, u32>,
    numbered: bool,
}

impl Model for Owners {
    ghost Value = { Listed };

    ghost view = { λ owners. record { owners = owners.list.items; numbered = owners.numbered } };

    ghost invariant = { λ owners. (length owners.list.items ≤ owner_limit)
        × ArePlacesByKey owners.by_key.entries owners.list.items
        × ArePlacesByNumber owners.by_number.entries owners.list.items };
}

impl Owners {
    fn new(alloc: Global, numbered: bool) -> Owners
        ensures { result ≡ record { owners = []; numbered = numbered } }
    {
        Owners {
            list: Vec::new(alloc),
            by_key: HashMap::new(alloc),
            by_number: HashMap::new(alloc),
            numbered,
        }
    }

    // The owner with this digest of a key.
    #[tactic(auto, using(crate::proofs::Placed::keyed_at))]
    fn keyed(&self, digest: &Digest) -> Option<&Owner>
        ensures { option_copied result ≡ owner_keyed digest.now self.now.owners }
    {
        let place = *self.by_key.get(digest)?;
        self.list.get(place as usize)
    }

    // The owner of this number.
    #[tactic(auto, using(crate::proofs::Placed::numbered_at))]
    pub(crate) fn at(&self, number: u32) -> Option<&Owner>
        ensures { option_copied result ≡ owner_listed number self.now.owners }
    {
        let place = *self.by_number.get(&number)?;
        self.list.get(place as usize)
    }

    // The number of the owner whose own key this is, if it has the form of one.
    pub(crate) fn with_key(&self, key: &[u8]) -> Option<OwnerNo>
        ensures { result ≡ own_owner key.now self.now.owners }
    {
        Some(self.keyed(&sent_digest(key)?)?.number())
    }

    // Whether this is the digest of an owner's key.
    pub(crate) fn have_key(&self, digest: &Digest) -> bool
        ensures { result ≡ is_some (owner_keyed digest.now self.now.owners) }
    {
        self.keyed(digest).is_some()
    }

    // Whether an owner has this number.
    fn have_number(&self, number: u32) -> bool
        ensures { result ≡ is_some (owner_listed number self.now.owners) }
    {
        self.at(number).is_some()
    }

    // How many owners there are.
    pub(crate) fn count(&self) -> usize
        ensures value { result ≡ length self.now.owners }
        ensures few { result ≤ owner_limit }
    {
        self.list.len()
    }

    // Whether they state their numbers.
    pub(crate) fn are_numbered(&self) -> bool
        ensures { result ≡ self.now.numbered }
    {
        self.numbered
    }

    // What bounds the grants of each.
    pub(crate) fn bounds(&self, alloc: Global) -> Result<Vec<OwnerBounds>, AllocError>
        ensures { IfOk result (λ bounds. map owner_said bounds.items ≡ map owner_had self.now.owners) }
    {
        let mut bounds = Vec::new(alloc);
        for owner in &self.list {
            bounds.extend_from_slice(&[owner.bounds()])?;
        }
        Ok(bounds)
    }

    // Takes a further owner.
    fn push(&mut self, owner: Owner) -> Result<(), AllocError>
        requires key { owner_keyed owner.key self.old.owners ≡ None }
        requires number { owner_listed owner.number self.old.owners ≡ None }
        requires room { length self.old.owners < owner_limit }
        ensures ok { OnOk result (self.new ≡ with_owner owner self.old) }
        ensures err { OnErr result (self.new ≡ self.old) }
    {
        self.list.reserve(1)?;
        self.by_key.reserve(1)?;
        self.by_number.reserve(1)?;
        let place = self.list.len() as u32;
        let keyed: Result<_, _> = self.by_key.insert(owner.key, place);
        let _ = keyed.unwrap();
        let numbered: Result<_, _> = self.by_number.insert(owner.number.get(), place);
        let _ = numbered.unwrap();
        let Ok(()) = self.list.push(owner) else {
            unreachable!();
        };
        Ok(())
    }
}

// An owner of these bounds after the others. What it is called is known by its digest alone.
fn owner_within(owners: &Owners, bounds: &OwnerBounds) -> Result<Owner, ConfigFault>
    ensures bounds { IfOk result (λ owner. owner_had owner ≡ owner_said bounds.now) }
    ensures right { IfOk result IsOwner }
    ensures key { IfOk result (λ owner. owner_keyed owner.key owners.now.owners ≡ None) }
    ensures number { IfOk result (λ owner. owner_listed owner.number owners.now.owners ≡ None) }
{
    if owners.have_key(&bounds.key) || owners.have_number(bounds.number.get()) {
        return Err(ConfigFault::Twice);
    }
    Ok(Owner {
        number: bounds.number,
        key: bounds.key,
        sub: None,
        sub_digest: bounds.sub,
    })
}

// Owners of these bounds.
pub(crate) fn owners_within(
    alloc: Global,
    numbered: bool,
    bounds: &[OwnerBounds],
) -> Result<Owners, ConfigFault>
    ensures bounds { IfOk result (λ owners. map owner_had owners.owners ≡ map owner_said bounds.now) }
    ensures numbered { IfOk result (λ owners. owners.numbered ≡ numbered) }
    ensures right { IfOk result (λ owners. AreOwners owners.owners) }
{
    if bounds.len() > MOST_OWNERS {
        return Err(ConfigFault::OutOfRange);
    }
    let mut owners = Owners::new(alloc, numbered);
    for bound in bounds {
        owners.push(owner_within(&owners, bound)?)?;
    }
    Ok(owners)
}

// The key of an owner: its member `key`, or the value itself.
fn key_in(value: &Value) -> &Value
    ensures { view result.now ≡ key_in (view value.now) }
{
    value.get("key").unwrap_or(value)
}

// The digest of an owner's key, which none of the owners has.
fn new_key(owners: &Owners, value: &Value) -> Result<Digest, ConfigFault>
    ensures { result ≡ new_key owners.now.owners (view value.now) }
{
    let digest = key_digest(key_in(value))?;
    if owners.have_key(&digest) {
        Err(ConfigFault::Twice)
    } else {
        Ok(digest)
    }
}

// The member `sub`, if there is one.
fn sub_member(value: &Value) -> Result<Option<&str>, ConfigFault>
    ensures { seen_by option_copied result ≡ sub_member (view value.now) }
{
    match value.get("sub") {
        Some(sub) => Ok(Some(key(sub)?)),
        None => Ok(None),
    }
}

// A number that none of the owners has.
fn stated_number(owners: &Owners, value: &Value) -> Result<OwnerNo, ConfigFault>
    ensures { result ≡ stated_number owners.now.owners (view value.now) }
{
    let number = number_to(GREATEST_NUMBER, value)?;
    if owners.have_number(number) {
        Err(ConfigFault::Twice)
    } else {
        Ok(OwnerNo::new(number))
    }
}

// The number of an owner after these.
fn number_after(owners: &Owners, stated: Option<&Value>) -> Result<OwnerNo, ConfigFault>
    ensures { result ≡ number_after owners.now.numbered owners.now.owners (option_map (λ v. view v.now) stated.entry) }
{
    match stated {
        Some(value) if owners.are_numbered() => stated_number(owners, value),
        None if !owners.are_numbered() => Ok(OwnerNo::new(owners.count() as u32 + 1)),
        _ => Err(ConfigFault::BadShape),
    }
}

// An owner after these.
fn read_owner(alloc: Global, owners: &Owners, value: &Value) -> Result<Owner, ConfigFault>
    ensures { GivesUnless ConfigFault.Memory Unit result (owner_of owners.now.numbered owners.now.owners (view value.now)) }
{
    let key = new_key(owners, value)?;
    let sub = sub_member(value)?;
    let number = number_after(owners, value.get("number"))?;
    let sub_digest = match sub {
        Some(sub) => Some(text_digest(sub.as_bytes())),
        None => None,
    };
    let sub = match sub {
        Some(sub) => Some(String::from_str(alloc, sub)?),
        None => None,
    };
    Ok(Owner {
        number,
        key,
        sub,
        sub_digest,
    })
}

// Whether the owners of a list state their numbers.
fn are_numbered(list: &[Value]) -> bool
    ensures { result ≡ are_numbered (items_view list.now) }
{
    match list.first() {
        Some(owner) => owner.get("number").is_some(),
        None => true,
    }
}

// The owners of a list.
pub(crate) fn owner_list(alloc: Global, list: &[Value]) -> Result<Owners, Refusal>
    requires { length list.now ≤ owner_limit }
    ensures { GivesUnless refusal.Memory (0 < length list.now) result (owners_of (items_view list.now)) }
{
    let mut owners = Owners::new(alloc, are_numbered(list));
    for value in list {
        let spot = Spot::Owners(Some(owners.count()));
        owners.push(located(spot, read_owner(alloc, &owners, value))?)?;
    }
    Ok(owners)
}
