//! Owners that rules list, where they are looked up.

ghost use Rattle.std.specs.Prelude.{◌≡◌, List, IfOk, OnOk, find, option_map, map};
ghost use Rattle.change_codec.specs.Rules.{OwnerFact};
ghost use Rattle.rules_codec.specs.Facts.{owner_fact};
ghost use Rattle.rules_beside.specs.Owners.{has_key, has_moved, is_called, is_same_owner, is_told, owner_told};
ghost use Rattle.rules_beside.specs.OwnersParts.{AddsKey, AreKeys, AreNumbers, NotesOwner, are_told};

use clients::OwnerBounds;
use consent::Digest;
use std::alloc::{AllocError, Global};
use std::collections::{HashMap, HashSet};
use std::marker::Model;

/// Owners by their numbers.
type Numbers = HashMap<u32, OwnerBounds>;

/// Notes an owner, if it is the first of its number.
fn note(numbers: &mut Numbers, owner: &OwnerBounds) -> Result<(), AllocError>
    ensures { OnOk result (NotesOwner owner.now numbers.old.entries numbers.new.entries) }
{
    let number = owner.number.get();
    if numbers.contains_key(&number) {
        return Ok(());
    }
    let bounds = OwnerBounds {
        number: owner.number,
        key: owner.key,
        sub: owner.sub,
    };
    let Ok(_) = numbers.insert(number, bounds) else {
        return Err(AllocError);
    };
    Ok(())
}

/// Owners by their numbers: of two the first.
fn numbers_of(alloc: Global, owners: &[OwnerBounds]) -> Result<Numbers, AllocError>
    ensures { IfOk result (λ numbers. AreNumbers numbers.entries (map owner_fact owners.now)) }
{
    let mut numbers = HashMap::new(alloc);
    for owner in owners {
        note(&mut numbers, owner)?;
    }
    Ok(numbers)
}

/// Adds a key.
fn add(keys: &mut HashSet<Digest>, key: Digest) -> Result<(), AllocError>
    ensures { OnOk result (AddsKey key keys.old.keys keys.new.keys) }
{
    let Ok(_) = keys.insert(key) else {
        return Err(AllocError);
    };
    Ok(())
}

/// The keys of owners.
fn keys_of(alloc: Global, owners: &[OwnerBounds]) -> Result<HashSet<Digest>, AllocError>
    ensures { IfOk result (λ keys. AreKeys keys.keys (map owner_fact owners.now)) }
{
    let mut keys = HashSet::new(alloc);
    for owner in owners {
        add(&mut keys, owner.key)?;
    }
    Ok(keys)
}

/// Whether the owner is called so.
fn is_called(sub: &Digest, owner: &OwnerBounds) -> bool
    ensures { result ≡ is_called sub.now (owner_fact owner.now) }
{
    match &owner.sub {
        Some(other) => sub == other,
        None => false,
    }
}

/// Owners that are listed.
#[derive(Drop)]
pub(crate) struct Listed<'a> {
    list: &'a [OwnerBounds],
    numbers: Numbers,
    keys: HashSet<Digest>,
}

impl<'a> Model for Listed<'a> {
    ghost Value = { List OwnerFact };

    ghost view = { λ listed. map owner_fact listed.list.now };

    ghost invariant = { λ listed. AreNumbers listed.numbers.entries (map owner_fact listed.list.now)
        × AreKeys listed.keys.keys (map owner_fact listed.list.now) };
}

impl<'a> Listed<'a> {
    pub(crate) fn new(alloc: Global, list: &'a [OwnerBounds]) -> Result<Listed<'a>, AllocError>
        ensures { IfOk result (λ listed. listed ≡ map owner_fact list.now) }
    {
        Ok(Listed {
            list,
            numbers: numbers_of(alloc, list)?,
            keys: keys_of(alloc, list)?,
        })
    }

    /// These.
    pub(crate) fn owners(&self) -> &'a [OwnerBounds]
        ensures { map owner_fact result.now ≡ self.now }
    {
        self.list
    }

    /// The owner of a number.
    fn numbered(&self, number: u32) -> Option<&OwnerBounds>
        ensures { option_map (λ owner. owner_fact owner.now) result ≡ owner_told number self.now }
    {
        self.numbers.get(&number)
    }

    /// Whether there is one.
    pub(crate) fn has(&self, number: u32) -> bool
        ensures { result ≡ is_told number self.now }
    {
        self.numbered(number).is_some()
    }

    /// Whether somebody has the key.
    fn has_key(&self, key: &Digest) -> bool
        ensures { result ≡ has_key key.now self.now }
    {
        self.keys.contains(key)
    }

    /// Whether one of them is who was told.
    fn is_same(&self, was: &OwnerBounds, owner: &OwnerBounds) -> bool
        ensures { result ≡ is_same_owner self.now (owner_fact was.now) (owner_fact owner.now) }
    {
        match &was.sub {
            Some(sub) => is_called(sub, owner),
            None => was.key == owner.key || !self.has_key(&was.key),
        }
    }

    /// Whether who was told does not have his number among them.
    fn has_moved(&self, was: &OwnerBounds) -> bool
        ensures { result ≡ has_moved self.now (owner_fact was.now) }
    {
        match self.numbered(was.number.get()) {
            Some(owner) => !self.is_same(was, owner),
            None => true,
        }
    }

    /// The number of the first of these who has moved.
    pub(crate) fn first_moved(&self, told: &[OwnerBounds]) -> Option<u32>
        ensures { result ≡ option_map (λ o. o.number) (find (has_moved self.now) (map owner_fact told.now)) }
    {
        let mut rest = told;
        while let [was, others @ ..] = rest {
            if self.has_moved(was) {
                return Some(was.number.get());
            }
            rest = others;
        }
        None
    }

    /// Whether each of these is listed.
    pub(crate) fn has_all(&self, owners: &[OwnerBounds]) -> bool
        ensures { result ≡ are_told (map owner_fact owners.now) self.now }
    {
        let mut rest = owners;
        while let [owner, others @ ..] = rest {
            if !self.has(owner.number.get()) {
                return false;
            }
            rest = others;
        }
        true
    }
}
