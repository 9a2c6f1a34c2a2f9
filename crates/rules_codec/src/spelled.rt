//! Rules as they are spelled.

ghost use Rattle.std.specs.Prelude.{◌≡◌, IfOk, map};
ghost use Rattle.change_codec.specs.Rules.{ClientFact, OwnerFact, RulesFact};
ghost use Rattle.rules_codec.specs.Facts.{client_fact, owner_fact, rules_fact};
ghost use Rattle.rules_codec.specs.FactsParts.{spelled_client, spelled_owner, spelled_rules};
ghost use Rattle.rules_codec.specs.Formats.{client_format, owner_format, rules_format};

use clients::{Bounds, ClientBounds, OwnerBounds};
use consent::{Digest, OwnerNo, ScopeSet};
use std::alloc::{AllocError, Global};
use wire::{DecodeFault, EncodeFault, FromWire, Reader, Wire};

/// An owner, as it is spelled.
#[derive(Clone, Copy)]
pub(crate) struct SpelledOwner {
    number: OwnerNo,
    key: Digest,
    sub: Option<Digest>,
}

/// A client's bounds, as they are spelled.
#[derive(Clone, Copy)]
pub(crate) struct SpelledClient<'a> {
    name: &'a str,
    allowed: ScopeSet,
}

/// A registry's bounds, as they are spelled.
#[derive(Drop)]
pub(crate) struct SpelledRules<'a> {
    scopes: Vec<&'a str>,
    owners: Vec<SpelledOwner>,
    numbered: bool,
    gateway: bool,
    clients: Vec<SpelledClient<'a>>,
    access_life: u32,
    refresh_life: u32,
}

#[tactic(auto, unfolding(crate::specs::Formats::owner_format))]
impl Wire for SpelledOwner {
    ghost Value = { OwnerFact };

    ghost value = { spelled_owner };

    ghost format = { owner_format };

    fn put(&self, out: &mut Vec<u8>) -> Result<(), EncodeFault> {
        self.number.put(out)?;
        self.key.put(out)?;
        self.sub.put(out)
    }
}

#[tactic(auto, unfolding(crate::specs::Formats::owner_format))]
impl<'a> FromWire<'a> for SpelledOwner {
    fn from_wire(from: &mut Reader<'a>) -> Result<SpelledOwner, DecodeFault> {
        Ok(SpelledOwner {
            number: OwnerNo::from_wire(from)?,
            key: Digest::from_wire(from)?,
            sub: Option::from_wire(from)?,
        })
    }
}

#[tactic(auto, unfolding(crate::specs::Formats::client_format))]
impl Wire for SpelledClient<'_> {
    ghost Value = { ClientFact };

    ghost value = { spelled_client };

    ghost format = { client_format };

    fn put(&self, out: &mut Vec<u8>) -> Result<(), EncodeFault> {
        self.name.put(out)?;
        self.allowed.put(out)
    }
}

#[tactic(auto, unfolding(crate::specs::Formats::client_format))]
impl<'a> FromWire<'a> for SpelledClient<'a> {
    fn from_wire(from: &mut Reader<'a>) -> Result<SpelledClient<'a>, DecodeFault> {
        Ok(SpelledClient {
            name: <&str>::from_wire(from)?,
            allowed: ScopeSet::from_wire(from)?,
        })
    }
}

#[tactic(auto, unfolding(crate::specs::Formats::rules_format))]
impl Wire for SpelledRules<'_> {
    ghost Value = { RulesFact };

    ghost value = { spelled_rules };

    ghost format = { rules_format };

    fn put(&self, out: &mut Vec<u8>) -> Result<(), EncodeFault> {
        self.scopes.put(out)?;
        self.owners.put(out)?;
        self.numbered.put(out)?;
        self.gateway.put(out)?;
        self.clients.put(out)?;
        self.access_life.put(out)?;
        self.refresh_life.put(out)
    }
}

#[tactic(auto, unfolding(crate::specs::Formats::rules_format))]
impl<'a> FromWire<'a> for SpelledRules<'a> {
    fn from_wire(from: &mut Reader<'a>) -> Result<SpelledRules<'a>, DecodeFault> {
        Ok(SpelledRules {
            scopes: Vec::from_wire(from)?,
            owners: Vec::from_wire(from)?,
            numbered: bool::from_wire(from)?,
            gateway: bool::from_wire(from)?,
            clients: Vec::from_wire(from)?,
            access_life: u32::from_wire(from)?,
            refresh_life: u32::from_wire(from)?,
        })
    }
}

/// The owners as they are spelled.
fn spelled_owners(alloc: Global, owners: &[OwnerBounds]) -> Result<Vec<SpelledOwner>, AllocError>
    ensures { IfOk result (λ spelled. map spelled_owner spelled.items ≡ map owner_fact owners.now) }
{
    let mut spelled = Vec::new(alloc);
    for owner in owners {
        spelled.extend_from_slice(&[SpelledOwner {
            number: owner.number,
            key: owner.key,
            sub: owner.sub,
        }])?;
    }
    Ok(spelled)
}

/// The owners that are spelled.
fn told_owners(alloc: Global, spelled: &[SpelledOwner]) -> Result<Vec<OwnerBounds>, AllocError>
    ensures { IfOk result (λ owners. map owner_fact owners.items ≡ map spelled_owner spelled.now) }
{
    let mut owners = Vec::new(alloc);
    for owner in spelled {
        owners.extend_from_slice(&[OwnerBounds {
            number: owner.number,
            key: owner.key,
            sub: owner.sub,
        }])?;
    }
    Ok(owners)
}

/// The clients as they are spelled.
fn spelled_clients<'a>(
    alloc: Global,
    clients: &[ClientBounds<'a>],
) -> Result<Vec<SpelledClient<'a>>, AllocError>
    ensures { IfOk result (λ spelled. map spelled_client spelled.items ≡ map client_fact clients.now) }
{
    let mut spelled = Vec::new(alloc);
    for client in clients {
        spelled.extend_from_slice(&[SpelledClient {
            name: client.name,
            allowed: client.allowed,
        }])?;
    }
    Ok(spelled)
}

/// The clients that are spelled.
fn told_clients<'a>(
    alloc: Global,
    spelled: &[SpelledClient<'a>],
) -> Result<Vec<ClientBounds<'a>>, AllocError>
    ensures { IfOk result (λ clients. map client_fact clients.items ≡ map spelled_client spelled.now) }
{
    let mut clients = Vec::new(alloc);
    for client in spelled {
        clients.extend_from_slice(&[ClientBounds {
            name: client.name,
            allowed: client.allowed,
        }])?;
    }
    Ok(clients)
}

impl<'a> SpelledRules<'a> {
    /// The bounds as they are spelled.
    pub(crate) fn new(alloc: Global, bounds: &Bounds<'a>) -> Result<SpelledRules<'a>, AllocError>
        ensures { IfOk result (λ spelled. spelled_rules spelled ≡ rules_fact bounds.now) }
    {
        let mut scopes = Vec::new(alloc);
        scopes.extend_from_slice(&bounds.scopes)?;
        let owners = spelled_owners(alloc, &bounds.owners)?;
        let clients = spelled_clients(alloc, &bounds.clients)?;
        Ok(SpelledRules {
            scopes,
            owners,
            numbered: bounds.numbered,
            gateway: bounds.gateway,
            clients,
            access_life: bounds.access_life,
            refresh_life: bounds.refresh_life,
        })
    }

    /// The bounds that are spelled.
    pub(crate) fn told(&self, alloc: Global) -> Result<Bounds<'a>, AllocError>
        ensures { IfOk result (λ bounds. rules_fact bounds ≡ spelled_rules self.now) }
    {
        let mut scopes = Vec::new(alloc);
        scopes.extend_from_slice(&self.scopes)?;
        let owners = told_owners(alloc, &self.owners)?;
        let clients = told_clients(alloc, &self.clients)?;
        Ok(Bounds {
            scopes,
            owners,
            numbered: self.numbered,
            gateway: self.gateway,
            clients,
            access_life: self.access_life,
            refresh_life: self.refresh_life,
        })
    }
}
