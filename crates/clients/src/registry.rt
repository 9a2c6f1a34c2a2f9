//! The registry: owners, scope names and clients, and the lives of tokens.

ghost use Rattle.std.specs.Prelude.{◌≡◌, ◌<◌, ◌≤◌, length, map, string_bytes, is_some, Some, IfOk, OnOk, OnErr, IfSome, option_copied, option_map, IsUtf8};
ghost use Rattle.std.specs.Fmt.{decimal};
ghost use Rattle.serde_json.specs.View.{view};
ghost use Rattle.registry_json.specs.Faults.{GivesUnless};
ghost use Rattle.registry_json.specs.FaultsParts.{seen_by};
ghost use Rattle.clients.specs.Numbers.{number_among};
ghost use Rattle.clients.specs.Limits.{key_limit, owner_limit, client_limit};
ghost use Rattle.clients.specs.Gateway.{gateway_owner, is_gateway_key};
ghost use Rattle.clients.specs.Owners.{owner_with, sub_of, sub_text};
ghost use Rattle.clients.specs.Clients.{ids, client_at};
ghost use Rattle.clients.specs.Registry.{IsReadable, AreLivesAndOperatorRight, life_member, operator_member, owners_member, scopes_member, clients_member, key_digest_if_any, registry_of, has_limits, owner_count_limit, data_of, registry_data, registry_in, spot_in, is_operator_key, has_operator_among_owners, has_gateway_among_others};
ghost use Rattle.registry_json.specs.declared.fault.Refusal.TheVariants as refusal;
ghost use Rattle.clients.specs.Bounds.{HasBounds};
ghost use Rattle.clients.specs.RegistryRules.{IsLife, IsRegistry};
ghost use Rattle.clients.specs.RegistryRecord.{RegistryRecord};

use crate::bounds::Bounds;
use crate::client::{Client, Clients, client_list, clients_within};
use crate::digest::{are_same, key_digest, sent_digest, unknown_digest};
use crate::gateway::{before_space, behind_space, number_in};
use crate::limits::{Limits, limits_member};
use crate::operator::OperatorKey;
use crate::owner::{OwnerSub, Owners, owner_list, owners_within};
use crate::scope::{catalogue_of, scope_list};
use consent::{ClientNo, Digest, OwnerNo};
use params::Catalogue;
use registry_json::fault::{ConfigFault, Refusal, located};
use registry_json::json::{items, life, member};
use registry_json::spot::Spot;
use serde_json::{Category, Value};
use std::alloc::{AllocError, Global};
use std::marker::Model;
use std::str;

const FEW_BYTES: usize = 1_048_576;

const MOST_BYTES: usize = 16_777_216;

const FEW_OWNERS: usize = 4096;

const MOST_OWNERS: usize = 65_536;

const MOST_SCOPES: usize = 64;

const MOST_CLIENTS: usize = 256;

/// The registry that a server is started with.
pub struct Registry {
    access_life: u32,
    refresh_life: u32,
    operator: Digest,
    owners: Owners,
    catalogue: Catalogue,
    clients: Clients,
    gateway: Option<Digest>,
    limits: Limits,
}

// It is written out, so that whoever lets go of a registry calls this, and is not proved over all that a registry is made of.
impl Drop for Registry {
    fn drop(self) {
        let Registry {
            access_life: _,
            refresh_life: _,
            operator: _,
            owners: _owners,
            catalogue: _catalogue,
            clients: _clients,
            gateway: _,
            limits: _,
        } = self;
    }
}

impl Model for Registry {
    ghost Value = { RegistryRecord };

    ghost view = { λ r. record {
      access_life = r.access_life;
      refresh_life = r.refresh_life;
      operator = r.operator;
      owners = r.owners.owners;
      numbered = r.owners.numbered;
      scopes = r.catalogue;
      clients = r.clients;
      gateway = r.gateway;
      limits = r.limits;
    } };

    ghost invariant = { λ r. IsRegistry (record {
      access_life = r.access_life;
      refresh_life = r.refresh_life;
      operator = r.operator;
      owners = r.owners.owners;
      numbered = r.owners.numbered;
      scopes = r.catalogue;
      clients = r.clients;
      gateway = r.gateway;
      limits = r.limits;
    }) };
}

impl Registry {
    /// Reads a registry from JSON text (RFC 8259) of at most 1,048,576 bytes, or of at most 16,777,216 if it has a member
    /// `limits`. Members of other names are ignored, and of two members of one name the last counts. The first fault is
    /// answered: bytes that are too many, then text that is no JSON, then the members in the order `access_life`,
    /// `refresh_life`, `operator`, `owners`, `scopes`, `clients`, `gateway`, `limits`. In a list the count comes first,
    /// then each element whole. Of keys and secrets only the SHA-256 is kept.
    pub fn read(alloc: Global, bytes: &[u8]) -> Result<Registry, ConfigFault>
        ensures value { GivesUnless ConfigFault.Memory (IsReadable bytes.now) result (registry_in bytes.now) }
        ensures registry { IfOk result IsRegistry }
    {
        read_registry(alloc, &registry_data(alloc, bytes)?).map_err(Refusal::fault)
    }

    /// Where in JSON text of no registry its first fault lies. None: the text as a whole is at fault, or nothing is.
    #[tactic(auto, using(crate::proofs::Data::data_takes_no_memory))]
    pub fn spot_of_fault(alloc: Global, bytes: &[u8]) -> Result<Option<Spot>, AllocError>
        ensures value { IfOk result (λ spot. spot ≡ spot_in bytes.now) }
        ensures memory { OnErr result (IsReadable bytes.now) }
    {
        match registry_data(alloc, bytes) {
            Ok(value) => match read_registry(alloc, &value) {
                Err(Refusal::At(_, spot)) => Ok(Some(spot)),
                Err(Refusal::Memory) => Err(AllocError),
                Ok(_) => Ok(None),
            },
            Err(ConfigFault::Memory) => Err(AllocError),
            Err(_) => Ok(None),
        }
    }

    /// A registry of these bounds, if there is one. Nobody knows a secret of a client, the operator's key or the gateway's, and
    /// clients may do nothing. What owners are called is known by its digest alone.
    pub fn within(alloc: Global, bounds: &Bounds<'_>) -> Result<Registry, ConfigFault>
        ensures bounds { IfOk result (λ registry. HasBounds registry bounds.now) }
        ensures registry { IfOk result IsRegistry }
    {
        let access_life = life_within(bounds.access_life)?;
        let refresh_life = life_within(bounds.refresh_life)?;
        let owners = owners_within(alloc, bounds.numbered, bounds.owners.as_slice())?;
        let catalogue = catalogue_of(alloc, bounds.scopes.as_slice())?;
        let clients = clients_within(alloc, &catalogue, bounds.clients.as_slice())?;
        Ok(Registry {
            access_life,
            refresh_life,
            operator: unknown_digest(),
            owners,
            catalogue,
            clients,
            gateway: unknown_gateway(bounds.gateway),
            limits: Limits::greatest(),
        })
    }

    /// The part that bounds grants. Its texts lie in the registry.
    pub fn bounds(&self, alloc: Global) -> Result<Bounds<'_>, AllocError>
        ensures { IfOk result (HasBounds self.now) }
    {
        let scopes = names_of(alloc, self.catalogue.names())?;
        let owners = self.owners.bounds(alloc)?;
        let clients = self.clients.bounds(alloc)?;
        Ok(Bounds {
            scopes,
            owners,
            numbered: self.owners.are_numbered(),
            gateway: self.gateway.is_some(),
            clients,
            access_life: self.access_life,
            refresh_life: self.refresh_life,
        })
    }

    /// How many owners there are.
    pub fn owner_count(&self) -> usize
        ensures value { result ≡ length self.now.owners }
        ensures few { result ≤ owner_limit }
    {
        self.owners.count()
    }

    /// How many clients there are.
    pub fn client_count(&self) -> usize
        ensures value { result ≡ length self.now.clients }
        ensures few { result ≤ client_limit }
    {
        self.clients.count()
    }

    /// Whether an owner has the operator's key.
    pub fn has_operator_among_owners(&self) -> bool
        ensures { result ≡ has_operator_among_owners self.now }
    {
        self.owners.have_key(&self.operator)
    }

    /// The number of the client with this identifier.
    pub fn client_no(&self, id: &str) -> Option<ClientNo>
        ensures value { result ≡ number_among id.now (ids self.now.clients) }
        ensures listed { IfSome result (λ number. number ≤ length self.now.clients) }
    {
        self.clients.number(id)
    }

    /// The client of this number.
    pub fn client(&self, number: ClientNo) -> &Client
        requires { number ≤ length self.now.clients }
        ensures value { client_at number self.now.clients ≡ Some result.now }
        ensures registry { IsRegistry self.now }
    {
        self.clients.at(number)
    }

    /// The client of this number, if there is one.
    pub fn client_numbered(&self, number: ClientNo) -> Option<&Client>
        ensures { option_copied result ≡ client_at number self.now.clients }
    {
        self.clients.get(number)
    }

    /// The number of the owner for whom speaks who sends this. It is the owner's own key, 1 to 128 visible characters of the
    /// owner's SHA-256; or the gateway's key, one space, and the number in decimal, from 1 on without a leading zero, of an
    /// owner who may be listed or not.
    pub fn owner_no(&self, key: &[u8]) -> Option<OwnerNo>
        ensures { result ≡ owner_with key.now self.now }
    {
        match self.owners.with_key(key) {
            Some(number) => Some(number),
            None => self.gateway_owner(key),
        }
    }

    // The owner whom the gateway names.
    fn gateway_owner(&self, sent: &[u8]) -> Option<OwnerNo>
        ensures { result ≡ gateway_owner sent.now self.now }
    {
        if self.is_gateway(before_space(sent)) {
            number_in(behind_space(sent))
        } else {
            None
        }
    }

    // Whether this is the gateway's key.
    fn is_gateway(&self, key: &[u8]) -> bool
        ensures { result ≡ is_gateway_key key.now self.now }
    {
        match (sent_digest(key), &self.gateway) {
            (Some(digest), Some(gateway)) => are_same(&digest, gateway),
            _ => false,
        }
    }

    /// What the owner of this number is called where tokens are introspected, if anything.
    pub fn owner_sub(&self, number: OwnerNo) -> Option<OwnerSub<'_>>
        ensures value { option_map sub_text result ≡ sub_of number self.now }
        ensures short { IfSome result (λ sub. length (sub_text sub) ≤ key_limit) }
    {
        let Some(owner) = self.owners.at(number.get()) else {
            return self.sub_by_number(number);
        };
        Some(OwnerSub::Called(owner.sub()?))
    }

    // What an owner is called who is not listed: its number, where a gateway may name it.
    fn sub_by_number(&self, number: OwnerNo) -> Option<OwnerSub<'static>>
        ensures value { option_map sub_text result ≡ option_map (λ _. decimal number) self.now.gateway }
        ensures short { IfSome result (λ sub. length (sub_text sub) ≤ key_limit) }
    {
        if self.gateway.is_some() {
            Some(OwnerSub::numbered(number))
        } else {
            None
        }
    }

    /// Whether there is a gateway, which may name owners who are not listed.
    pub fn has_gateway(&self) -> bool
        ensures { result ≡ is_some self.now.gateway }
    {
        self.gateway.is_some()
    }

    /// Whether an owner has the gateway's key, or the operator has it.
    pub fn has_gateway_among_others(&self) -> bool
        ensures { result ≡ has_gateway_among_others self.now }
    {
        match &self.gateway {
            Some(key) => self.owners.have_key(key) || are_same(key, &self.operator),
            None => false,
        }
    }

    /// What is kept at most.
    pub fn limits(&self) -> Limits
        ensures value { result ≡ self.now.limits }
        ensures registry { IsRegistry self.now }
    {
        self.limits
    }

    /// Whether this is the operator's key: 1 to 128 visible characters of the operator's SHA-256.
    pub fn is_operator(&self, key: &[u8]) -> bool
        ensures { result ≡ is_operator_key key.now self.now }
    {
        self.operator_key().is(key)
    }

    /// What the operator's key is known by.
    pub fn operator_key(&self) -> OperatorKey
        ensures { result ≡ self.now.operator }
    {
        OperatorKey(self.operator)
    }

    /// The life of an access token, in seconds.
    pub fn access_life(&self) -> u32
        ensures value { result ≡ self.now.access_life }
        ensures registry { IsRegistry self.now }
    {
        self.access_life
    }

    /// The life of a refresh token, in seconds.
    pub fn refresh_life(&self) -> u32
        ensures value { result ≡ self.now.refresh_life }
        ensures registry { IsRegistry self.now }
    {
        self.refresh_life
    }

    /// The scope names.
    pub fn catalogue(&self) -> &Catalogue
        ensures value { result.now ≡ self.now.scopes }
        ensures registry { IsRegistry self.now }
    {
        &self.catalogue
    }
}

// The life, where a registry may have it.
fn life_within(life: u32) -> Result<u32, ConfigFault>
    ensures { IfOk result (λ same. (same ≡ life) × IsLife life) }
{
    match life {
        1..=31_536_000 => Ok(life),
        _ => Err(ConfigFault::OutOfRange),
    }
}

// The digest of a gateway's key that nobody knows, if there is to be one.
fn unknown_gateway(is: bool) -> Option<Digest>
    ensures { is_some result ≡ is }
{
    if is { Some(unknown_digest()) } else { None }
}

// The texts of these names.
fn names_of(alloc: Global, names: &[String]) -> Result<Vec<&str>, AllocError>
    ensures { IfOk result (λ texts. map (λ s. s.now) texts.items ≡ map string_bytes names.now) }
{
    let mut texts = Vec::new(alloc);
    for name in names {
        texts.extend_from_slice(&[name.as_str()])?;
    }
    Ok(texts)
}

// The JSON data of the text.
#[tactic(auto, using(crate::proofs::Data::data_where, crate::proofs::Data::no_data_where))]
fn read_data(alloc: Global, bytes: &[u8]) -> Result<Value, ConfigFault>
    ensures value { GivesUnless ConfigFault.Memory (IsUtf8 bytes.now) (seen_by view result) (data_of bytes.now) }
    ensures utf8 { OnOk result (IsUtf8 bytes.now) }
{
    let Ok(text) = str::from_utf8(bytes) else {
        return Err(ConfigFault::NotJson);
    };
    match Value::from_str(alloc, text) {
        Ok(value) => Ok(value),
        Err(error) => match error.classify() {
            Category::Memory => Err(ConfigFault::Memory),
            _ => Err(ConfigFault::NotJson),
        },
    }
}

// Whether there is a member `limits`.
fn has_limits(value: &Value) -> bool
    ensures { result ≡ has_limits (view value.now) }
{
    value.get("limits").is_some()
}

// The JSON data of a registry's text.
fn registry_data(alloc: Global, bytes: &[u8]) -> Result<Value, ConfigFault>
    ensures value { GivesUnless ConfigFault.Memory (IsReadable bytes.now) (seen_by view result) (registry_data bytes.now) }
    ensures readable { OnOk result (IsReadable bytes.now) }
{
    if bytes.len() > MOST_BYTES {
        return Err(ConfigFault::OutOfRange);
    }
    if bytes.len() <= FEW_BYTES {
        return read_data(alloc, bytes);
    }
    match read_data(alloc, bytes) {
        Ok(value) => {
            if has_limits(&value) {
                Ok(value)
            } else {
                Err(ConfigFault::OutOfRange)
            }
        }
        Err(ConfigFault::Memory) => Err(ConfigFault::Memory),
        Err(_) => Err(ConfigFault::OutOfRange),
    }
}

// How many owners there may be.
fn most_owners(value: &Value) -> usize
    ensures { result ≡ owner_count_limit (view value.now) }
{
    if has_limits(value) {
        MOST_OWNERS
    } else {
        FEW_OWNERS
    }
}

// The member of this name: a life.
fn life_member(value: &Value, name: &str) -> Result<u32, ConfigFault>
    ensures { result ≡ life_member name.now (view value.now) }
{
    life(member(value, name)?)
}

// The member `operator`.
fn operator_member(value: &Value) -> Result<Digest, ConfigFault>
    ensures { result ≡ operator_member (view value.now) }
{
    key_digest(member(value, "operator")?)
}

// The member `owners`.
fn owners_member(alloc: Global, value: &Value) -> Result<Owners, Refusal>
    ensures { GivesUnless refusal.Memory Unit result (owners_member (view value.now)) }
{
    let list = items(value, "owners", 0, most_owners(value));
    owner_list(alloc, located(Spot::Owners(None), list)?)
}

// The member `scopes`.
fn scopes_member(alloc: Global, value: &Value) -> Result<Catalogue, Refusal>
    ensures { GivesUnless refusal.Memory Unit result (scopes_member (view value.now)) }
{
    let list = items(value, "scopes", 1, MOST_SCOPES);
    scope_list(alloc, located(Spot::Scopes(None), list)?)
}

// The member `clients`.
fn clients_member(alloc: Global, catalogue: &Catalogue, value: &Value) -> Result<Clients, Refusal>
    ensures { GivesUnless refusal.Memory Unit result (clients_member catalogue.now (view value.now)) }
{
    let list = items(value, "clients", 0, MOST_CLIENTS);
    client_list(alloc, catalogue, located(Spot::Clients, list)?)
}

// The digest of a key that may be absent.
fn key_digest_if_any(value: Option<&Value>) -> Result<Option<Digest>, ConfigFault>
    ensures { result ≡ key_digest_if_any (option_map (λ v. view v.now) value.entry) }
{
    match value {
        Some(value) => Ok(Some(key_digest(value)?)),
        None => Ok(None),
    }
}

// The registry of JSON data.
fn read_registry(alloc: Global, value: &Value) -> Result<Registry, Refusal>
    ensures { GivesUnless refusal.Memory (AreLivesAndOperatorRight (view value.now)) result (registry_of (view value.now)) }
{
    let access_life = located(Spot::AccessLife, life_member(value, "access_life"))?;
    let refresh_life = located(Spot::RefreshLife, life_member(value, "refresh_life"))?;
    let operator = located(Spot::Operator, operator_member(value))?;
    let owners = owners_member(alloc, value)?;
    let catalogue = scopes_member(alloc, value)?;
    let clients = clients_member(alloc, &catalogue, value)?;
    let gateway = located(Spot::Gateway, key_digest_if_any(value.get("gateway")))?;
    let limits = limits_member(value)?;
    Ok(Registry {
        access_life,
        refresh_life,
        operator,
        owners,
        catalogue,
        clients,
        gateway,
        limits,
    })
}
