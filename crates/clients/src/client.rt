//! The clients of a registry (RFC 6749, section 2).

ghost use Rattle.std.specs.Prelude.{◌≡◌, ◌<◌, ◌≤◌, ◌^◌, [], ◌∷◌, ◌++◌, length, map, string_bytes, None, Some, IfSome, IsOk, IsTrue, option_copied, IfOk, OnOk, OnErr, All, List, false};
ghost use Rattle.std.specs.List.{list_any};
ghost use Rattle.std.specs.Str.{bytes_eq};
ghost use Rattle.serde_json.specs.View.{view, items_view};
ghost use Rattle.registry_json.specs.Faults.{GivesUnless};
ghost use Rattle.registry_json.specs.FaultsParts.{seen_by};
ghost use Rattle.params.specs.Form.{any_twice};
ghost use Rattle.clients.specs.Bounds.{client_had, client_said};
ghost use Rattle.clients.specs.Limits.{client_limit, identifier_limit, redirect_limit};
ghost use Rattle.clients.specs.Grants.{has_grant};
ghost use Rattle.clients.specs.Numbers.{number_among, IsIndex};
ghost use Rattle.clients.specs.Clients.{ids, has_secret, has_redirect, id_member, secret_member, redirects_member, scope_member, grants_member, client_at, client_of, clients_after};
ghost use Rattle.registry_json.specs.declared.fault.Refusal.TheVariants as refusal;
ghost use Rattle.clients.specs.ClientRecord.{ClientRecord};
ghost use Rattle.clients.specs.RegistryRules.{IsClient, IsClientOf};

use crate::bounds::ClientBounds;
use crate::digest::sent_digest;
use crate::grant::{GrantType, Grants, grant_set};
use crate::limits::stated_limit;
use crate::redirect::redirect_list;
use crate::scope::scope;
use crate::secret::{Secrets, client_secrets};
use consent::{ClientNo, ScopeSet};
use params::Catalogue;
use registry_json::fault::{ConfigFault, Refusal, located};
use registry_json::json::{items, list, member};
use registry_json::spot::{ClientSpot, Spot};
use registry_json::text::{identifier, is_identifier};
use serde_json::Value;
use std::alloc::{AllocError, Global};
use std::collections::BTreeMap;
use std::marker::Model;

const MOST_CLIENTS: usize = 256;

const MOST_REDIRECTS: usize = 8;

const MOST_SCOPES: usize = 64;

fn stands_among(text: &str, strings: &[String]) -> bool
    ensures { result ≡ list_any (λ s. bytes_eq text.now (string_bytes s)) strings.now }
{
    strings.iter().any(|string| text == string.as_str())
}

/// A client (RFC 6749, section 2).
#[derive(Drop)]
pub struct Client {
    id: String,
    secrets: Secrets,
    redirects: Vec<String>,
    allowed: ScopeSet,
    grants: Grants,
    records: Option<u32>,
}

impl Model for Client {
    ghost Value = { ClientRecord };

    ghost view = { λ c. record { id = string_bytes c.id; secrets = c.secrets; redirects = map string_bytes c.redirects.items; allowed = c.allowed; grants = c.grants; records = c.records } };

    ghost invariant = { λ c. IsClient (record { id = string_bytes c.id; secrets = c.secrets; redirects = map string_bytes c.redirects.items; allowed = c.allowed; grants = c.grants; records = c.records }) };
}

impl Client {
    /// The client identifier (RFC 6749, section 2.2).
    pub fn id(&self) -> &str
        ensures value { result.now ≡ self.now.id }
        ensures short { length result.now ≤ identifier_limit }
    {
        &self.id
    }

    /// Whether this is a secret of the client: 1 to 128 visible characters with a SHA-256 that it has. It is compared with
    /// each.
    pub fn has_secret(&self, secret: &str) -> bool
        ensures { result ≡ has_secret secret.now self.now }
    {
        sent_digest(secret.as_bytes()).is_some_and(|digest| self.secrets.has(&digest))
    }

    /// Whether the text is one of the client's redirect URIs, character by character (RFC 6749, section 3.1.2.3).
    #[tactic(auto, using(crate::proofs::Listed::any_text))]
    pub fn has_redirect(&self, uri: &str) -> bool
        ensures value { result ≡ has_redirect uri.now self.now }
        ensures short { IsTrue result → length uri.now ≤ redirect_limit }
    {
        stands_among(uri, &self.redirects)
    }

    /// The mask of the scope names that the client may be allowed.
    pub fn allowed(&self) -> ScopeSet
        ensures { result ≡ self.now.allowed }
    {
        self.allowed
    }

    /// How many codes and tokens of its families may be unexpired, if the registry says so.
    pub fn records(&self) -> Option<u32>
        ensures { result ≡ self.now.records }
    {
        self.records
    }

    /// Whether the client may use the grant type.
    pub fn has_grant(&self, grant: GrantType) -> bool
        ensures { result ≡ has_grant grant self.now.grants }
    {
        self.grants.has(grant)
    }
}

// The clients, no two of one identifier.
#[derive(Drop)]
pub(crate) struct Clients {
    list: Vec<Client>,
    // The number of each, by its identifier: one is found without comparing every one.
    numbers: BTreeMap<String, u32>,
}

impl Model for Clients {
    ghost Value = { List ClientRecord };

    ghost view = { λ clients. clients.list.items };

    ghost invariant = { λ clients. IsIndex clients.numbers (ids clients.list.items) × (length clients.list.items ≤ client_limit) };
}

impl Clients {
    fn new(alloc: Global) -> Clients
        ensures { result ≡ [] }
    {
        Clients {
            list: Vec::new(alloc),
            numbers: BTreeMap::new(alloc),
        }
    }

    // The place of the client with this identifier, counted from 1.
    fn place(&self, id: &str) -> Option<u32>
        ensures value { result ≡ number_among id.now (ids self.now) }
        ensures listed { IfSome result (λ number. (1 ≤ number) × (number ≤ length (ids self.now))) }
    {
        self.numbers.get(id).copied()
    }

    // The number of the client with this identifier.
    pub(crate) fn number(&self, id: &str) -> Option<ClientNo>
        ensures value { result ≡ number_among id.now (ids self.now) }
        ensures listed { IfSome result (λ number. number ≤ length self.now) }
    {
        self.place(id).map(ClientNo::new)
    }

    // The client of this number.
    pub(crate) fn get(&self, number: ClientNo) -> Option<&Client>
        ensures { option_copied result ≡ client_at number self.now }
    {
        self.list.get(number.get() as usize - 1)
    }

    // The client of this number, which is listed.
    pub(crate) fn at(&self, number: ClientNo) -> &Client
        requires { number ≤ length self.now }
        ensures { client_at number self.now ≡ Some result.now }
    {
        &self.list[number.get() as usize - 1]
    }

    // What bounds the grants of each.
    pub(crate) fn bounds(&self, alloc: Global) -> Result<Vec<ClientBounds<'_>>, AllocError>
        ensures { IfOk result (λ bounds. map client_said bounds.items ≡ map client_had self.now) }
    {
        let mut bounds = Vec::new(alloc);
        for client in &self.list {
            bounds.extend_from_slice(&[ClientBounds {
                name: client.id(),
                allowed: client.allowed(),
            }])?;
        }
        Ok(bounds)
    }

    // How many clients there are.
    pub(crate) fn count(&self) -> usize
        ensures value { result ≡ length self.now }
        ensures few { result ≤ client_limit }
    {
        self.list.len()
    }

    // Takes a further client.
    fn push(&mut self, alloc: Global, client: Client) -> Result<(), AllocError>
        requires new { number_among client.id (ids self.old) ≡ None }
        requires room { length self.old < client_limit }
        ensures ok { OnOk result (self.new ≡ self.old ++ client ∷ []) }
        ensures err { OnErr result (self.new ≡ self.old) }
    {
        let number = self.list.len() as u32 + 1;
        self.list.reserve(1)?;
        self.numbers
            .insert(String::from_str(alloc, client.id())?, number)?;
        let Ok(()) = self.list.push(client) else {
            unreachable!();
        };
        Ok(())
    }
}

// The member `id`: an identifier that none of the clients has.
fn id_member<'v>(clients: &Clients, value: &'v Value) -> Result<&'v str, ConfigFault>
    ensures { seen_by (λ s. s.now) result ≡ id_member clients.now (view value.now) }
{
    let id = identifier(member(value, "id")?)?;
    match clients.number(id) {
        Some(_) => Err(ConfigFault::Twice),
        None => Ok(id),
    }
}

// The member `secret`.
fn secret_member(value: &Value) -> Result<Secrets, ConfigFault>
    ensures { result ≡ secret_member (view value.now) }
{
    client_secrets(member(value, "secret")?)
}

// The member `redirects` of the client with the number.
fn redirects_member(alloc: Global, client: usize, value: &Value) -> Result<Vec<String>, Refusal>
    ensures { GivesUnless refusal.Memory Unit (seen_by (λ v. map string_bytes v.items) result)
        (redirects_member client (view value.now)) }
{
    let spot = Spot::Client(client, ClientSpot::Redirects(None));
    let list = located(spot, items(value, "redirects", 0, MOST_REDIRECTS))?;
    redirect_list(alloc, client, list)
}

// The member `scope`.
fn scope_member(catalogue: &Catalogue, value: &Value) -> Result<ScopeSet, ConfigFault>
    ensures { result ≡ scope_member catalogue.now (view value.now) }
{
    scope(catalogue, member(value, "scope")?)
}

// The member `grants` of the client with the number.
fn grants_member(client: usize, value: &Value) -> Result<Grants, Refusal>
    ensures { result ≡ grants_member client (view value.now) }
{
    let spot = Spot::Client(client, ClientSpot::Grants(None));
    let list = located(spot, member(value, "grants").and_then(list))?;
    grant_set(client, list)
}

// A client after these.
fn read_client(
    alloc: Global,
    catalogue: &Catalogue,
    clients: &Clients,
    value: &Value,
) -> Result<Client, Refusal>
    ensures { GivesUnless refusal.Memory (IsOk (id_member clients.now (view value.now)) × IsOk (secret_member (view value.now))) result
        (client_of catalogue.now clients.now (view value.now)) }
{
    let number = clients.list.len();
    let id = located(
        Spot::Client(number, ClientSpot::Id),
        id_member(clients, value),
    )?;
    let secrets = located(
        Spot::Client(number, ClientSpot::Secret),
        secret_member(value),
    )?;
    let redirects = redirects_member(alloc, number, value)?;
    let allowed = scope_member(catalogue, value);
    let allowed = located(Spot::Client(number, ClientSpot::Scope), allowed)?;
    let grants = grants_member(number, value)?;
    let records = stated_limit(value, "records");
    let records = located(Spot::Client(number, ClientSpot::Records), records)?;
    let own_id = String::from_str(alloc, id)?;
    Ok(Client {
        id: own_id,
        secrets,
        redirects,
        allowed,
        grants,
        records,
    })
}

// The clients of a list.
pub(crate) fn client_list(
    alloc: Global,
    catalogue: &Catalogue,
    list: &[Value],
) -> Result<Clients, Refusal>
    requires { length list.now ≤ client_limit }
    ensures { GivesUnless refusal.Memory (0 < length list.now) result
        (clients_after catalogue.now [] (items_view list.now)) }
{
    let mut clients = Clients::new(alloc);
    for value in list {
        clients.push(alloc, read_client(alloc, catalogue, &clients, value)?)?;
    }
    Ok(clients)
}

// Whether the mask has no bit past the first ones.
fn has_no_bit_past(bits: u64, count: usize) -> bool
    ensures { IsTrue result → bits < 2 ^ count }
{
    count >= MOST_SCOPES || bits < 1 << count
}

// Whether a client may be allowed the scope, where the registry has these scope names: one at least, and no other.
fn may_be_allowed(catalogue: &Catalogue, scope: ScopeSet) -> bool
    ensures { IsTrue result → (0 < scope) × (scope < 2 ^ length catalogue.now) }
{
    !scope.is_empty() && has_no_bit_past(scope.bits(), catalogue.names().len())
}

// A client of these bounds after the others, which has one secret that nobody knows, and may do nothing.
fn client_within(
    alloc: Global,
    catalogue: &Catalogue,
    clients: &Clients,
    bounds: &ClientBounds<'_>,
) -> Result<Client, ConfigFault>
    ensures bounds { IfOk result (λ client. client_had client ≡ client_said bounds.now) }
    ensures right { IfOk result (IsClientOf catalogue.now) }
    ensures new { IfOk result (λ client. number_among client.id (ids clients.now) ≡ None) }
{
    if !is_identifier(bounds.name) {
        return Err(ConfigFault::OutOfRange);
    }
    if clients.number(bounds.name).is_some() {
        return Err(ConfigFault::Twice);
    }
    if !may_be_allowed(catalogue, bounds.allowed) {
        return Err(ConfigFault::BadScope);
    }
    Ok(Client {
        id: String::from_str(alloc, bounds.name)?,
        secrets: Secrets::unknown(),
        redirects: Vec::new(alloc),
        allowed: bounds.allowed,
        grants: Grants::none(),
        records: None,
    })
}

// Clients of these bounds, which have secrets that nobody knows, and may do nothing.
pub(crate) fn clients_within(
    alloc: Global,
    catalogue: &Catalogue,
    bounds: &[ClientBounds<'_>],
) -> Result<Clients, ConfigFault>
    ensures bounds { IfOk result (λ clients. map client_had clients ≡ map client_said bounds.now) }
    ensures right { IfOk result (All (IsClientOf catalogue.now)) }
    ensures distinct { IfOk result (λ clients. any_twice (ids clients) ≡ false) }
{
    if bounds.len() > MOST_CLIENTS {
        return Err(ConfigFault::OutOfRange);
    }
    let mut clients = Clients::new(alloc);
    for bound in bounds {
        clients.push(alloc, client_within(alloc, catalogue, &clients, bound)?)?;
    }
    Ok(clients)
}
