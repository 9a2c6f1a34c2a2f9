//! Where in a registry its first fault lies, and the names of what it has.

ghost use Rattle.std.specs.Prelude.{◌≡◌};
ghost use Rattle.registry_json.specs.Spots.{is_of_registry, is_of_client};

use std::fmt;

/// Where in a client, its members taken in this order, the first fault lies.
#[derive(Clone, Copy, Debug, PartialEq, Eq)]
pub enum ClientSpot {
    /// In `id`.
    Id,
    /// In `secret`.
    Secret,
    /// In the item of this number of `redirects`, from 0, or in what is no list of at most eight.
    Redirects(Option<usize>),
    /// In `scope`.
    Scope,
    /// In the item of this number of `grants`, from 0, or in what is no list.
    Grants(Option<usize>),
    /// In `records`.
    Records,
}

/// Where in a registry, its members taken in this order, the first fault lies.
#[derive(Clone, Copy, Debug, PartialEq, Eq)]
pub enum Spot {
    /// In `access_life`.
    AccessLife,
    /// In `refresh_life`.
    RefreshLife,
    /// In `operator`.
    Operator,
    /// In the item of this number of `owners`, from 0, or in what is no list of few enough.
    Owners(Option<usize>),
    /// In the item of this number of `scopes`, from 0, or in what is no list of as many as may be.
    Scopes(Option<usize>),
    /// In `clients`, which is no list of few enough.
    Clients,
    /// In the item of this number of `clients`, from 0, and there.
    Client(usize, ClientSpot),
    /// In `gateway`.
    Gateway,
    /// In `limits`, which is no object.
    Limits,
    /// In `limits`, and there in `records`.
    RecordLimit,
    /// In `limits`, and there in `consents`.
    ConsentLimit,
}

/// The members of a registry.
pub fn is_of_registry(name: &str) -> bool
    ensures { result ≡ is_of_registry name.now }
{
    name == "access_life"
        || name == "refresh_life"
        || name == "operator"
        || name == "owners"
        || name == "scopes"
        || name == "clients"
        || name == "gateway"
        || name == "limits"
}

/// The members of a client.
pub fn is_of_client(name: &str) -> bool
    ensures { result ≡ is_of_client name.now }
{
    name == "id"
        || name == "secret"
        || name == "redirects"
        || name == "scope"
        || name == "grants"
        || name == "records"
}

// A list, or an item of it.
fn write_item<W: fmt::Write>(
    f: &mut fmt::Formatter<W>,
    list: &str,
    number: Option<usize>,
) -> fmt::Result {
    match number {
        Some(number) => write!(f, "{list}[{number}]"),
        None => write!(f, "{list}"),
    }
}

impl fmt::Display for ClientSpot {
    fn fmt<W: fmt::Write>(&self, f: &mut fmt::Formatter<W>) -> fmt::Result {
        match self {
            ClientSpot::Id => write!(f, "id"),
            ClientSpot::Secret => write!(f, "secret"),
            ClientSpot::Redirects(number) => write_item(f, "redirects", *number),
            ClientSpot::Scope => write!(f, "scope"),
            ClientSpot::Grants(number) => write_item(f, "grants", *number),
            ClientSpot::Records => write!(f, "records"),
        }
    }
}

impl fmt::Display for Spot {
    fn fmt<W: fmt::Write>(&self, f: &mut fmt::Formatter<W>) -> fmt::Result {
        match self {
            Spot::AccessLife => write!(f, "access_life"),
            Spot::RefreshLife => write!(f, "refresh_life"),
            Spot::Operator => write!(f, "operator"),
            Spot::Owners(number) => write_item(f, "owners", *number),
            Spot::Scopes(number) => write_item(f, "scopes", *number),
            Spot::Clients => write!(f, "clients"),
            Spot::Client(number, within) => write!(f, "clients[{number}].{within}"),
            Spot::Gateway => write!(f, "gateway"),
            Spot::Limits => write!(f, "limits"),
            Spot::RecordLimit => write!(f, "limits.records"),
            Spot::ConsentLimit => write!(f, "limits.consents"),
        }
    }
}
