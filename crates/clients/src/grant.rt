//! Grant types (RFC 6749, section 1.3) and the sets of them.

ghost use Rattle.std.specs.Prelude.{◌≡◌};
ghost use Rattle.serde_json.specs.View.{view, items_view};
ghost use Rattle.clients.specs.Grants.{grant_named, no_grants, with_grant, has_grant, grant_type_of, grants_after};

use registry_json::fault::{ConfigFault, Refusal, located};
use registry_json::json::text;
use registry_json::spot::{ClientSpot, Spot};
use serde_json::Value;

/// A grant type that a client may use (RFC 6749, section 1.3; refresh tokens, section 1.5).
#[derive(Clone, Copy, Debug, PartialEq, Eq, Hash)]
pub enum GrantType {
    /// `authorization_code`, RFC 6749, section 4.1.
    AuthorizationCode,
    /// `refresh_token`, RFC 6749, section 6.
    RefreshToken,
    /// `client_credentials`, RFC 6749, section 4.4.
    ClientCredentials,
}

impl GrantType {
    /// The grant type of this name, as `grant_type` has it.
    pub fn named(name: &str) -> Option<GrantType>
        ensures { result ≡ grant_named name.now }
    {
        let name = name.as_bytes();
        if name == b"authorization_code".as_slice() {
            return Some(GrantType::AuthorizationCode);
        }
        if name == b"refresh_token".as_slice() {
            return Some(GrantType::RefreshToken);
        }
        if name == b"client_credentials".as_slice() {
            return Some(GrantType::ClientCredentials);
        }
        None
    }
}

// A set of grant types.
#[derive(Clone, Copy)]
pub(crate) struct Grants {
    authorization_code: bool,
    refresh_token: bool,
    client_credentials: bool,
}

impl Grants {
    // The set without members.
    pub(crate) fn none() -> Grants
        ensures { result ≡ no_grants }
    {
        Grants {
            authorization_code: false,
            refresh_token: false,
            client_credentials: false,
        }
    }

    // The set with this grant type.
    fn with(self, grant: GrantType) -> Grants
        ensures { result ≡ with_grant grant self }
    {
        let mut grants = self;
        match grant {
            GrantType::AuthorizationCode => grants.authorization_code = true,
            GrantType::RefreshToken => grants.refresh_token = true,
            GrantType::ClientCredentials => grants.client_credentials = true,
        }
        grants
    }

    // Whether the grant type is in the set.
    pub(crate) fn has(&self, grant: GrantType) -> bool
        ensures { result ≡ has_grant grant self.now }
    {
        match grant {
            GrantType::AuthorizationCode => self.authorization_code,
            GrantType::RefreshToken => self.refresh_token,
            GrantType::ClientCredentials => self.client_credentials,
        }
    }
}

fn grant(value: &Value) -> Result<GrantType, ConfigFault>
    ensures { result ≡ grant_type_of (view value.now) }
{
    GrantType::named(text(value)?).ok_or(ConfigFault::BadShape)
}

// The grant types that a list of the client's names.
pub(crate) fn grant_set(client: usize, list: &[Value]) -> Result<Grants, Refusal>
    ensures { result ≡ grants_after client 0 no_grants (items_view list.now) }
{
    let mut grants = Grants::none();
    let mut number = 0;
    for value in list {
        let spot = Spot::Client(client, ClientSpot::Grants(Some(number)));
        grants = grants.with(located(spot, grant(value))?);
        number += 1;
    }
    Ok(grants)
}
