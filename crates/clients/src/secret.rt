//! The secrets of a client: one, or two while one takes the other's place.

ghost use Rattle.std.specs.Prelude.{◌≡◌, bytes_eq, ℕ, List, ◌∷◌, length, option_to_list};
ghost use Rattle.std.specs.List.{list_any};
ghost use Rattle.serde_json.specs.View.{view, items_view};
ghost use Rattle.clients.specs.Clients.{one_or_two, secrets_of};

use crate::digest::{are_same, key_digest, unknown_digest};
use consent::Digest;
use registry_json::fault::ConfigFault;
use serde_json::Value;
use std::marker::Model;
use std::slice;

// The digests of a client's secrets.
#[derive(Drop)]
pub(crate) struct Secrets {
    first: Digest,
    second: Option<Digest>,
}

impl Model for Secrets {
    ghost Value = { List (List ℕ) };

    ghost view = { λ s. s.first ∷ option_to_list s.second };
}

impl Secrets {
    // One secret, which nobody knows.
    pub(crate) fn unknown() -> Secrets
        ensures { length result ≡ 1 }
    {
        Secrets {
            first: unknown_digest(),
            second: None,
        }
    }

    // Whether this is the digest of one of the secrets. It is compared with each.
    pub(crate) fn has(&self, digest: &Digest) -> bool
        ensures { result ≡ list_any (bytes_eq digest.now) self.now }
    {
        let is_second = match &self.second {
            Some(second) => are_same(digest, second),
            None => false,
        };
        are_same(digest, &self.first) | is_second
    }
}

// The digests of one secret or two.
fn one_or_two(list: &[Value]) -> Result<Secrets, ConfigFault>
    ensures { result ≡ one_or_two (items_view list.now) }
{
    match list {
        [secret] => Ok(Secrets {
            first: key_digest(secret)?,
            second: None,
        }),
        [first, second] => Ok(Secrets {
            first: key_digest(first)?,
            second: Some(key_digest(second)?),
        }),
        _ => Err(ConfigFault::OutOfRange),
    }
}

// The digests of a secret, or of a list of one or two.
pub(crate) fn client_secrets(value: &Value) -> Result<Secrets, ConfigFault>
    ensures { result ≡ secrets_of (view value.now) }
{
    match value.as_array() {
        Some(list) => one_or_two(list.as_slice()),
        None => one_or_two(slice::from_ref(value)),
    }
}
