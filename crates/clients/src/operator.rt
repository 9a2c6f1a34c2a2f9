//! What the operator is known by.
ghost use Rattle.std.specs.Prelude.{◌≡◌, ℕ, List};
ghost use Rattle.clients.specs.Registry.{is_key_of};

use crate::digest::{are_same, sent_digest};
use consent::Digest;
use std::marker::Model;

/// What the operator's key is known by: its digest.
#[derive(Clone, Copy, Debug)]
pub struct OperatorKey(pub(crate) Digest);

impl Model for OperatorKey {
    ghost use Rattle.std.specs.Prelude.{ℕ, List};

    ghost Value = { List ℕ };

    ghost view = { λ key. key.0 };

    ghost inverse = { λ digest. record { 0 = digest } };
}

impl OperatorKey {
    /// Whether this is the key: 1 to 128 visible characters of the operator's SHA-256.
    pub fn is(&self, key: &[u8]) -> bool
        ensures { result ≡ is_key_of key.now self.now }
    {
        sent_digest(key).is_some_and(|digest| are_same(&digest, &self.0))
    }
}
