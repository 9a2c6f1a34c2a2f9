//! Keys, secrets and client identifiers.

ghost use Rattle.std.specs.Prelude.{◌≡◌};
ghost use Rattle.std.specs.List.{list_all};
ghost use Rattle.serde_json.specs.View.{view};
ghost use Rattle.registry_json.specs.FaultsParts.{seen_by};
ghost use Rattle.registry_json.specs.Texts.{is_visible, is_key, is_identifier_byte, is_identifier, key_of, identifier_of};

use crate::fault::ConfigFault;
use crate::json::text;
use serde_json::Value;

const LONGEST_KEY: usize = 128;

const LONGEST_IDENTIFIER: usize = 64;

fn is_identifier_byte(byte: u8) -> bool
    ensures { result ≡ is_identifier_byte byte }
{
    byte.is_ascii_alphanumeric() || matches!(byte, b'-' | b'.' | b'_')
}

fn is_visible(byte: u8) -> bool
    ensures { result ≡ is_visible byte }
{
    matches!(byte, b'!'..=b'~')
}

fn are_visible(bytes: &[u8]) -> bool
    ensures { result ≡ list_all is_visible bytes.now }
{
    bytes.iter().all(|&byte| is_visible(byte))
}

fn are_identifier_bytes(bytes: &[u8]) -> bool
    ensures { result ≡ list_all is_identifier_byte bytes.now }
{
    bytes.iter().all(|&byte| is_identifier_byte(byte))
}

/// Whether this has the form of a key or a secret.
pub fn is_key(text: &[u8]) -> bool
    ensures { result ≡ is_key text.now }
{
    1 <= text.len() && text.len() <= LONGEST_KEY && are_visible(text)
}

/// Whether this has the form of a client identifier.
pub fn is_identifier(text: &str) -> bool
    ensures { result ≡ is_identifier text.now }
{
    1 <= text.len() && text.len() <= LONGEST_IDENTIFIER && are_identifier_bytes(text.as_bytes())
}

/// An owner key, the operator key or a client secret.
pub fn key(value: &Value) -> Result<&str, ConfigFault>
    ensures { seen_by (λ s. s.now) result ≡ key_of (view value.now) }
{
    let text = text(value)?;
    if is_key(text.as_bytes()) {
        Ok(text)
    } else {
        Err(ConfigFault::OutOfRange)
    }
}

/// A client identifier.
pub fn identifier(value: &Value) -> Result<&str, ConfigFault>
    ensures { seen_by (λ s. s.now) result ≡ identifier_of (view value.now) }
{
    let text = text(value)?;
    if is_identifier(text) {
        Ok(text)
    } else {
        Err(ConfigFault::OutOfRange)
    }
}
