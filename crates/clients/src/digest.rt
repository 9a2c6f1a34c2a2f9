//! The digests of keys and secrets, by which alone they are known: SHA-256 (FIPS 180-4).

ghost use Rattle.std.specs.Prelude.{◌≡◌, bytes_eq};
ghost use Rattle.sha2.specs.Sha256.{sha256};
ghost use Rattle.serde_json.specs.View.{view};
ghost use Rattle.clients.specs.Keys.{digest_in, written_digest, made_digest, sent_digest, key_digest};

use consent::Digest;
use hex::FromHex;
use registry_json::fault::ConfigFault;
use registry_json::json::{member, text};
use registry_json::text::{is_key, key};
use serde_json::Value;
use sha2::{Digest as _, Sha256};

// The SHA-256 of a text.
pub(crate) fn text_digest(text: &[u8]) -> Digest
    ensures { result ≡ sha256 text.now }
{
    Digest::new(Sha256::digest(text))
}

// The digest of what was sent as a key or a secret. What has not the form of one has none, and is compared with nothing: a
// registry may have the digest of any text, the empty one too.
pub(crate) fn sent_digest(sent: &[u8]) -> Option<Digest>
    ensures { result ≡ sent_digest sent.now }
{
    if is_key(sent) {
        Some(text_digest(sent))
    } else {
        None
    }
}

// A digest of which nobody knows a key.
pub(crate) fn unknown_digest() -> Digest {
    Digest::new([0; 32])
}

// Whether the digests are the same. All their bytes are compared, so that the time tells nothing of them.
pub(crate) fn are_same(one: &Digest, other: &Digest) -> bool
    ensures { result ≡ bytes_eq one.now other.now }
{
    let (one, other) = (one.bytes(), other.bytes());
    let mut same = true;
    for place in 0..32 {
        same &= one[place] == other[place];
    }
    same
}

// The 32 bytes of 64 hexadecimal digits, in either case.
fn digest_in(text: &str) -> Result<Digest, ConfigFault>
    ensures { result ≡ digest_in text.now }
{
    match <[u8; 32] as FromHex>::from_hex(text) {
        Ok(bytes) => Ok(Digest::new(bytes)),
        Err(_) => Err(ConfigFault::OutOfRange),
    }
}

// The digest in an object's member `sha256`.
fn written_digest(value: &Value) -> Result<Digest, ConfigFault>
    ensures { result ≡ written_digest (view value.now) }
{
    digest_in(text(member(value, "sha256")?)?)
}

// The digest of a string that is a key.
fn made_digest(value: &Value) -> Result<Digest, ConfigFault>
    ensures { result ≡ made_digest (view value.now) }
{
    Ok(text_digest(key(value)?.as_bytes()))
}

// The digest of a key or a secret: of the key itself, or as an object has it.
pub(crate) fn key_digest(value: &Value) -> Result<Digest, ConfigFault>
    ensures { result ≡ key_digest (view value.now) }
{
    if value.is_object() {
        written_digest(value)
    } else {
        made_digest(value)
    }
}
