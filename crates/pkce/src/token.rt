// The text of a code or a token, and its digest.
ghost use Rattle.std.specs.Prelude.{◌≡◌, IfOk, IfSome, string_bytes, take};
ghost use Rattle.sha2.specs.Sha256.{sha256};
ghost use Rattle.pkce.specs.Token.{token_text, token_bytes};

use base64::engine::general_purpose::URL_SAFE_NO_PAD;
use consent::Digest;
use sha2::{Digest as _, Sha256};
use std::alloc::{AllocError, Global};

/// The one text of the 32 bytes of a code or a token: base64url without padding (RFC 4648, section 5).
pub fn token_text(alloc: Global, bytes: &[u8; 32]) -> Result<String, AllocError>
    ensures { IfOk result (λ text. string_bytes text ≡ token_text bytes.now) }
{
    URL_SAFE_NO_PAD.encode(alloc, bytes)
}

/// The 32 bytes whose one text this is. `None` for any other text, also where only the unused bits of its last
/// character differ.
pub fn read_token(text: &str) -> Option<[u8; 32]>
    ensures value { result ≡ token_bytes text.now }
    ensures canonical { IfSome result (λ bytes. text.now ≡ token_text bytes) }
{
    decoded(text.as_bytes())
}

/// The SHA-256 of the 32 bytes of a code or a token.
pub fn digest_of(bytes: &[u8; 32]) -> Digest
    ensures { result ≡ sha256 bytes.now }
{
    Digest::new(Sha256::digest(bytes))
}

// `read_token` at bytes. The decoder takes no text whose last character has other unused bits.
fn decoded(text: &[u8]) -> Option<[u8; 32]>
    ensures { result ≡ token_bytes text.now }
{
    if text.len() != 43 {
        return None;
    }
    let mut buffer = [0u8; 33];
    match URL_SAFE_NO_PAD.decode_slice(text, &mut buffer) {
        Ok(32) => Some(front(&buffer)),
        Ok(_) => None,
        Err(_) => None,
    }
}

// Decoding writes into room for 33 bytes; a token is the first 32.
fn front(buffer: &[u8; 33]) -> [u8; 32]
    ensures { result ≡ take 32 buffer.now }
{
    let mut bytes = [0u8; 32];
    bytes.copy_from_slice(&buffer[..32]);
    bytes
}
