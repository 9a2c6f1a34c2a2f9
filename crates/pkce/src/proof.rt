// Code verifiers and code challenges.
ghost use Rattle.std.specs.Prelude.{◌≡◌};
ghost use Rattle.std.specs.List.{list_all};
ghost use Rattle.pkce.specs.Proof.{is_unreserved, is_base64url, is_verifier, is_challenge, challenge_of, proves};

use base64::engine::general_purpose::URL_SAFE_NO_PAD;
use sha2::{Digest, Sha256};

/// Whether the text has the form of a code challenge of the method S256 (RFC 7636, section 4.2): 43 characters of
/// base64url. Some such texts are the challenge of no verifier.
pub fn challenge_ok(text: &str) -> bool
    ensures { result ≡ is_challenge text.now }
{
    text.len() == 43 && are_base64url(text.as_bytes())
}

/// Whether the code verifier proves the code challenge by the method S256 (RFC 7636, section 4.6).
pub fn matches(verifier: &str, challenge: &str) -> bool
    ensures { result ≡ proves verifier.now challenge.now }
{
    let verifier = verifier.as_bytes();
    is_verifier(verifier) && challenge_of(verifier).as_slice() == challenge.as_bytes()
}

// The characters of a code verifier (RFC 7636, section 4.1).
fn is_unreserved(byte: u8) -> bool
    ensures { result ≡ is_unreserved byte }
{
    byte.is_ascii_alphanumeric() || matches!(byte, b'-' | b'.' | b'_' | b'~')
}

// The characters of base64url (RFC 4648, section 5).
fn is_base64url(byte: u8) -> bool
    ensures { result ≡ is_base64url byte }
{
    byte.is_ascii_alphanumeric() || matches!(byte, b'-' | b'_')
}

fn are_unreserved(text: &[u8]) -> bool
    ensures { result ≡ list_all is_unreserved text.now }
{
    text.iter().all(|&byte| is_unreserved(byte))
}

fn are_base64url(text: &[u8]) -> bool
    ensures { result ≡ list_all is_base64url text.now }
{
    text.iter().all(|&byte| is_base64url(byte))
}

fn is_verifier(text: &[u8]) -> bool
    ensures { result ≡ is_verifier text.now }
{
    43 <= text.len() && text.len() <= 128 && are_unreserved(text)
}

fn challenge_of(verifier: &[u8]) -> [u8; 43]
    ensures { result ≡ challenge_of verifier.now }
{
    let digest = Sha256::digest(verifier);
    let mut text = [0u8; 43];
    let _ = URL_SAFE_NO_PAD.encode_slice(&digest, &mut text);
    text
}
