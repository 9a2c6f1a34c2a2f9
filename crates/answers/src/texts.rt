//! The texts of codes and tokens.
ghost use Rattle.std.specs.Prelude.{◌≡◌};
ghost use Rattle.answers.specs.Texts.{digest_told};

use consent::Digest;
use pkce::{digest_of, read_token};

/// The digest of the code or token that the text may be: none, where it is not the text of 32 bytes.
pub fn digest_told(text: &str) -> Option<Digest>
    ensures { result ≡ digest_told text.now }
{
    let bytes = read_token(text)?;
    Some(digest_of(&bytes))
}
