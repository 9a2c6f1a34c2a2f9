//! Hex text, as arguments and files have it.

ghost use Rattle.std.specs.Prelude.{◌≡◌, ◌↔◌, IsTrue, ℕ, List, IfOk, IfSome, MatchOption};
ghost use Rattle.hook_commands.specs.HexText.{byte_of, IsBlank, IsHexOf, IsNoHex};

use hex::FromHex;
use std::alloc::{AllocError, Global};

/// Whether a character is a space or a line feed.
fn is_blank(c: u8) -> bool
    ensures { IsTrue result ↔ IsBlank c }
{
    c == b' ' || c == b'\n'
}

/// The byte of two digits.
fn byte_of(high: u8, low: u8) -> Option<u8>
    ensures { result ≡ byte_of high low }
{
    let [byte] = <[u8; 1]>::from_hex([high, low]).ok()?;
    Some(byte)
}

/// The bytes that a text of hex spells: digits in pairs, of either case. Spaces and line feeds before, between and
/// behind the pairs count for nothing. `None` where the text is no such hex.
pub fn bytes_of_hex(alloc: Global, text: &[u8]) -> Result<Option<Vec<u8>>, AllocError>
    ensures spelled { IfOk result (λ o. MatchOption o (IsNoHex text.now) (λ bytes. IsHexOf text.now bytes.items)) }
    ensures only { IfOk result (λ o. IfSome o (λ bytes. (other : List ℕ) → IsHexOf text.now other → other ≡ bytes.items)) }
{
    let mut bytes = Vec::new(alloc);
    let mut rest = text;
    while let Some((first, after)) = rest.split_first() {
        if is_blank(*first) {
            rest = after;
            continue;
        }
        let Some((second, after)) = after.split_first() else {
            return Ok(None);
        };
        let Some(byte) = byte_of(*first, *second) else {
            return Ok(None);
        };
        bytes.push(byte)?;
        rest = after;
    }
    Ok(Some(bytes))
}
