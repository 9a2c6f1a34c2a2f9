//! What comes with a piece of a stream: draws and bytes, both as hex.

ghost use Rattle.std.specs.Prelude.{◌≡◌, ◌==◌, ℕ, List, map, Some, IfOk, IfSome};
ghost use Rattle.std.specs.List.{slice_split};
ghost use Rattle.std.specs.Option.{option_map};
ghost use Rattle.messages.specs.declared.request.Draws.{Draws};
ghost use Rattle.transcript.specs.Pieces.{drawn, draws_in, AllDraw, SpellsDraws, SpellsPiece};

use hex::{FromHex, FromHexError};
use messages::Draws;
use std::alloc::{AllocError, Global};

/// 64 bytes drawn: 32 of the first code or token, and 32 of the second.
fn drawn(bytes: &[u8; 64]) -> Draws
    ensures { result ≡ drawn bytes.now }
{
    let mut draws = Draws {
        first: [0; 32],
        second: [0; 32],
    };
    let (first, second) = bytes.split_at(32);
    draws.first.copy_from_slice(first);
    draws.second.copy_from_slice(second);
    draws
}

/// What 128 hex digits draw.
fn draws_of(digits: &str) -> Option<Draws>
    ensures { result ≡ draws_in digits.now }
{
    let bytes = <[u8; 64]>::from_hex(digits).ok()?;
    Some(drawn(&bytes))
}

/// The parts of a word between commas.
fn parts(alloc: Global, word: &str) -> Result<Vec<&str>, AllocError>
    ensures { IfOk result (λ parts. map (λ part. part.now) parts.items ≡ slice_split (λ c. c == 44) word.now) }
{
    word.split(',').collect(alloc)
}

/// What words of 128 hex digits each draw, where all of them do.
fn all_draws(alloc: Global, words: &[&str]) -> Result<Option<Vec<Draws>>, AllocError>
    ensures some { IfOk result (λ o. IfSome o (λ draws. AllDraw (map (λ word. word.now) words.now) draws.items)) }
    ensures only { IfOk result (λ o. (other : List Draws) → AllDraw (map (λ word. word.now) words.now) other →
        option_map (λ draws. draws.items) o ≡ Some other) }
{
    let mut all = Vec::new(alloc);
    for word in words {
        let Some(draws) = draws_of(word) else {
            return Ok(None);
        };
        all.push(draws)?;
    }
    Ok(Some(all))
}

/// The draws of a word: none for a minus, or those that are joined by commas.
pub fn draws(alloc: Global, word: &str) -> Result<Option<Vec<Draws>>, AllocError>
    ensures some { IfOk result (λ o. IfSome o (λ draws. SpellsDraws word.now draws.items)) }
    ensures only { IfOk result (λ o. (other : List Draws) → SpellsDraws word.now other → option_map (λ draws. draws.items) o ≡ Some other) }
{
    if word == "-" {
        return Ok(Some(Vec::new(alloc)));
    }
    let parts = parts(alloc, word)?;
    all_draws(alloc, &parts)
}

/// The bytes of a word of hex.
pub fn piece(alloc: Global, word: &str) -> Result<Option<Vec<u8>>, AllocError>
    ensures some { IfOk result (λ o. IfSome o (λ bytes. SpellsPiece word.now bytes.items)) }
    ensures only { IfOk result (λ o. (other : List ℕ) → SpellsPiece word.now other → option_map (λ bytes. bytes.items) o ≡ Some other) }
{
    if word.is_empty() {
        return Ok(None);
    }
    match hex::decode(alloc, word) {
        Ok(bytes) => Ok(Some(bytes)),
        Err(FromHexError::OutOfMemory) => Err(AllocError),
        Err(_) => Ok(None),
    }
}
