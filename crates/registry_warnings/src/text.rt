//! The warnings about a registry's text, a line each.

ghost use Rattle.std.specs.Prelude.{◌≡◌, [], ◌++◌, false, string_bytes, codes, IfOk, OnOk};
ghost use Rattle.std.specs.Option.{option_map_or};
ghost use Rattle.json.specs.Reads.{token_of};
ghost use Rattle.json.specs.Lex.{tokens};
ghost use Rattle.registry_warnings.specs.Names.{is_of_key};
ghost use Rattle.registry_warnings.specs.Warnings.{innermost, last_name, is_known, unknown_text, twice_text, is_empty_digest, digest_text, after, token_warnings, warnings, warnings_in};

use crate::names::{is_known_in, is_of_key};
use crate::objects::Objects;
use clients::is_of_registry;
use hex::FromHex;
use json::{Reader, Scratch, Token};
use sha2::{Digest as _, Sha256};
use std::alloc::{AllocError, Global};
use std::str;

// One more line: a text and a name.
fn push_line(lines: &mut String, text: &str, name: &str) -> Result<(), AllocError>
    ensures { OnOk result (string_bytes lines.new ≡ string_bytes lines.old ++ text.now ++ name.now ++ codes "\n") }
{
    lines.push_str(text)?;
    lines.push_str(name)?;
    lines.push_str("\n")
}

// Whether the name means something in the innermost object.
fn is_known(objects: &Objects, name: &str) -> bool
    ensures { result ≡ is_known objects.now name.now }
{
    match objects.depth() {
        1 => is_of_registry(name),
        2 => is_known_in(objects.place(), name),
        _ => is_of_key(name),
    }
}

// Tells of a member whose name means nothing where it stands.
fn push_unknown(lines: &mut String, objects: &Objects, name: &str) -> Result<(), AllocError>
    ensures { OnOk result (string_bytes lines.new ≡ string_bytes lines.old ++ unknown_text objects.now name.now) }
{
    if is_known(objects, name) {
        return Ok(());
    }
    push_line(lines, "warning: unknown member ", name)
}

// Tells of a member that its object has already.
fn push_twice(lines: &mut String, objects: &Objects, name: &str) -> Result<(), AllocError>
    ensures { OnOk result (string_bytes lines.new ≡ string_bytes lines.old ++ twice_text objects.now name.now) }
{
    if !objects.has(name) {
        return Ok(());
    }
    push_line(lines, "warning: a member stands twice: ", name)
}

fn is_empty_digest(text: &str) -> bool
    ensures { result ≡ is_empty_digest text.now }
{
    match <[u8; 32] as FromHex>::from_hex(text) {
        Ok(bytes) => Sha256::digest(b"") == bytes,
        Err(_) => false,
    }
}

// Whether the member that is read is a digest in place of a key.
fn is_in_digest(objects: &Objects) -> bool
    ensures { result ≡ option_map_or is_of_key (last_name (innermost objects.now)) false }
{
    match objects.member() {
        Some(name) => is_of_key(name),
        None => false,
    }
}

// Tells of a digest that no key has.
fn push_digest(lines: &mut String, objects: &Objects, text: &str) -> Result<(), AllocError>
    ensures { OnOk result (string_bytes lines.new ≡ string_bytes lines.old ++ digest_text objects.now text.now) }
{
    if !is_in_digest(objects) || !is_empty_digest(text) {
        return Ok(());
    }
    lines.push_str("warning: a key is the SHA-256 of the empty text, which nobody can send\n")
}

// Takes a token, and tells of it.
fn take_token(
    alloc: Global,
    objects: &mut Objects,
    token: Token<'_>,
    lines: &mut String,
) -> Result<(), AllocError>
    ensures objects { OnOk result (objects.new ≡ after objects.old (token_of token.entry)) }
    ensures lines { OnOk result (string_bytes lines.new ≡ string_bytes lines.old ++ token_warnings objects.old (token_of token.entry)) }
{
    match token {
        Token::BeginObject => objects.begin(alloc),
        Token::EndObject => {
            let _ = objects.end();
            Ok(())
        }
        Token::Key(name) => {
            push_unknown(lines, objects, name)?;
            push_twice(lines, objects, name)?;
            objects.take(alloc, name)
        }
        Token::String(text) => push_digest(lines, objects, text),
        _ => Ok(()),
    }
}

// The warnings about JSON text.
fn text_warnings(alloc: Global, text: &str) -> Result<String, AllocError>
    ensures { IfOk result (λ lines. string_bytes lines ≡ warnings [] (tokens text.now)) }
{
    let mut scratch = Scratch::new(alloc);
    let mut reader = Reader::new(text, &mut scratch)?;
    let mut objects = Objects::new(alloc);
    let mut lines = String::new(alloc);
    while let Some(token) = reader.next() {
        take_token(alloc, &mut objects, token, &mut lines)?;
    }
    Ok(lines)
}

/// The warnings about the JSON text of a registry, in the order of the text: of each member whose name means nothing where it
/// stands, of each that stands in its object already, and of each digest in place of a key that is the empty text's, which no
/// key has. Of bytes that are not UTF-8 there are none.
#[tactic(auto, using(crate::proofs::Utf8::warnings_where, crate::proofs::Utf8::no_warnings_where))]
pub fn warnings(alloc: Global, bytes: &[u8]) -> Result<String, AllocError>
    ensures { IfOk result (λ lines. string_bytes lines ≡ warnings_in bytes.now) }
{
    match str::from_utf8(bytes) {
        Ok(text) => text_warnings(alloc, text),
        Err(_) => Ok(String::new(alloc)),
    }
}
