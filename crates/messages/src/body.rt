//! The JSON text of bodies (RFC 6749, section 5; RFC 7662, section 2.2).
ghost use Rattle.std.specs.Prelude.{◌≡◌, [], ◌∷◌, ◌++◌, Some, IfOk, OnOk, map, option_copied};
ghost use Rattle.json.specs.Token.{end_object};
ghost use Rattle.json.specs.Tree.{members_tokens};
ghost use Rattle.serde_json.specs.Written.{members_outline};
ghost use Rattle.messages.specs.Live.{live_body};
ghost use Rattle.messages.specs.Members.{members_of};
ghost use Rattle.messages.specs.Reply.Body.{Failure, Tokens, Inactive, Told};
ghost use Rattle.messages.specs.Written.{body_text, type_member};

use crate::error::ErrorName;
use crate::member::{Member, room_of};
use crate::object::Object;
use crate::token::ActiveToken;
use consent::TokenKind;
use std::alloc::{AllocError, Global};

pub(crate) fn failure(alloc: Global, error: ErrorName) -> Result<Vec<u8>, AllocError>
    ensures { IfOk result (λ text. body_text (Failure error) ≡ Some text.items) }
{
    let mut json = Object::new(alloc, 0)?;
    json.text("error", error.text())?;
    json.finish()
}

// The kind of an access token; a refresh token has none.
fn kind(json: &mut Object, kind: TokenKind) -> Result<(), AllocError>
    ensures { OnOk result (json.new.json.tokens ++ end_object ∷ [] ≡ json.old.json.tokens ++ members_tokens (members_outline (type_member kind))) }
{
    match kind {
        TokenKind::Access => json.text("token_type", "Bearer")?,
        TokenKind::Refresh => (),
    }
    Ok(())
}

pub(crate) fn tokens(
    alloc: Global,
    access: &str,
    life: u32,
    refresh: Option<&str>,
    scope: &str,
) -> Result<Vec<u8>, AllocError>
    ensures { IfOk result (λ text. body_text (Tokens access.now life (option_copied refresh.entry) scope.now) ≡ Some text.items) }
{
    let mut json = Object::new(alloc, scope.len())?;
    json.text("access_token", access)?;
    json.number("expires_in", u64::from(life))?;
    if let Some(refresh) = refresh {
        json.text("refresh_token", refresh)?;
    }
    json.text("scope", scope)?;
    kind(&mut json, TokenKind::Access)?;
    json.finish()
}

pub(crate) fn active(alloc: Global, token: ActiveToken<'_>) -> Result<Vec<u8>, AllocError>
    ensures { IfOk result (λ text. body_text (live_body token.entry) ≡ Some text.items) }
{
    let mut json = Object::new(alloc, token.scope.len())?;
    json.boolean("active", true)?;
    json.text("client_id", token.client)?;
    json.number("exp", token.expires)?;
    json.number("iat", token.issued)?;
    json.text("scope", token.scope)?;
    if let Some(sub) = token.sub {
        json.text("sub", sub)?;
    }
    kind(&mut json, token.kind)?;
    json.finish()
}

pub(crate) fn inactive(alloc: Global) -> Result<Vec<u8>, AllocError>
    ensures { IfOk result (λ text. body_text Inactive ≡ Some text.items) }
{
    let mut json = Object::new(alloc, 0)?;
    json.boolean("active", false)?;
    json.finish()
}

pub(crate) fn object(alloc: Global, members: &[Member<'_>]) -> Result<Vec<u8>, AllocError>
    ensures { IfOk result (λ text. body_text (Told (members_of members.now)) ≡ Some text.items) }
{
    let mut json = Object::new(alloc, room_of(members))?;
    json.members(members)?;
    json.finish()
}
