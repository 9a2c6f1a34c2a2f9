//! Replies, each with what its body says.
ghost use Rattle.std.specs.Prelude.{◌≡◌, IfOk, option_copied};
ghost use Rattle.messages.specs.Reply.{plain, sent_back};
ghost use Rattle.messages.specs.Live.{live_body};
ghost use Rattle.messages.specs.Members.{members_of};
ghost use Rattle.messages.specs.Reply.Body.{Failure, Tokens, Inactive, Told};
ghost use Rattle.messages.specs.Written.{in_writing};

use crate::body;
use crate::error::ErrorName;
use crate::location::location_of;
use crate::member::Member;
use crate::response::Response;
use crate::token::ActiveToken;
use http::StatusCode;
use std::alloc::{AllocError, Global};

/// An error (RFC 6749, section 5.2).
pub fn failure(alloc: Global, status: StatusCode, error: ErrorName) -> Result<Response, AllocError>
    ensures { IfOk result (λ reply. reply ≡ in_writing (plain status (Failure error))) }
{
    Ok(Response::with_body(status, body::failure(alloc, error)?))
}

/// An access token, its life in seconds, a refresh token where there is one, and their scope (RFC 6749, section 5.1).
pub fn tokens(
    alloc: Global,
    access: &str,
    life: u32,
    refresh: Option<&str>,
    scope: &str,
) -> Result<Response, AllocError>
    ensures { IfOk result (λ reply. reply ≡ in_writing (plain 200
        (Tokens access.now life (option_copied refresh.entry) scope.now))) }
{
    let text = body::tokens(alloc, access, life, refresh, scope)?;
    Ok(Response::with_body(StatusCode::OK, text))
}

/// What is told of a live token (RFC 7662, section 2.2).
pub fn active(alloc: Global, token: ActiveToken<'_>) -> Result<Response, AllocError>
    ensures { IfOk result (λ reply. reply ≡ in_writing (plain 200 (live_body token.entry))) }
{
    Ok(Response::with_body(StatusCode::OK, body::active(alloc, token)?))
}

/// What is told of a token that is not live (RFC 7662, section 2.2).
pub fn inactive(alloc: Global) -> Result<Response, AllocError>
    ensures { IfOk result (λ reply. reply ≡ in_writing (plain 200 Inactive)) }
{
    Ok(Response::with_body(StatusCode::OK, body::inactive(alloc)?))
}

/// An object of these members, which stand in order of their names.
pub fn told(
    alloc: Global,
    status: StatusCode,
    members: &[Member<'_>],
) -> Result<Response, AllocError>
    ensures { IfOk result (λ reply. reply ≡ in_writing (plain status (Told (members_of members.now)))) }
{
    Ok(Response::with_body(status, body::object(alloc, members)?))
}

/// The user agent is sent to the URI with a pair and, if it was sent, the state (RFC 6749, section 4.1.2).
pub fn redirect(
    alloc: Global,
    uri: &str,
    name: &str,
    value: &str,
    state: Option<&str>,
) -> Result<Response, AllocError>
    ensures { IfOk result (λ reply. reply ≡ in_writing
        (sent_back uri.now name.now value.now (option_copied state.entry))) }
{
    Ok(Response::found(location_of(alloc, uri, name, value, state)?))
}
