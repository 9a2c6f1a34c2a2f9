//! How a request for a reload is answered.
ghost use Rattle.std.specs.Prelude.{◌≡◌, ◌≤◌, ◌↔◌, IsTrue, IfOk, IfSome, length};
ghost use Rattle.std.specs.Option.{option_copied};
ghost use Rattle.messages.specs.Written.{in_writing, reply_bytes};
ghost use Rattle.desk.specs.Replies.{AreShort, HasShortTexts, IsGrantedReply, IsRefusalReply, IsShort, refusal_of, refused_for};

use clients::Registry;
use http::StatusCode;
use messages::{ErrorName, Member, Response, failure, told};
use std::alloc::{AllocError, Global};

/// So many bytes has a reply at most, of short texts.
const REPLY_LIMIT: usize = 32_768;

/// So many bytes has a short text.
const TEXT_LIMIT: usize = 512;

/// Why a reload is refused, or metrics are not told.
#[derive(Clone, Copy, Debug)]
pub enum Refusal<'a> {
    /// Without the operator's key.
    NoKey,
    /// Another one is under way, or memory is refused.
    NotNow,
    /// For this, at this spot, where there is one.
    For {
        detail: &'a str,
        spot: Option<&'a str>,
    },
}

/// What is told of a reload that was made.
#[derive(Clone, Copy, Debug)]
pub struct Reloaded {
    pub clients: usize,
    pub owners: usize,
}

impl Reloaded {
    /// What is told of a registry.
    pub fn of(registry: &Registry) -> Reloaded
        ensures { result ≡ record { clients = length registry.now.clients; owners = length registry.now.owners } }
    {
        Reloaded {
            clients: registry.client_count(),
            owners: registry.owner_count(),
        }
    }
}

/// Whether a text is short.
fn is_short(text: &str) -> bool
    ensures { IsTrue result ↔ IsShort text.now }
{
    text.len() <= TEXT_LIMIT
}

/// Whether both are, or the one that is there.
#[tactic(auto, using(crate::proofs::Sizes::first_short))]
fn are_short(detail: &str, spot: Option<&str>) -> bool
    ensures { IsTrue result ↔ AreShort detail.now (option_copied spot.entry) }
{
    if !is_short(detail) {
        return false;
    }
    match spot {
        None => true,
        Some(spot) => is_short(spot),
    }
}

/// Whether the texts of a refusal are short.
fn has_short_texts(why: Refusal<'_>) -> bool
    ensures { IsTrue result ↔ HasShortTexts why.entry }
{
    match why {
        Refusal::NoKey => true,
        Refusal::NotNow => true,
        Refusal::For { detail, spot } => are_short(detail, spot),
    }
}

/// The bytes of a reply of few bytes.
fn bytes_of(alloc: Global, reply: &Response) -> Result<Vec<u8>, AllocError>
    requires few { length (reply_bytes reply.now) ≤ REPLY_LIMIT }
    ensures { IfOk result (λ bytes. bytes.items ≡ reply_bytes reply.now) }
{
    let mut bytes = Vec::with_capacity(alloc, REPLY_LIMIT)?;
    reply.push(&mut bytes);
    Ok(bytes)
}

/// The reply to a reload that is refused for something.
fn refused<'a>(
    alloc: Global,
    detail: &'a str,
    spot: Option<&'a str>,
) -> Result<Response, AllocError>
    ensures { IfOk result (λ reply. reply ≡ in_writing (refused_for detail.now (option_copied spot.entry))) }
{
    let detail = Member::Text("detail", detail);
    let error = Member::Text("error", "reload_refused");
    match spot {
        Some(spot) => told(
            alloc,
            StatusCode::BAD_REQUEST,
            &[Member::Text("at", spot), detail, error],
        ),
        None => told(alloc, StatusCode::BAD_REQUEST, &[detail, error]),
    }
}

/// The reply to a reload that is refused.
fn refusal_of(alloc: Global, why: Refusal<'_>) -> Result<Response, AllocError>
    ensures { IfOk result (λ reply. reply ≡ in_writing (refusal_of why.entry)) }
{
    match why {
        Refusal::NoKey => failure(alloc, StatusCode::FORBIDDEN, ErrorName::AccessDenied),
        Refusal::NotNow => Ok(Response::bare(StatusCode::SERVICE_UNAVAILABLE)),
        Refusal::For { detail, spot } => refused(alloc, detail, spot),
    }
}

/// The bytes of the reply to a reload that is refused. None where memory is refused, or a text has more than 512 bytes.
pub fn refusal_reply(alloc: Global, why: Refusal<'_>) -> Option<Vec<u8>>
    ensures { IfSome result (λ bytes. IsRefusalReply why.entry bytes.items) }
{
    if !has_short_texts(why) {
        return None;
    }
    let reply = refusal_of(alloc, why).ok()?;
    bytes_of(alloc, &reply).ok()
}

/// The bytes of the reply to a reload that was made. None where memory is refused.
pub fn granted_reply(alloc: Global, reloaded: Reloaded) -> Option<Vec<u8>>
    ensures { IfSome result (λ bytes. IsGrantedReply reloaded bytes.items) }
{
    let members = [
        Member::Number("clients", reloaded.clients as u64),
        Member::Number("owners", reloaded.owners as u64),
    ];
    let reply = told(alloc, StatusCode::OK, &members).ok()?;
    bytes_of(alloc, &reply).ok()
}
