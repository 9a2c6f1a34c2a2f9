//! Whether bytes ask for a reload, or for metrics.
ghost use Rattle.desk.specs.Judging.{BeginsWith, IsJudged, IsWish, MayAsk, asks_for, bears_key, has_metrics_key};
ghost use Rattle.std.specs.Prelude.{◌≡◌, ◌↔◌, IsTrue, false};
ghost use Rattle.std.specs.Option.{option_copied, option_map_or};
ghost use Rattle.clients.specs.Registry.{is_key_of};
ghost use Rattle.messages.specs.Asked.{asked_of};

use clients::OperatorKey;
use heads::{Front, HEAD_SIZE_LIMIT, lend, read_front};
use messages::Request;

/// The bytes with which a request for a reload begins.
const RELOAD_FRONT: &[u8] = b"POST /reload ";

/// The bytes with which a request for metrics begins.
const METRICS_FRONT: &[u8] = b"GET /metrics ";

/// The scheme of a key that is sent in place of a password (RFC 6750, section 2.1), and a blank.
const BEARER: &[u8] = b"bearer ";

/// So many bytes are looked at, at most: what is asked for here has no more.
pub const PEEK_LIMIT: usize = HEAD_SIZE_LIMIT;

/// What the first bytes of a connection are.
#[derive(Clone, Copy, Debug, PartialEq, Eq)]
pub enum Judged {
    /// They ask for something else, or are no request.
    Else,
    /// They may come to ask for a reload, or for metrics.
    More,
    /// They ask for a reload, with the operator's key or without it.
    Asks { with_key: bool },
    /// They ask for metrics, with the operator's key or without it.
    AsksMetrics { with_key: bool },
}

/// What is asked for here.
#[derive(Clone, Copy, Debug)]
enum Wish {
    Reload,
    Metrics,
}

/// Whether bytes begin with others.
fn begins_with(bytes: &[u8], front: &[u8]) -> bool
    ensures { IsTrue result ↔ BeginsWith bytes.now front.now }
{
    bytes.starts_with(front)
}

/// Whether bytes begin as this does, as far as they go.
fn may_ask(bytes: &[u8], front: &[u8]) -> bool
    ensures { IsTrue result ↔ MayAsk bytes.now front.now }
{
    if begins_with(bytes, front) {
        return true;
    }
    begins_with(front, bytes)
}

/// What bytes ask for, by how they begin, as far as they go.
fn wish_of(bytes: &[u8]) -> Option<Wish>
    ensures { IsWish bytes.now result }
{
    if may_ask(bytes, RELOAD_FRONT) {
        return Some(Wish::Reload);
    }
    if may_ask(bytes, METRICS_FRONT) {
        return Some(Wish::Metrics);
    }
    None
}

/// Whether the operator's key was sent.
fn has_key(sent: Option<&[u8]>, key: &OperatorKey) -> bool
    ensures { result ≡ option_map_or (λ text. is_key_of text key.now) (option_copied sent.entry) false }
{
    match sent {
        Some(text) => key.is(text),
        None => false,
    }
}

/// Whether a header has the operator's key behind `Bearer`.
fn bears_key(header: &[u8], key: &OperatorKey) -> bool
    ensures { result ≡ bears_key key.now header.now }
{
    match header.split_at_checked(BEARER.len()) {
        Some((scheme, text)) if scheme.eq_ignore_ascii_case(BEARER) => key.is(text),
        _ => false,
    }
}

/// Whether the operator's key was sent, as elsewhere or behind `Bearer`.
fn has_metrics_key(request: &Request<'_>, key: &OperatorKey) -> bool
    ensures { result ≡ has_metrics_key (asked_of request.entry.now) key.now }
{
    if has_key(request.operator_key, key) {
        return true;
    }
    match request.authorization {
        Some(header) => bears_key(header, key),
        None => false,
    }
}

/// What a whole request asks for, by how its bytes begin.
fn asks(wish: Wish, request: &Request<'_>, key: &OperatorKey) -> Judged
    ensures { result ≡ asks_for wish (asked_of request.entry.now) key.now }
{
    match wish {
        Wish::Reload => Judged::Asks {
            with_key: has_key(request.operator_key, key),
        },
        Wish::Metrics => Judged::AsksMetrics {
            with_key: has_metrics_key(request, key),
        },
    }
}

/// Judges the bytes with which a connection begins, or as many of them as are looked at.
pub fn judge(bytes: &[u8], key: &OperatorKey) -> Judged
    ensures { IsJudged bytes.now key.now result }
{
    let Some(wish) = wish_of(bytes) else {
        return Judged::Else;
    };
    match read_front(bytes) {
        Front::Whole(found) => asks(wish, &lend(bytes, &found), key),
        Front::More { waits: _ } => {
            if bytes.len() < PEEK_LIMIT {
                Judged::More
            } else {
                Judged::Else
            }
        }
        Front::Faulty => Judged::Else,
    }
}
