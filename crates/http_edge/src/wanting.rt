//! Which requests want draws.
ghost use Rattle.std.specs.Prelude.{◌≡◌, false};
ghost use Rattle.messages.specs.Asked.{Asked, asked_of};
ghost use Rattle.http_edge.specs.Sources.{demand_of, wants_draws};
ghost use Rattle.http_edge.specs.Unread.{AreDrawsUnread};

use crate::source::Demand;
use hook_host::HookHost;
use messages::Request;

// Whether a request may give a code or tokens.
fn wants_draws(request: &Request<'_>) -> bool
    ensures { result ≡ wants_draws (asked_of request.now) }
{
    match request.method {
        b"GET" => request.path() == b"/authorize".as_slice(),
        b"POST" => request.path() == b"/token".as_slice(),
        _ => false,
    }
}

/// What a request demands of its source.
pub(crate) fn demand_of(request: &Request<'_>) -> Demand
    ensures { result ≡ demand_of (asked_of request.now) }
{
    if wants_draws(request) {
        Demand::Fresh
    } else {
        Demand::Nothing
    }
}

/// What comes of a request that wants no draws comes of it with any others.
pub fn unwanted_draws_are_unread<H: HookHost>()
    ensures { (asked : Asked) → wants_draws asked ≡ false → AreDrawsUnread H.HookHost asked }
{}
