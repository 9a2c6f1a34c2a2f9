//! Where a reply sends the user agent (RFC 6749, section 4.1.2).
ghost use Rattle.std.specs.Prelude.{◌≡◌, ◌≤◌, ◌+◌, ◌*◌, [], ◌∷◌, IfOk, length, string_bytes, option_copied, unwrap_or};
ghost use Rattle.messages.specs.Reply.{state_pair};
ghost use Rattle.messages.specs.Written.{location_text};

use form_urlencoded::Serializer;
use std::alloc::{AllocError, Global};

// Room for what stands in a location beside the redirect URI and the pairs' values.
const REST: usize = 64;

// Room for a state, of which each byte may take three.
fn state_room(state: Option<&str>) -> usize
    ensures { result ≤ 3 * length (unwrap_or (option_copied state.entry) []) }
{
    match state {
        Some(state) => state.len().saturating_mul(3),
        None => 0,
    }
}

// Room for a location.
fn room_of(uri: &str, value: &str, state: Option<&str>) -> usize
    ensures { result ≤ length uri.now + length value.now + 3 * length (unwrap_or (option_copied state.entry) []) + 64 }
{
    let texts = uri.len().saturating_add(value.len());
    texts.saturating_add(state_room(state)).saturating_add(REST)
}

pub(crate) fn location_of(
    alloc: Global,
    uri: &str,
    name: &str,
    value: &str,
    state: Option<&str>,
) -> Result<String, AllocError>
    ensures { IfOk result (λ text. string_bytes text ≡ location_text
        (record { uri = uri.now; pairs = (name.now, value.now) ∷ state_pair (option_copied state.entry) })) }
{
    let mut text = String::with_capacity(alloc, room_of(uri, value, state))?;
    text.push_str(uri)?;
    text.push('?')?;
    let mut form = Serializer::for_suffix(text, uri.len() + 1);
    form.append_pair(name, value)?;
    if let Some(state) = state {
        form.append_pair("state", state)?;
    }
    Ok(form.finish())
}
