//! Redirect URIs (RFC 6749, section 3.1.2).

ghost use Rattle.std.specs.Prelude.{◌≡◌, ◌<◌, ◌≤◌, [], length, map, string_bytes, IfOk, IfErr};
ghost use Rattle.serde_json.specs.View.{view, items_view};
ghost use Rattle.clients.specs.Limits.{redirect_limit};
ghost use Rattle.registry_json.specs.Json.{text_of};
ghost use Rattle.registry_json.specs.Faults.{GivesUnless};
ghost use Rattle.registry_json.specs.FaultsParts.{seen_by};
ghost use Rattle.clients.specs.Redirect.{is_plain_web, is_redirect, redirect_of, redirects_after};
ghost use Rattle.registry_json.specs.declared.fault.Refusal.TheVariants as refusal;

use registry_json::fault::{ConfigFault, Refusal, located};
use registry_json::json::text;
use registry_json::spot::{ClientSpot, Spot};
use serde_json::Value;
use std::alloc::{AllocError, Global};
use url::{ParseError, Url};

const LONGEST_REDIRECT: usize = 2048;

fn is_plain_web(url: &Url) -> bool
    ensures { result ≡ is_plain_web url.now }
{
    matches!(url.scheme(), "http" | "https") && url.query().is_none() && url.fragment().is_none()
}

// Whether the text is a plain web URL in its own spelling.
fn is_redirect(alloc: Global, text: &str) -> Result<bool, AllocError>
    ensures ok { IfOk result (λ answer. answer ≡ is_redirect text.now) }
    ensures err { IfErr result (λ _. length text.now ≤ redirect_limit) }
{
    if text.len() > LONGEST_REDIRECT {
        return Ok(false);
    }
    match Url::parse(alloc, text) {
        Ok(url) => Ok(is_plain_web(&url) && url.as_str() == text),
        Err(ParseError::OutOfMemory | ParseError::Overflow) => Err(AllocError),
        Err(_) => Ok(false),
    }
}

// A redirect URI.
pub(crate) fn redirect(alloc: Global, value: &Value) -> Result<&str, ConfigFault>
    ensures { GivesUnless ConfigFault.Memory (IfOk (text_of (view value.now)) (λ text. length text ≤ redirect_limit)) (seen_by (λ s. s.now) result)
        (redirect_of (view value.now)) }
{
    let text = text(value)?;
    if is_redirect(alloc, text)? {
        Ok(text)
    } else {
        Err(ConfigFault::BadRedirect)
    }
}

// The redirect URIs of a list of the client's.
pub(crate) fn redirect_list(
    alloc: Global,
    client: usize,
    list: &[Value],
) -> Result<Vec<String>, Refusal>
    ensures { GivesUnless refusal.Memory (0 < length list.now) (seen_by (λ v. map string_bytes v.items) result)
        (redirects_after client [] (items_view list.now)) }
{
    let mut redirects = Vec::new(alloc);
    for value in list {
        let spot = Spot::Client(client, ClientSpot::Redirects(Some(redirects.len())));
        let redirect = located(spot, redirect(alloc, value))?;
        redirects.push(String::from_str(alloc, redirect)?)?;
    }
    Ok(redirects)
}
