//! POST /token (RFC 6749, section 3.2).
ghost use Rattle.std.specs.Prelude.{IfOk};
ghost use Rattle.clients.specs.declared.grant.GrantType.{GrantType};
ghost use Rattle.messages.specs.Asked.{asked_of};
ghost use Rattle.answers.specs.Halts.{LeadsOrHalts};
ghost use Rattle.answers.specs.Outcomes.{Outcome};
ghost use Rattle.answers.specs.Short.{IsShortAnswer};
ghost use Rattle.answers.specs.Told.{DecidesAsking};
ghost use Rattle.answers.specs.Views.{known_of};
ghost use Rattle.token_endpoint.specs.Parts.{token_points, type_points};
ghost use Rattle.token_endpoint.specs.TokenPath.{issue_token};

use crate::credentials::client_credentials;
use crate::exchange::exchange;
use crate::refresh::refresh;
use answers::{Decision, Halt, KnownClient, View, authenticated_client, form};
use clients::{Client, GrantType};
use hook_host::HookHost;
use messages::{ErrorName, Request};
use params::Params;
use std::alloc::Global;

// The grant type, which the client may use.
fn grant_type(params: &Params<'_>, client: &Client) -> Result<GrantType, Halt>
    ensures { (next : GrantType → Outcome) → LeadsOrHalts result (type_points params.now client.now next) next }
{
    let Some(name) = params.get("grant_type") else {
        return Err(Halt::Refuse(ErrorName::InvalidRequest));
    };
    let Some(grant) = GrantType::named(name) else {
        return Err(Halt::Refuse(ErrorName::UnsupportedGrantType));
    };
    if !client.has_grant(grant) {
        return Err(Halt::Refuse(ErrorName::UnauthorizedClient));
    }
    Ok(grant)
}

// The points of the grant type, for the client.
fn decide_for<'c, H: HookHost>(
    view: &View<'_>,
    host: &H,
    params: &Params<'_>,
    known: &KnownClient<'_>,
) -> Result<Decision<'c>, Halt>
    ensures decides { DecidesAsking view.now (H.answer host.now) result (λ s. token_points s params.now (known_of known.now)) }
    ensures short { IfOk result (λ decision. IsShortAnswer decision.answer) }
{
    match grant_type(params, known.client)? {
        GrantType::AuthorizationCode => exchange(view, host, params, known),
        GrantType::RefreshToken => refresh(view, host, params, known),
        GrantType::ClientCredentials => client_credentials(view, host, params, known),
    }
}

/// Decides on a request for tokens, by reading alone.
pub fn decide<'c, H: HookHost>(
    alloc: Global,
    view: &View<'_>,
    host: &H,
    request: &Request<'_>,
) -> Result<Decision<'c>, Halt>
    ensures decides { DecidesAsking view.now (H.answer host.now) result (λ s. issue_token s (asked_of request.entry.now)) }
    ensures short { IfOk result (λ decision. IsShortAnswer decision.answer) }
{
    let params = form(alloc, request)?;
    let known = match authenticated_client(alloc, view.rules, request, &params) {
        Ok(known) => known,
        Err(halt) => return Err(halt),
    };
    decide_for(view, host, &params, &known)
}
