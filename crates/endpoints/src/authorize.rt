//! GET /authorize (RFC 6749, section 4.1.1; RFC 7636, section 4.3).
ghost use Rattle.std.specs.Prelude.{◌≡◌, ◌≤◌, IfOk, length, option_copied};
ghost use Rattle.clients.specs.Limits.{redirect_limit};
ghost use Rattle.messages.specs.Asked.{asked_of};
ghost use Rattle.answers.specs.Halts.{LeadsOnWith, LeadsOrHalts};
ghost use Rattle.answers.specs.Outcomes.{Outcome};
ghost use Rattle.answers.specs.Requesters as asked;
ghost use Rattle.answers.specs.Requesters.{Parameters};
ghost use Rattle.answers.specs.Short.{IsShortAnswer, state_limit};
ghost use Rattle.answers.specs.Told.{Decides, outcome_told};
ghost use Rattle.answers.specs.Views.{InEachSetting};
ghost use Rattle.endpoints.specs.Authorize.{HasShortState, challenge_sent, with_query};
ghost use Rattle.endpoints.specs.Parts.{DecidesCode, code_by, known_points, known_with, query_points};

use answers::{Answer, Decision, Halt, KnownClient, View, Want, named_client, owner, scope_within};
use clients::{GrantType, Registry};
use consent::{Change, Changes, CodeFacts};
use messages::{ErrorName, Request};
use params::{ParamFault, Params};
use pkce::{challenge_ok, digest_of};
use std::alloc::Global;

/// A client, and the one of its redirect URIs that was sent.
#[derive(Clone, Copy)]
pub(crate) struct Requester<'r, 'p> {
    pub(crate) known: KnownClient<'r>,
    pub(crate) redirect: &'p str,
}

/// The parameters of the query.
pub(crate) fn query<'a>(alloc: Global, request: &Request<'a>) -> Result<Params<'a>, Halt>
    ensures leads { (next : Parameters → Outcome) → LeadsOrHalts result (with_query (asked_of request.entry.now) next) next }
    ensures short { length request.entry.now.target.now ≤ state_limit → IfOk result HasShortState }
{
    match Params::read(alloc, request.query()) {
        Ok(params) => Ok(params),
        Err(ParamFault::Memory) => Err(Halt::NoMemory),
        Err(_) => Err(Halt::Refuse(ErrorName::InvalidRequest)),
    }
}

// The client and its redirect URI, without which nobody is sent anywhere.
fn known<'r, 'p>(rules: &'r Registry, params: &'p Params<'_>) -> Result<Requester<'r, 'p>, Halt>
    ensures leads { LeadsOnWith result (known_points rules.now params.now) known_with }
    ensures short { IfOk result (λ requester. length requester.redirect.now ≤ redirect_limit) }
{
    let Some(known) = named_client(rules, params) else {
        return Err(Halt::Refuse(ErrorName::InvalidRequest));
    };
    let Some(redirect) = params.get("redirect_uri") else {
        return Err(Halt::Refuse(ErrorName::InvalidRequest));
    };
    if !known.client.has_redirect(redirect) {
        return Err(Halt::Refuse(ErrorName::InvalidRequest));
    }
    Ok(Requester { known, redirect })
}

// The challenge, where its method is S256 (RFC 7636, section 4.3).
fn challenge<'p>(params: &'p Params<'_>) -> Option<&'p str>
    ensures { option_copied result ≡ challenge_sent params.now }
{
    let method = params.get("code_challenge_method")?;
    let challenge = params.get("code_challenge")?;
    if method == "S256" && challenge_ok(challenge) {
        Some(challenge)
    } else {
        None
    }
}

// What a code is to be given for, or the error that the user agent is sent back with.
fn code_facts<'p>(
    view: &View<'_>,
    request: &Request<'_>,
    params: &'p Params<'_>,
    requester: &Requester<'_, 'p>,
) -> Result<CodeFacts<'p>, ErrorName>
    ensures decides { InEachSetting view.now (λ s. DecidesCode s (asked_of request.entry.now) params.now requester.entry.now result) }
    ensures there { IfOk result (λ facts. facts.redirect ≡ requester.entry.now.redirect) }
{
    let client = requester.known.client;
    let number = requester.known.number;
    let wanted = params
        .get("response_type")
        .ok_or(ErrorName::InvalidRequest)?;
    if wanted != "code" {
        return Err(ErrorName::UnsupportedResponseType);
    }
    if !client.has_grant(GrantType::AuthorizationCode) {
        return Err(ErrorName::UnauthorizedClient);
    }
    let challenge = challenge(params).ok_or(ErrorName::InvalidRequest)?;
    let scope = scope_within(view.rules, client.allowed(), params).ok_or(ErrorName::InvalidScope)?;
    let owner = owner(view.rules, request).ok_or(ErrorName::AccessDenied)?;
    if !scope.is_within(view.consents.get(owner, number)) {
        return Err(ErrorName::AccessDenied);
    }
    Ok(CodeFacts {
        client: number,
        owner,
        scope,
        redirect: requester.redirect,
        challenge,
    })
}

// The user agent is sent back with a code (RFC 6749, section 4.1.2).
fn give_code<'p>(view: &View<'_>, params: &'p Params<'_>, facts: &CodeFacts<'p>) -> Decision<'p>
    ensures told { InEachSetting view.now (λ s. outcome_told s result ≡ code_by s params.now facts.entry.now) }
    ensures short { length facts.entry.now.redirect.now ≤ redirect_limit → HasShortState params.now → IsShortAnswer result.answer }
{
    let Some(family) = view.next_family() else {
        return Decision::unavailable(Want::StoreRoom);
    };
    let draw = view.draws.first;
    let digest = digest_of(&draw);
    if !view.is_free(facts.client, &[digest]) {
        return Decision::unavailable(view.want(facts.client, &[digest]));
    }
    Decision {
        answer: Answer::CodeSent {
            uri: facts.redirect,
            draw,
            state: params.get("state"),
        },
        changes: Changes::One(Change::CodeGiven {
            family,
            facts: CodeFacts {
                client: facts.client,
                owner: facts.owner,
                scope: facts.scope,
                redirect: facts.redirect,
                challenge: facts.challenge,
            },
            digest,
        }),
    }
}

/// Decides on a code, by the parameters of the query.
pub(crate) fn authorize<'p>(
    view: &View<'_>,
    request: &Request<'_>,
    params: &'p Params<'_>,
) -> Result<Decision<'p>, Halt>
    ensures decides { InEachSetting view.now (λ s. Decides s result (query_points s (asked_of request.entry.now) params.now)) }
    ensures short { HasShortState params.now → IfOk result (λ decision. IsShortAnswer decision.answer) }
{
    let requester = match known(view.rules, params) {
        Ok(requester) => requester,
        Err(halt) => return Err(halt),
    };
    match code_facts(view, request, params, &requester) {
        Ok(facts) => Ok(give_code(view, params, &facts)),
        Err(error) => Ok(Decision {
            answer: Answer::TurnedBack {
                uri: requester.redirect,
                error,
                state: params.get("state"),
            },
            changes: Changes::Nothing,
        }),
    }
}
