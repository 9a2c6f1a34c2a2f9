//! What a request shows by itself.
ghost use Rattle.std.specs.Prelude.{◌≡◌, IfOk, option_map};
ghost use Rattle.std.specs.Result.{result_ok};
ghost use Rattle.answers.specs.Requesters.{form_of};
ghost use Rattle.answers.specs.Views.{InEachSetting, known_of};
ghost use Rattle.messages.specs.Asked.{asked_of};
ghost use Rattle.telling.specs.Seen.{facts_seen};
ghost use Rattle.params.specs.Form.{read_params};
ghost use Rattle.telling.specs.Telling.{ask_shown, client_at_endpoint, client_shown, grant_at_endpoint, lineage_at, nobody_shown, owner_asking, params_at, revoked_lineage, shown_alone, shown_by, shown_of, verdicts_on};
ghost use Rattle.token_endpoint.specs.AsksParts.{lineage_seen};

use answers::{Endpoint, KnownClient, View, digest_told, live_token, named_client, owner};
use authentication::{AuthFault, authenticate};
use clients::{ClientNo, GrantType, Registry};
use consent::OwnerNo;
use hook_host::{HookHost, Verdicts};
use hook_record::Ask;
use messages::Request;
use params::{ParamFault, Params};
use std::alloc::{AllocError, Global};
use token_endpoint::{Lineage, ask_by_grant, grant_asked, presented};

/// What a request shows by itself: the client, the grant type that it asks for, where what it presents comes from, the owner
/// who asks, what the host is asked, and what each hook leaves of that.
#[derive(Drop)]
pub struct Facts {
    pub client: Option<ClientNo>,
    pub grant: Option<GrantType>,
    pub lineage: Option<Lineage>,
    pub owner: Option<OwnerNo>,
    pub ask: Option<Ask>,
    pub verdicts: Verdicts,
}

// Parameters that can be read.
fn read_params<'a>(alloc: Global, input: &'a [u8]) -> Result<Option<Params<'a>>, AllocError>
    ensures { IfOk result (λ params. params ≡ result_ok (read_params input.now)) }
{
    match Params::read(alloc, input) {
        Ok(params) => Ok(Some(params)),
        Err(ParamFault::Memory) => Err(AllocError),
        Err(_) => Ok(None),
    }
}

// The parameters of the body, where it is a form.
fn form<'a>(alloc: Global, request: &Request<'a>) -> Result<Option<Params<'a>>, AllocError>
    ensures { IfOk result (λ params. params ≡ form_of (asked_of request.entry.now)) }
{
    if request.is_form() {
        read_params(alloc, request.body)
    } else {
        Ok(None)
    }
}

// The parameters that tell who asks, where the endpoint has some.
fn params_at<'a>(
    alloc: Global,
    endpoint: Endpoint,
    request: &Request<'a>,
) -> Result<Option<Params<'a>>, AllocError>
    ensures { IfOk result (λ params. params ≡ params_at endpoint (asked_of request.entry.now)) }
{
    match endpoint {
        Endpoint::Authorize => read_params(alloc, request.query()),
        Endpoint::GiveConsent
        | Endpoint::IssueToken
        | Endpoint::RevokeToken
        | Endpoint::Introspect => form(alloc, request),
        Endpoint::InstallHook | Endpoint::RemoveHook | Endpoint::EndOwner | Endpoint::Read(_) => Ok(
            None,
        ),
    }
}

// The client that is authenticated.
fn client_shown<'r>(
    alloc: Global,
    rules: &'r Registry,
    request: &Request<'_>,
    params: &Params<'_>,
) -> Result<Option<KnownClient<'r>>, AllocError>
    ensures { IfOk result (λ known. option_map known_of known ≡ client_shown rules.now (asked_of request.entry.now) params.now) }
{
    match authenticate(alloc, rules, request.authorization, params) {
        Ok(number) => Ok(Some(KnownClient {
            number,
            client: rules.client(number),
        })),
        Err(AuthFault::Memory) => Err(AllocError),
        Err(_) => Ok(None),
    }
}

// The client that asks, or the one that is asked for.
fn client_at<'r>(
    alloc: Global,
    rules: &'r Registry,
    endpoint: Endpoint,
    request: &Request<'_>,
    params: &Params<'_>,
) -> Result<Option<KnownClient<'r>>, AllocError>
    ensures { IfOk result (λ known. option_map known_of known
        ≡ client_at_endpoint endpoint rules.now (asked_of request.entry.now) params.now) }
{
    match endpoint {
        Endpoint::Authorize | Endpoint::GiveConsent => Ok(named_client(rules, params)),
        Endpoint::IssueToken | Endpoint::RevokeToken | Endpoint::Introspect => {
            client_shown(alloc, rules, request, params)
        }
        Endpoint::InstallHook | Endpoint::RemoveHook | Endpoint::EndOwner | Endpoint::Read(_) => Ok(
            None,
        ),
    }
}

// The owner who asks.
fn owner_asking(rules: &Registry, endpoint: Endpoint, request: &Request<'_>) -> Option<OwnerNo>
    ensures { result ≡ owner_asking rules.now endpoint (asked_of request.entry.now) }
{
    match endpoint {
        Endpoint::Authorize | Endpoint::GiveConsent => owner(rules, request),
        _ => None,
    }
}

// The grant type that the client asks for at /token.
fn grant_at(endpoint: Endpoint, params: &Params<'_>, known: &KnownClient<'_>) -> Option<GrantType>
    ensures { result ≡ grant_at_endpoint endpoint params.now (known_of known.now) }
{
    match endpoint {
        Endpoint::IssueToken => grant_asked(params, known.client),
        _ => None,
    }
}

// Where the client's own live token comes from that it wants revoked.
fn revoked(view: &View<'_>, params: &Params<'_>, client: ClientNo) -> Option<Lineage>
    ensures { InEachSetting view.now (λ s. option_map lineage_seen result ≡ revoked_lineage s params.now client) }
{
    let Some(text) = params.get("token") else {
        return None;
    };
    let Some(digest) = digest_told(text) else {
        return None;
    };
    let Some(token) = live_token(view, &digest) else {
        return None;
    };
    if token.client != client {
        return None;
    }
    Some(Lineage {
        family: token.family,
        owner: token.owner,
    })
}

// Where what is presented comes from.
fn lineage_at(
    endpoint: Endpoint,
    view: &View<'_>,
    grant: Option<GrantType>,
    params: &Params<'_>,
    client: ClientNo,
) -> Option<Lineage>
    ensures { InEachSetting view.now (λ s. option_map lineage_seen result ≡ lineage_at endpoint s grant params.now client) }
{
    match endpoint {
        Endpoint::IssueToken => presented(grant?, view, params, client),
        Endpoint::RevokeToken => revoked(view, params, client),
        _ => None,
    }
}

// What the host is asked, by the grant type.
fn ask_shown(
    view: &View<'_>,
    grant: Option<GrantType>,
    params: &Params<'_>,
    known: &KnownClient<'_>,
) -> Option<Ask>
    ensures { InEachSetting view.now (λ s. result ≡ ask_shown s grant params.now (known_of known.now)) }
{
    ask_by_grant(grant?, view, params, known)
}

// What each hook leaves of what is asked.
fn verdicts_on<H: HookHost>(
    alloc: Global,
    host: &H,
    ask: Option<Ask>,
) -> Result<Verdicts, AllocError>
    ensures { IfOk result (λ told. told ≡ verdicts_on (H.verdicts host.now) ask) }
{
    match ask {
        Some(ask) => host.explain(alloc, &ask),
        None => Ok(Verdicts::none(alloc)),
    }
}

// What the request of a client shows.
#[tactic(auto, using(crate::proofs::Showing::shown_is))]
fn shown_by<H: HookHost>(
    alloc: Global,
    view: &View<'_>,
    host: &H,
    endpoint: Endpoint,
    params: &Params<'_>,
    known: &KnownClient<'_>,
) -> Result<Facts, AllocError>
    ensures { IfOk result (λ facts. InEachSetting view.now (λ s. facts_seen facts
        ≡ shown_by (H.verdicts host.now) s endpoint params.now (known_of known.now))) }
{
    let grant = grant_at(endpoint, params, known);
    let ask = ask_shown(view, grant, params, known);
    Ok(Facts {
        client: Some(known.number),
        grant,
        lineage: lineage_at(endpoint, view, grant, params, known.number),
        owner: None,
        ask,
        verdicts: verdicts_on(alloc, host, ask)?,
    })
}

// What one shows of whom no client is known.
fn nobody(alloc: Global) -> Facts
    ensures { facts_seen result ≡ nobody_shown }
{
    Facts {
        client: None,
        grant: None,
        lineage: None,
        owner: None,
        ask: None,
        verdicts: Verdicts::none(alloc),
    }
}

// What a request shows, but for the owner who asks.
#[tactic(auto, using(crate::proofs::Showing::without_params, crate::proofs::Showing::without_client, crate::proofs::Showing::with_client))]
fn client_facts<H: HookHost>(
    alloc: Global,
    view: &View<'_>,
    host: &H,
    endpoint: Endpoint,
    request: &Request<'_>,
) -> Result<Facts, AllocError>
    ensures { IfOk result (λ facts. InEachSetting view.now (λ s. facts_seen facts
        ≡ shown_alone (H.verdicts host.now) s endpoint (asked_of request.entry.now))) }
{
    let params = match params_at(alloc, endpoint, request) {
        Ok(Some(params)) => params,
        Ok(None) => return Ok(nobody(alloc)),
        Err(error) => return Err(error),
    };
    match client_at(alloc, view.rules, endpoint, request, &params) {
        Ok(Some(known)) => shown_by(alloc, view, host, endpoint, &params, &known),
        Ok(None) => Ok(nobody(alloc)),
        Err(error) => Err(error),
    }
}

/// What a request at an endpoint shows by itself, before anything is made of it.
#[tactic(auto, using(crate::proofs::Showing::with_asking))]
pub(crate) fn shown_of<H: HookHost>(
    alloc: Global,
    view: &View<'_>,
    host: &H,
    endpoint: Endpoint,
    request: &Request<'_>,
) -> Result<Facts, AllocError>
    ensures { IfOk result (λ facts. InEachSetting view.now (λ s. facts_seen facts
        ≡ shown_of (H.verdicts host.now) s endpoint (asked_of request.entry.now))) }
{
    let Facts {
        client,
        grant,
        lineage,
        owner: _,
        ask,
        verdicts,
    } = client_facts(alloc, view, host, endpoint, request)?;
    Ok(Facts {
        client,
        grant,
        lineage,
        owner: owner_asking(view.rules, endpoint, request),
        ask,
        verdicts,
    })
}
