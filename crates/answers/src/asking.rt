//! The points that read only the request and the registry.
ghost use Rattle.std.specs.Prelude.{◌≡◌, option_map};
ghost use Rattle.messages.specs.Asked.{asked_of};
ghost use Rattle.answers.specs.Halts.{LeadsOnWith, LeadsOrHalts};
ghost use Rattle.answers.specs.Outcomes.{Outcome};
ghost use Rattle.answers.specs.Requesters.{Parameters, with_form, with_credentials, client_named, is_operator, owner_of_key, scope_asked, scope_within, with_operator};
ghost use Rattle.answers.specs.Views.{known_of};

use crate::halt::Halt;
use crate::view::KnownClient;
use authentication::{AuthFault, authenticate};
use clients::{OwnerNo, Registry};
use consent::ScopeSet;
use messages::{ErrorName, Request};
use params::{ParamFault, Params};
use std::alloc::Global;

fn bad_request() -> Halt
    ensures { result ≡ Halt.Refuse ErrorName.InvalidRequest }
{
    Halt::Refuse(ErrorName::InvalidRequest)
}

/// The parameters of the body, which is a form.
pub fn form<'a>(alloc: Global, request: &Request<'a>) -> Result<Params<'a>, Halt>
    ensures { (next : Parameters → Outcome) → LeadsOrHalts result (with_form (asked_of request.entry.now) next) next }
{
    if !request.is_form() {
        return Err(bad_request());
    }
    match Params::read(alloc, request.body) {
        Ok(params) => Ok(params),
        Err(ParamFault::Memory) => Err(Halt::NoMemory),
        Err(_) => Err(bad_request()),
    }
}

/// The client that the request authenticates (RFC 6749, section 2.3.1).
pub fn authenticated_client<'r>(
    alloc: Global,
    rules: &'r Registry,
    request: &Request<'_>,
    params: &Params<'_>,
) -> Result<KnownClient<'r>, Halt>
    ensures { LeadsOnWith result (with_credentials rules.now (asked_of request.entry.now) params.now) known_of }
{
    match authenticate(alloc, rules, request.authorization, params) {
        Ok(number) => Ok(KnownClient {
            number,
            client: rules.client(number),
        }),
        Err(AuthFault::Memory) => Err(Halt::NoMemory),
        Err(AuthFault::TwoMethods) => Err(bad_request()),
        Err(_) => Err(Halt::Refuse(ErrorName::InvalidClient)),
    }
}

/// The client that the parameter `client_id` names.
pub fn named_client<'r>(rules: &'r Registry, params: &Params<'_>) -> Option<KnownClient<'r>>
    ensures { option_map known_of result ≡ client_named rules.now params.now }
{
    let id = params.get("client_id")?;
    let number = rules.client_no(id)?;
    Some(KnownClient {
        number,
        client: rules.client(number),
    })
}

/// The owner for whom the request speaks: by its own key, or by the gateway's with its number.
pub fn owner(rules: &Registry, request: &Request<'_>) -> Option<OwnerNo>
    ensures { result ≡ owner_of_key rules.now (asked_of request.entry.now) }
{
    let key = request.owner_key?;
    rules.owner_no(key)
}

/// Whether the operator's key was sent.
pub fn is_operator(rules: &Registry, request: &Request<'_>) -> bool
    ensures { result ≡ is_operator rules.now (asked_of request.entry.now) }
{
    match request.operator_key {
        Some(key) => rules.is_operator(key),
        None => false,
    }
}

/// The operator's key was sent.
pub fn operator(rules: &Registry, request: &Request<'_>) -> Result<(), Halt>
    ensures { (next : Outcome) →
        LeadsOrHalts result (with_operator rules.now (asked_of request.entry.now) next) (λ _. next) }
{
    if is_operator(rules, request) {
        Ok(())
    } else {
        Err(Halt::Refuse(ErrorName::AccessDenied))
    }
}

/// The scope that is asked for, and this one where none is. None: the text is no scope text (RFC 6749, section 3.3).
pub fn scope(rules: &Registry, otherwise: ScopeSet, params: &Params<'_>) -> Option<ScopeSet>
    ensures { result ≡ scope_asked rules.now otherwise params.now }
{
    match params.get("scope") {
        None => Some(otherwise),
        Some(text) => rules.catalogue().scope_mask(text),
    }
}

/// The scope that is asked for, which is within the limit, and the limit where none is asked for.
pub fn scope_within(rules: &Registry, limit: ScopeSet, params: &Params<'_>) -> Option<ScopeSet>
    ensures { result ≡ scope_within rules.now limit params.now }
{
    let scope = scope(rules, limit, params)?;
    if scope.is_within(limit) {
        Some(scope)
    } else {
        None
    }
}
