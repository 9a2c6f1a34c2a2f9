//! POST /consent.
ghost use Rattle.std.specs.Prelude.{IfOk};
ghost use Rattle.messages.specs.Asked.{asked_of};
ghost use Rattle.answers.specs.Short.{IsShortAnswer};
ghost use Rattle.answers.specs.Told.{Decides};
ghost use Rattle.answers.specs.Views.{InEachSetting};
ghost use Rattle.endpoints.specs.ConsentPath.{give_consent};
ghost use Rattle.endpoints.specs.Parts.{DecidesConsent};

use answers::{Answer, Decision, Halt, View, Want, form, named_client, owner, scope};
use consent::{Change, Changes, ClientNo, OwnerNo, ScopeSet};
use messages::{ErrorName, Request};
use params::Params;
use std::alloc::Global;

/// What an owner consents to a client's having.
#[derive(Clone, Copy)]
pub(crate) struct NewConsent {
    pub(crate) owner: OwnerNo,
    pub(crate) client: ClientNo,
    pub(crate) mask: ScopeSet,
}

// The owner, the client and what the one consents to the other's having.
fn consented(
    view: &View<'_>,
    request: &Request<'_>,
    params: &Params<'_>,
) -> Result<NewConsent, Halt>
    ensures { InEachSetting view.now (λ s. DecidesConsent s (asked_of request.entry.now) params.now result) }
{
    let Some(owner) = owner(view.rules, request) else {
        return Err(Halt::Refuse(ErrorName::AccessDenied));
    };
    let Some(known) = named_client(view.rules, params) else {
        return Err(Halt::Refuse(ErrorName::InvalidRequest));
    };
    let Some(mask) = scope(view.rules, ScopeSet::empty(), params) else {
        return Err(Halt::Refuse(ErrorName::InvalidScope));
    };
    Ok(NewConsent {
        owner,
        client: known.number,
        mask,
    })
}

/// Decides on a consent. What it is too small for ends with it.
pub(crate) fn consent<'c>(
    alloc: Global,
    view: &View<'_>,
    request: &Request<'_>,
) -> Result<Decision<'c>, Halt>
    ensures decides { InEachSetting view.now (λ s. Decides s result (give_consent s (asked_of request.entry.now))) }
    ensures short { IfOk result (λ decision. IsShortAnswer decision.answer) }
{
    let params = match form(alloc, request) {
        Ok(params) => params,
        Err(halt) => return Err(halt),
    };
    let NewConsent {
        owner,
        client,
        mask,
    } = match consented(view, request, &params) {
        Ok(new) => new,
        Err(halt) => return Err(halt),
    };
    let limit = view.rules.limits().consents;
    if !view.consents.has_room(limit, owner, client, mask) {
        return Ok(Decision::unavailable(Want::ConsentRoom));
    }
    Ok(Decision {
        answer: Answer::Consented { mask },
        changes: Changes::One(Change::Consented {
            owner,
            client,
            mask,
        }),
    })
}
