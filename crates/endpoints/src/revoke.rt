//! POST /revoke (RFC 7009, section 2).
ghost use Rattle.std.specs.Prelude.{◌≡◌, Option, IfOk};
ghost use Rattle.messages.specs.Asked.{asked_of};
ghost use Rattle.answers.specs.Halts.{LeadsOrHalts};
ghost use Rattle.answers.specs.Outcomes.{Outcome};
ghost use Rattle.answers.specs.Short.{IsShortAnswer};
ghost use Rattle.answers.specs.Told.{Decides};
ghost use Rattle.answers.specs.Views.{InEachSetting};
ghost use Rattle.endpoints.specs.declared.revoke.Presented.{Presented};
ghost use Rattle.endpoints.specs.Parts.{with_presented};
ghost use Rattle.endpoints.specs.Revoke.{revoke_token};

use answers::{Answer, Decision, Halt, View, authenticated_client, digest_told, form, live_token};
use clients::Registry;
use consent::{Change, Changes, ClientNo, Digest};
use messages::{ErrorName, Request};
use std::alloc::Global;

/// What is presented: the client that presents it, and the digest of the token that it may be.
#[derive(Clone, Copy)]
pub(crate) struct Presented {
    pub(crate) client: ClientNo,
    pub(crate) digest: Option<Digest>,
}

// The client is authenticated, and a token is named.
pub(crate) fn presented_by(
    alloc: Global,
    rules: &Registry,
    request: &Request<'_>,
) -> Result<Presented, Halt>
    ensures { (next : Presented → Outcome) → LeadsOrHalts result (with_presented rules.now (asked_of request.entry.now) next) next }
{
    let params = match form(alloc, request) {
        Ok(params) => params,
        Err(halt) => return Err(halt),
    };
    let known = match authenticated_client(alloc, rules, request, &params) {
        Ok(known) => known,
        Err(halt) => return Err(halt),
    };
    let Some(text) = params.get("token") else {
        return Err(Halt::Refuse(ErrorName::InvalidRequest));
    };
    Ok(Presented {
        client: known.number,
        digest: digest_told(text),
    })
}

/// Decides on a revocation: the client's own token is revoked, and its family with it.
pub(crate) fn revoke<'c>(
    alloc: Global,
    view: &View<'_>,
    request: &Request<'_>,
) -> Result<Decision<'c>, Halt>
    ensures decides { InEachSetting view.now (λ s. Decides s result (revoke_token s (asked_of request.entry.now))) }
    ensures short { IfOk result (λ decision. IsShortAnswer decision.answer) }
{
    let presented = match presented_by(alloc, view.rules, request) {
        Ok(presented) => presented,
        Err(halt) => return Err(halt),
    };
    let Some(digest) = presented.digest else {
        return Ok(done());
    };
    let Some(token) = live_token(view, &digest) else {
        return Ok(done());
    };
    if token.client != presented.client {
        return Err(Halt::Refuse(ErrorName::InvalidGrant));
    }
    Ok(Decision {
        answer: Answer::Done,
        changes: Changes::One(Change::FamilyEnded {
            family: token.family,
        }),
    })
}

// 200, with which nothing happens.
fn done<'c>() -> Decision<'c>
    ensures { result ≡ record { answer = Answer.Done; changes = Changes.Nothing } }
{
    Decision {
        answer: Answer::Done,
        changes: Changes::Nothing,
    }
}
