//! POST /introspect (RFC 7662, section 2).
ghost use Rattle.std.specs.Prelude.{◌≡◌, IfOk};
ghost use Rattle.messages.specs.Asked.{asked_of};
ghost use Rattle.answers.specs.Short.{IsShortAnswer};
ghost use Rattle.answers.specs.Told.{Decides};
ghost use Rattle.answers.specs.Views.{InEachSetting};
ghost use Rattle.endpoints.specs.Introspect.{introspect};

use crate::revoke::presented_by;
use answers::{Answer, Decision, Halt, View, live_token};
use consent::{Changes, Kind};
use messages::Request;
use std::alloc::Global;

// No live token was presented.
fn inactive<'c>() -> Decision<'c>
    ensures { result ≡ record { answer = Answer.Inactive; changes = Changes.Nothing } }
{
    Decision {
        answer: Answer::Inactive,
        changes: Changes::Nothing,
    }
}

/// Tells of a token: any client may ask of any.
pub(crate) fn introspect<'c>(
    alloc: Global,
    view: &View<'_>,
    request: &Request<'_>,
) -> Result<Decision<'c>, Halt>
    ensures decides { InEachSetting view.now (λ s. Decides s result (introspect s (asked_of request.entry.now))) }
    ensures short { IfOk result (λ decision. IsShortAnswer decision.answer) }
{
    let presented = match presented_by(alloc, view.rules, request) {
        Ok(presented) => presented,
        Err(halt) => return Err(halt),
    };
    let Some(digest) = presented.digest else {
        return Ok(inactive());
    };
    let Some(token) = live_token(view, &digest) else {
        return Ok(inactive());
    };
    let Kind::Token(kind) = token.kind else {
        return Ok(inactive());
    };
    let issued = token.moment.get();
    Ok(Decision {
        answer: Answer::Active {
            client: token.client,
            issued,
            expires: issued + u64::from(token.life),
            scope: token.scope,
            owner: token.owner,
            kind,
        },
        changes: Changes::Nothing,
    })
}
