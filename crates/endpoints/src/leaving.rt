//! POST /owners/end.
ghost use Rattle.std.specs.Prelude.{◌≡◌, IfOk};
ghost use Rattle.messages.specs.Asked.{asked_of};
ghost use Rattle.answers.specs.Short.{IsShortAnswer};
ghost use Rattle.answers.specs.Told.{Decides, outcome_told};
ghost use Rattle.answers.specs.Views.{InEachSetting};
ghost use Rattle.endpoints.specs.OwnerPath.{end_owner, owner_asked, owner_ended};

use answers::{Answer, Decision, Halt, View, form, operator};
use clients::owner_number_in;
use consent::{Changes, OwnerNo};
use messages::{ErrorName, Request};
use params::Params;
use std::alloc::Global;

// The number of the owner that the form names.
fn owner_asked(params: &Params<'_>) -> Option<OwnerNo>
    ensures { result ≡ owner_asked params.now }
{
    let text = params.get("owner")?;
    owner_number_in(text.as_bytes())
}

// The owner withdraws its consent from each client.
fn ended<'c>(view: &View<'_>, owner: OwnerNo) -> Decision<'c>
    ensures told { InEachSetting view.now (λ s. outcome_told s result ≡ owner_ended s owner) }
    ensures short { IsShortAnswer result.answer }
{
    let clients = view.rules.client_count() as u32;
    Decision {
        answer: Answer::Ended {
            families: view.store.families_of(owner, view.moment),
            consents: view.consents.count_of(owner, clients),
        },
        changes: Changes::Left { owner, clients },
    }
}

/// Decides on the end of what an owner granted.
pub(crate) fn end_owner<'c>(
    alloc: Global,
    view: &View<'_>,
    request: &Request<'_>,
) -> Result<Decision<'c>, Halt>
    ensures decides { InEachSetting view.now (λ s. Decides s result (end_owner s (asked_of request.entry.now))) }
    ensures short { IfOk result (λ decision. IsShortAnswer decision.answer) }
{
    if let Err(halt) = operator(view.rules, request) {
        return Err(halt);
    }
    let params = match form(alloc, request) {
        Ok(params) => params,
        Err(halt) => return Err(halt),
    };
    match owner_asked(&params) {
        Some(owner) => Ok(ended(view, owner)),
        None => Err(Halt::Refuse(ErrorName::InvalidRequest)),
    }
}
