//! What is told of a request at an endpoint.
ghost use Rattle.std.specs.Prelude.{◌≡◌, ℕ, List, IfOk};
ghost use Rattle.answers.specs.Outcomes.{refuse};
ghost use Rattle.answers.specs.Views.{InEachSetting};
ghost use Rattle.clients.specs.RegistryRecord.{RegistryRecord};
ghost use Rattle.messages.specs.Asked.{asked_of};
ghost use Rattle.messages.specs.Reply.{plain};
ghost use Rattle.messages.specs.Reply.Body.{Empty};
ghost use Rattle.messages.specs.Written.{in_writing};
ghost use Rattle.telling.specs.Interests.{wanted_of};
ghost use Rattle.telling.specs.Sought.{told_sought, upshot_of};
ghost use Rattle.telling.specs.Telling.{bare_told, outcome_so, shown_of};

use crate::came::{Came, came_of, came_refused};
use crate::changed::{Changed, NOTHING, what_changed};
use crate::facts::shown_of;
use crate::interest::Interest;
use crate::told::{Told, bare, told_with};
use answers::{Answer, Endpoint, View};
use consent::{Changes, Moment};
use hook_host::HookHost;
use http::StatusCode;
use messages::{ErrorName, Request, Response};
use std::alloc::{AllocError, Global};

/// What came of a request: what is told of its reply, and what happened.
#[derive(Clone, Copy)]
pub struct Upshot {
    came: Came,
    happened: Changed,
}

impl Upshot {
    /// It was answered, and the changes are made.
    pub fn of(answer: &Answer<'_>, changes: &Changes<'_>) -> Upshot
        ensures { (rules : RegistryRecord) (names : List (List ℕ)) →
            result ≡ upshot_of (outcome_so rules names answer.now changes.now) }
    {
        Upshot {
            came: came_of(answer),
            happened: what_changed(changes),
        }
    }

    /// It was refused for an error.
    pub fn refused(error: ErrorName) -> Upshot
        ensures { result ≡ upshot_of (refuse error) }
    {
        Upshot {
            came: came_refused(error),
            happened: NOTHING,
        }
    }
}

/// What is told of a request at the endpoint, where that is wanted, by what came of it.
pub fn told_sought<H: HookHost>(
    interest: Interest,
    alloc: Global,
    view: &View<'_>,
    host: &H,
    endpoint: Endpoint,
    request: &Request<'_>,
    upshot: Upshot,
) -> Result<Option<Told>, AllocError>
    ensures { IfOk result (λ told. InEachSetting view.now (λ s. told ≡ told_sought interest view.now.moment endpoint
        (shown_of (H.verdicts host.now) s endpoint (asked_of request.entry.now)) upshot)) }
{
    let Upshot { came, happened } = upshot;
    if !interest.is_sought(endpoint, came.error) {
        return Ok(None);
    }
    let facts = shown_of(alloc, view, host, endpoint, request)?;
    Ok(interest.wanted_of(told_with(view.moment, endpoint, facts, came, happened)))
}

/// A reply, and what is told of its request, where that is wanted.
#[derive(Drop)]
pub struct Stepped {
    pub reply: Response,
    pub told: Option<Told>,
}

impl Stepped {
    /// A status and nothing else, of which no more is told than where the request came.
    pub fn bare(
        alloc: Global,
        interest: Interest,
        moment: Moment,
        endpoint: Option<Endpoint>,
        status: StatusCode,
    ) -> Stepped
        ensures reply { result.reply ≡ in_writing (plain status Empty) }
        ensures told { result.told ≡ wanted_of interest (bare_told moment endpoint status) }
    {
        Stepped {
            reply: Response::bare(status),
            told: interest.wanted_of(bare(alloc, moment, endpoint, status)),
        }
    }
}
