//! What is told of a reply.
ghost use Rattle.std.specs.Prelude.{◌≡◌, ℕ, List};
ghost use Rattle.answers.specs.Outcomes.{refuse};
ghost use Rattle.answers.specs.Replies.{reply_of};
ghost use Rattle.clients.specs.RegistryRecord.{RegistryRecord};
ghost use Rattle.telling.specs.Telling.{came_of, error_in};

use answers::{Answer, status_of};
use http::StatusCode;
use messages::ErrorName;

/// The status of a reply, and the error that it names, also in a redirection.
#[derive(Clone, Copy)]
pub(crate) struct Came {
    pub(crate) status: StatusCode,
    pub(crate) error: Option<ErrorName>,
}

// The error that the reply to an answer names.
fn error_of(answer: &Answer<'_>) -> Option<ErrorName>
    ensures { (rules : RegistryRecord) (names : List (List ℕ)) → result ≡ error_in (reply_of rules names answer.now) }
{
    match answer {
        Answer::Failure(error) | Answer::Denied(error) => Some(*error),
        Answer::TurnedBack { error, .. } => Some(*error),
        _ => None,
    }
}

// The status of the reply to an answer.
fn status_of_answer(answer: &Answer<'_>) -> StatusCode
    ensures { (rules : RegistryRecord) (names : List (List ℕ)) → result ≡ (reply_of rules names answer.now).status }
{
    match answer {
        Answer::Failure(error) | Answer::Denied(error) => status_of(*error),
        Answer::Unavailable(_) => StatusCode::SERVICE_UNAVAILABLE,
        Answer::CodeSent { .. } | Answer::TurnedBack { .. } => StatusCode::FOUND,
        Answer::HookRefused(_) => StatusCode::BAD_REQUEST,
        Answer::Done
        | Answer::Access { .. }
        | Answer::Both { .. }
        | Answer::Consented { .. }
        | Answer::Active { .. }
        | Answer::Inactive
        | Answer::HookDone { .. }
        | Answer::Hooks
        | Answer::Ended { .. } => StatusCode::OK,
    }
}

/// What is told of the reply to an answer.
pub(crate) fn came_of(answer: &Answer<'_>) -> Came
    ensures { (rules : RegistryRecord) (names : List (List ℕ)) → result ≡ came_of (reply_of rules names answer.now) }
{
    Came {
        status: status_of_answer(answer),
        error: error_of(answer),
    }
}

/// What is told of the reply that refuses a request for an error.
pub(crate) fn came_refused(error: ErrorName) -> Came
    ensures { result ≡ came_of (refuse error).reply }
{
    Came {
        status: status_of(error),
        error: Some(error),
    }
}
