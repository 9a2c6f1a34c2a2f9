//! What is told of a server by reading alone.
ghost use Rattle.std.specs.Prelude.{IfOk};
ghost use Rattle.messages.specs.Asked.{asked_of};
ghost use Rattle.answers.specs.Setting.{situation_of};
ghost use Rattle.answers.specs.Short.{IsShortAnswer};
ghost use Rattle.answers.specs.Told.{Decides};
ghost use Rattle.answers.specs.Views.{InEachSetting};
ghost use Rattle.endpoints.specs.Documents.{document_at, document_outcome};

use answers::{Answer, Decision, Document, Halt, View, is_operator};
use consent::Changes;
use messages::{ErrorName, Request};

/// What each document says.
pub(crate) fn tell<'c>(
    view: &View<'_>,
    request: &Request<'_>,
    document: Document,
) -> Result<Decision<'c>, Halt>
    ensures decides { InEachSetting view.now (λ s. Decides s result
        (document_outcome (document_at document (situation_of s) (asked_of request.entry.now)))) }
    ensures short { IfOk result (λ decision. IsShortAnswer decision.answer) }
{
    match document {
        // GET /hooks/list.
        Document::Hooks if is_operator(view.rules, request) => Ok(Decision {
            answer: Answer::Hooks,
            changes: Changes::Nothing,
        }),
        Document::Hooks => Err(Halt::Refuse(ErrorName::AccessDenied)),
    }
}
