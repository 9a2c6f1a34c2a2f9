//! What is read of a request before it is decided on.
ghost use Rattle.std.specs.Prelude.{◌≡◌, ◌≤◌, IfErr, IfOk, length};
ghost use Rattle.messages.specs.Asked.{asked_of};
ghost use Rattle.answers.specs.Short.{state_limit};
ghost use Rattle.endpoints.specs.Reading.{EndsAt, IsRequestRead, IsShortReading, endpoint_of};

use crate::authorize::query;
use answers::{Document, Endpoint, Halt, form, operator};
use clients::Registry;
use messages::Request;
use params::Params;
use std::alloc::Global;

/// What a request asks, with the parameters that a decision on it borrows from.
#[derive(Drop)]
pub enum Reading<'a> {
    Authorize(Params<'a>),
    GiveConsent,
    IssueToken,
    RevokeToken,
    Introspect,
    InstallHook(Params<'a>),
    RemoveHook(Params<'a>),
    EndOwner,
    Read(Document),
}

/// Reads a request at its endpoint. Of a change of the hooks the operator's key is looked at first.
pub(crate) fn read<'a>(
    alloc: Global,
    rules: &Registry,
    endpoint: Endpoint,
    request: &Request<'a>,
) -> Result<Reading<'a>, Halt>
    ensures endpoint { IfOk result (λ reading. endpoint_of reading ≡ endpoint) }
    ensures read { IfOk result (IsRequestRead rules.now (asked_of request.entry.now)) }
    ensures ends { IfErr result (EndsAt endpoint rules.now (asked_of request.entry.now)) }
    ensures short { length request.entry.now.target.now ≤ state_limit → IfOk result IsShortReading }
{
    match endpoint {
        Endpoint::Authorize => Ok(Reading::Authorize(query(alloc, request)?)),
        Endpoint::GiveConsent => Ok(Reading::GiveConsent),
        Endpoint::IssueToken => Ok(Reading::IssueToken),
        Endpoint::RevokeToken => Ok(Reading::RevokeToken),
        Endpoint::Introspect => Ok(Reading::Introspect),
        Endpoint::InstallHook => {
            operator(rules, request)?;
            match query(alloc, request) {
                Ok(params) => Ok(Reading::InstallHook(params)),
                Err(halt) => Err(halt),
            }
        }
        Endpoint::RemoveHook => {
            operator(rules, request)?;
            match form(alloc, request) {
                Ok(params) => Ok(Reading::RemoveHook(params)),
                Err(halt) => Err(halt),
            }
        }
        Endpoint::EndOwner => Ok(Reading::EndOwner),
        Endpoint::Read(document) => Ok(Reading::Read(document)),
    }
}
