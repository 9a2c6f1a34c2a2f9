//! POST /token with grant_type authorization_code (RFC 6749, section 4.1.3).
ghost use Rattle.std.specs.Prelude.{◌≡◌, List, IfSome, Ok, IfOk};
ghost use Rattle.consent.specs.History.{Event};
ghost use Rattle.answers.specs.Found.{IsFound};
ghost use Rattle.answers.specs.Short.{IsShortAnswer};
ghost use Rattle.answers.specs.Told.{DecidesAsking};
ghost use Rattle.answers.specs.ToldParts.{DecidesOf};
ghost use Rattle.answers.specs.Views.{Finds, Shows, known_of};
ghost use Rattle.token_endpoint.specs.Exchange.{exchange};
ghost use Rattle.token_endpoint.specs.Parts.{exchange_at, exchanged_by, told_code};

use crate::granting::{Wish, access_for, ask_for, both_for, ending};
use answers::{Answer, Decision, Halt, KnownClient, View, digest_told};
use clients::{ClientNo, GrantType};
use consent::{Change, Changes, Digest, Kind, ScopeSet};
use hook_host::{HookHost, decided};
use hook_record::Narrowed;
use messages::ErrorName;
use params::Params;
use pkce::matches;
use token_store::Found;

/// What is sent for a code: its digest, the redirect URI and the code verifier.
#[derive(Clone, Copy)]
pub(crate) struct Presented<'a> {
    pub(crate) digest: Digest,
    pub(crate) uri: &'a str,
    pub(crate) verifier: &'a str,
}

// The unexpired code of the digest, spent or not, which is the client's.
pub(crate) fn own_code<'a>(view: &View<'a>, client: ClientNo, digest: &Digest) -> Option<Found<'a>>
    ensures value { Finds view.now digest.now result (λ history. told_code history view.now.moment client digest.now) }
    ensures found { (history : List Event) → Shows view.now history →
        IfSome result (IsFound history digest.now view.now.moment) }
    ensures own { IfSome result (λ code. code.client ≡ client) }
{
    let Some(found) = view.at(digest) else {
        return None;
    };
    let Kind::Code = found.kind else {
        return None;
    };
    if found.client != client {
        return None;
    }
    Some(found)
}

// The host leaves nothing, and the code is spent.
fn spending<'c>(error: ErrorName, digest: &Digest) -> Decision<'c>
    ensures { result ≡ record { answer = Answer.Failure error; changes = Changes.One (Change.Spent digest.now) } }
{
    Decision {
        answer: Answer::Failure(error),
        changes: Changes::One(Change::Spent { digest: *digest }),
    }
}

// The host denies the grant, and the code is spent.
fn denying<'c>(error: ErrorName, digest: &Digest) -> Decision<'c>
    ensures { result ≡ record { answer = Answer.Denied error; changes = Changes.One (Change.Spent digest.now) } }
{
    Decision {
        answer: Answer::Denied(error),
        changes: Changes::One(Change::Spent { digest: *digest }),
    }
}

// An access token of what the host left, and a refresh token of its scope where the client may use one; or an error. The
// code is spent.
fn exchanged<'c>(
    view: &View<'_>,
    known: &KnownClient<'_>,
    digest: &Digest,
    code: &Found<'_>,
    left: Narrowed,
) -> Decision<'c>
    ensures decides { DecidesOf view.now digest.now code.now (Ok result) (λ s code. exchanged_by s known.now.client.now code left) }
    ensures short { IsShortAnswer result.answer }
{
    match left {
        Narrowed::Denied => denying(ErrorName::InvalidGrant, digest),
        Narrowed::EmptyScope => spending(ErrorName::InvalidScope, digest),
        Narrowed::Allowed { scope, life } => {
            let scope = ScopeSet::new(scope);
            if known.client.has_grant(GrantType::RefreshToken) {
                both_for(view, digest, code, scope, life, scope)
            } else {
                access_for(view, digest, code, scope, life)
            }
        }
    }
}

// The points from the code's on, by its digest.
#[tactic(auto, using(crate::proofs::Telling::code_none, crate::proofs::Telling::code_unspent, crate::proofs::Telling::spent_ends))]
fn exchange_at<'c, H: HookHost>(
    view: &View<'_>,
    host: &H,
    known: &KnownClient<'_>,
    sent: &Presented<'_>,
) -> Result<Decision<'c>, Halt>
    ensures decides { DecidesAsking view.now (H.answer host.now) result (λ s. exchange_at s (known_of known.now) sent.entry.now) }
    ensures short { IfOk result (λ decision. IsShortAnswer decision.answer) }
{
    let Some(code) = own_code(view, known.number, &sent.digest) else {
        return Err(Halt::Refuse(ErrorName::InvalidGrant));
    };
    if code.spent {
        return Ok(ending(code.family));
    }
    if code.ended || sent.uri != code.redirect || !matches(sent.verifier, code.challenge) {
        return Err(Halt::Refuse(ErrorName::InvalidGrant));
    }
    let wish = Wish {
        kind: hook_record::Kind::Code,
        owner: code.owner,
        scope: code.scope,
    };
    let ask = ask_for(view, known, wish);
    let left = decided(host, &ask);
    Ok(exchanged(view, known, &sent.digest, &code, left))
}

/// Decides on the exchange of a code by a client.
pub(crate) fn exchange<'c, H: HookHost>(
    view: &View<'_>,
    host: &H,
    params: &Params<'_>,
    known: &KnownClient<'_>,
) -> Result<Decision<'c>, Halt>
    ensures decides { DecidesAsking view.now (H.answer host.now) result (λ s. exchange s params.now (known_of known.now)) }
    ensures short { IfOk result (λ decision. IsShortAnswer decision.answer) }
{
    let Some(text) = params.get("code") else {
        return Err(Halt::Refuse(ErrorName::InvalidRequest));
    };
    let Some(uri) = params.get("redirect_uri") else {
        return Err(Halt::Refuse(ErrorName::InvalidRequest));
    };
    let Some(verifier) = params.get("code_verifier") else {
        return Err(Halt::Refuse(ErrorName::InvalidRequest));
    };
    let Some(digest) = digest_told(text) else {
        return Err(Halt::Refuse(ErrorName::InvalidGrant));
    };
    let sent = Presented {
        digest,
        uri,
        verifier,
    };
    exchange_at(view, host, known, &sent)
}
