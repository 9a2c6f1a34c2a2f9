//! POST /token with grant_type refresh_token, which rotates (RFC 6749, section 6).
ghost use Rattle.std.specs.Prelude.{◌≡◌, List, IfSome, IfOk};
ghost use Rattle.consent.specs.History.{Event};
ghost use Rattle.answers.specs.Found.{IsFound};
ghost use Rattle.answers.specs.Short.{IsShortAnswer};
ghost use Rattle.answers.specs.Told.{DecidesAsking};
ghost use Rattle.answers.specs.ToldParts.{DecidesOf};
ghost use Rattle.answers.specs.Tokens.{refresh_of_client};
ghost use Rattle.answers.specs.Views.{Finds, Shows, known_of};
ghost use Rattle.token_endpoint.specs.Parts.{refreshed_by};
ghost use Rattle.token_endpoint.specs.Refresh.{refresh};

use crate::granting::{Wish, ask_for, both_for, ending};
use answers::{Decision, Halt, KnownClient, View, digest_told, scope_within};
use clients::ClientNo;
use consent::{Digest, Kind, ScopeSet, TokenKind};
use hook_host::{HookHost, decided};
use hook_record::Narrowed;
use messages::ErrorName;
use params::Params;
use token_store::Found;

// The unexpired refresh token of the digest, spent or not, which is the client's.
#[tactic(auto, using(crate::proofs::Telling::refresh_as_told))]
pub(crate) fn own_token<'a>(view: &View<'a>, client: ClientNo, digest: &Digest) -> Option<Found<'a>>
    ensures value { Finds view.now digest.now result (λ history. refresh_of_client history view.now.moment client digest.now) }
    ensures found { (history : List Event) → Shows view.now history →
        IfSome result (IsFound history digest.now view.now.moment) }
    ensures own { IfSome result (λ token. token.client ≡ client) }
{
    let Some(found) = view.at(digest) else {
        return None;
    };
    let Kind::Token(TokenKind::Refresh) = found.kind else {
        return None;
    };
    if found.client != client {
        return None;
    }
    Some(found)
}

// What the host leaves is issued, and the token is spent; a refused token stays unspent.
fn refreshed<'c>(
    view: &View<'_>,
    digest: &Digest,
    token: &Found<'_>,
    left: Narrowed,
) -> Result<Decision<'c>, Halt>
    ensures decides { DecidesOf view.now digest.now token.now result (λ s token. refreshed_by s token left) }
    ensures short { IfOk result (λ decision. IsShortAnswer decision.answer) }
{
    match left {
        Narrowed::Denied => Ok(Decision::denied(ErrorName::InvalidGrant)),
        Narrowed::EmptyScope => Err(Halt::Refuse(ErrorName::InvalidScope)),
        Narrowed::Allowed { scope, life } => {
            let scope = ScopeSet::new(scope);
            Ok(both_for(view, digest, token, scope, life, token.scope))
        }
    }
}

/// Decides on the use of a refresh token by a client.
pub(crate) fn refresh<'c, H: HookHost>(
    view: &View<'_>,
    host: &H,
    params: &Params<'_>,
    known: &KnownClient<'_>,
) -> Result<Decision<'c>, Halt>
    ensures decides { DecidesAsking view.now (H.answer host.now) result (λ s. refresh s params.now (known_of known.now)) }
    ensures short { IfOk result (λ decision. IsShortAnswer decision.answer) }
{
    let Some(text) = params.get("refresh_token") else {
        return Err(Halt::Refuse(ErrorName::InvalidRequest));
    };
    let Some(digest) = digest_told(text) else {
        return Err(Halt::Refuse(ErrorName::InvalidGrant));
    };
    let Some(token) = own_token(view, known.number, &digest) else {
        return Err(Halt::Refuse(ErrorName::InvalidGrant));
    };
    if token.spent {
        return Ok(ending(token.family));
    }
    if token.ended {
        return Err(Halt::Refuse(ErrorName::InvalidGrant));
    }
    let Some(scope) = scope_within(view.rules, token.scope, params) else {
        return Err(Halt::Refuse(ErrorName::InvalidScope));
    };
    let wish = Wish {
        kind: hook_record::Kind::Refresh,
        owner: token.owner,
        scope,
    };
    let ask = ask_for(view, known, wish);
    refreshed(view, &digest, &token, decided(host, &ask))
}
