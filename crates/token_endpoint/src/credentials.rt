//! POST /token with grant_type client_credentials (RFC 6749, section 4.4).
ghost use Rattle.std.specs.Prelude.{Ok, IfOk};
ghost use Rattle.answers.specs.Views.{known_of};
ghost use Rattle.answers.specs.Short.{IsShortAnswer};
ghost use Rattle.answers.specs.Told.{DecidesAsking};
ghost use Rattle.answers.specs.ToldParts.{DecidesBy};
ghost use Rattle.token_endpoint.specs.ClientCredentials.{client_credentials, granted};
ghost use Rattle.token_endpoint.specs.Parts.{granted_by};

use crate::granting::{Wish, access_token, ask_for};
use answers::{Answer, Decision, Halt, KnownClient, View, Want, scope_within};
use clients::ClientNo;
use consent::{Change, Changes, Home, ScopeSet};
use hook_host::{HookHost, decided};
use hook_record::{Kind, Narrowed};
use messages::ErrorName;
use params::Params;

// An access token of the client's own, in a family of its own.
fn issue_own<'c>(view: &View<'_>, client: ClientNo, scope: ScopeSet, life: u32) -> Decision<'c>
    ensures decides { DecidesBy view.now (Ok result) (λ s. granted s client (record { scope = scope; life = life })) }
    ensures short { IsShortAnswer result.answer }
{
    let Some(family) = view.next_family() else {
        return Decision::unavailable(Want::StoreRoom);
    };
    let token = access_token(view, scope, life);
    let first = token.digest;
    if !view.is_free(client, &[first]) {
        return Decision::unavailable(view.want(client, &[first]));
    }
    Decision {
        answer: Answer::Access {
            draw: view.draws.first,
            scope,
            life,
        },
        changes: Changes::One(Change::Issued {
            home: Home {
                family,
                client,
                owner: None,
            },
            token,
        }),
    }
}

// By what the host leaves.
fn granted<'c>(view: &View<'_>, client: ClientNo, left: Narrowed) -> Result<Decision<'c>, Halt>
    ensures decides { DecidesBy view.now result (λ s. granted_by s client left) }
    ensures short { IfOk result (λ decision. IsShortAnswer decision.answer) }
{
    match left {
        Narrowed::Denied => Ok(Decision::denied(ErrorName::UnauthorizedClient)),
        Narrowed::EmptyScope => Err(Halt::Refuse(ErrorName::InvalidScope)),
        Narrowed::Allowed { scope, life } => {
            Ok(issue_own(view, client, ScopeSet::new(scope), life))
        }
    }
}

/// Decides on a grant to a client itself.
pub(crate) fn client_credentials<'c, H: HookHost>(
    view: &View<'_>,
    host: &H,
    params: &Params<'_>,
    known: &KnownClient<'_>,
) -> Result<Decision<'c>, Halt>
    ensures decides { DecidesAsking view.now (H.answer host.now) result (λ s. client_credentials s params.now (known_of known.now)) }
    ensures short { IfOk result (λ decision. IsShortAnswer decision.answer) }
{
    let Some(scope) = scope_within(view.rules, known.client.allowed(), params) else {
        return Err(Halt::Refuse(ErrorName::InvalidScope));
    };
    let wish = Wish {
        kind: Kind::ClientCredentials,
        owner: None,
        scope,
    };
    let ask = ask_for(view, known, wish);
    granted(view, known.number, decided(host, &ask))
}
