//! What the host is asked for a request for tokens, and what the request presents: told of it, and deciding nothing.
ghost use Rattle.std.specs.Prelude.{◌≡◌, ℕ, List, option_map};
ghost use Rattle.answers.specs.Found.{grant_found};
ghost use Rattle.answers.specs.Views.{InEachSetting, known_of};
ghost use Rattle.clients.specs.declared.grant.GrantType.TheVariants.{AuthorizationCode, RefreshToken};
ghost use Rattle.token_endpoint.specs.Asks.{ask_by_grant, credentials_ask, exchange_ask, grant_asked, lineage_of, lineage_presented, refresh_ask};
ghost use Rattle.token_endpoint.specs.AsksParts.{lineage_seen};

use crate::exchange::own_code;
use crate::granting::{Wish, ask_for};
use crate::refresh::own_token;
use answers::{KnownClient, View, digest_told, scope_within};
use clients::{Client, ClientNo, GrantType};
use consent::OwnerNo;
use hook_record::{Ask, Kind};
use params::Params;
use pkce::matches;
use token_store::Found;

/// The family of a code or token, and its owner, if there is one.
#[derive(Clone, Copy)]
pub struct Lineage {
    pub family: u64,
    pub owner: Option<OwnerNo>,
}

/// The grant type that the parameters name, where the client may use it.
pub fn grant_asked(params: &Params<'_>, client: &Client) -> Option<GrantType>
    ensures { result ≡ grant_asked params.now client.now }
{
    let grant = GrantType::named(params.get("grant_type")?)?;
    if client.has_grant(grant) {
        Some(grant)
    } else {
        None
    }
}

// What the host is asked for the exchange of a code.
#[tactic(auto, using(crate::proofs::Telling::code_none, crate::proofs::Telling::code_unspent, crate::proofs::Asking::spent_asks))]
fn exchange_ask(view: &View<'_>, params: &Params<'_>, known: &KnownClient<'_>) -> Option<Ask>
    ensures { InEachSetting view.now (λ s. result ≡ exchange_ask s params.now (known_of known.now)) }
{
    let Some(text) = params.get("code") else {
        return None;
    };
    let Some(uri) = params.get("redirect_uri") else {
        return None;
    };
    let Some(verifier) = params.get("code_verifier") else {
        return None;
    };
    let Some(digest) = digest_told(text) else {
        return None;
    };
    let Some(code) = own_code(view, known.number, &digest) else {
        return None;
    };
    if code.spent {
        return None;
    }
    if code.ended || uri != code.redirect || !matches(verifier, code.challenge) {
        return None;
    }
    let wish = Wish {
        kind: Kind::Code,
        owner: code.owner,
        scope: code.scope,
    };
    let ask = ask_for(view, known, wish);
    Some(ask)
}

// For the use of a refresh token.
fn refresh_ask(view: &View<'_>, params: &Params<'_>, known: &KnownClient<'_>) -> Option<Ask>
    ensures { InEachSetting view.now (λ s. result ≡ refresh_ask s params.now (known_of known.now)) }
{
    let Some(text) = params.get("refresh_token") else {
        return None;
    };
    let Some(digest) = digest_told(text) else {
        return None;
    };
    let Some(token) = own_token(view, known.number, &digest) else {
        return None;
    };
    if token.spent {
        return None;
    }
    if token.ended {
        return None;
    }
    let Some(scope) = scope_within(view.rules, token.scope, params) else {
        return None;
    };
    let wish = Wish {
        kind: Kind::Refresh,
        owner: token.owner,
        scope,
    };
    let ask = ask_for(view, known, wish);
    Some(ask)
}

// For a client's own grant.
fn credentials_ask(view: &View<'_>, params: &Params<'_>, known: &KnownClient<'_>) -> Option<Ask>
    ensures { InEachSetting view.now (λ s. result ≡ credentials_ask s params.now (known_of known.now)) }
{
    let Some(scope) = scope_within(view.rules, known.client.allowed(), params) else {
        return None;
    };
    let wish = Wish {
        kind: Kind::ClientCredentials,
        owner: None,
        scope,
    };
    let ask = ask_for(view, known, wish);
    Some(ask)
}

/// What the host is asked for the client, by the grant type, where it is asked.
pub fn ask_by_grant(
    grant: GrantType,
    view: &View<'_>,
    params: &Params<'_>,
    known: &KnownClient<'_>,
) -> Option<Ask>
    ensures { InEachSetting view.now (λ s. result ≡ ask_by_grant grant s params.now (known_of known.now)) }
{
    match grant {
        GrantType::AuthorizationCode => exchange_ask(view, params, known),
        GrantType::RefreshToken => refresh_ask(view, params, known),
        GrantType::ClientCredentials => credentials_ask(view, params, known),
    }
}

// Where something found comes from.
fn lineage_of(found: &Found<'_>) -> Lineage
    ensures { (digest : List ℕ) → lineage_seen result ≡ lineage_of (grant_found digest found.now) }
{
    Lineage {
        family: found.family,
        owner: found.owner,
    }
}

// Where the code comes from that the parameters present.
#[tactic(auto, using(crate::proofs::Telling::code_none))]
fn presented_code(view: &View<'_>, params: &Params<'_>, client: ClientNo) -> Option<Lineage>
    ensures { InEachSetting view.now (λ s. option_map lineage_seen result ≡ lineage_presented AuthorizationCode s params.now client) }
{
    let Some(text) = params.get("code") else {
        return None;
    };
    let Some(digest) = digest_told(text) else {
        return None;
    };
    let Some(code) = own_code(view, client, &digest) else {
        return None;
    };
    Some(lineage_of(&code))
}

// Where the refresh token comes from that they present.
fn presented_token(view: &View<'_>, params: &Params<'_>, client: ClientNo) -> Option<Lineage>
    ensures { InEachSetting view.now (λ s. option_map lineage_seen result ≡ lineage_presented RefreshToken s params.now client) }
{
    let Some(text) = params.get("refresh_token") else {
        return None;
    };
    let Some(digest) = digest_told(text) else {
        return None;
    };
    let Some(token) = own_token(view, client, &digest) else {
        return None;
    };
    Some(lineage_of(&token))
}

/// Where the code or refresh token comes from that the parameters present, which is the client's own and unexpired.
pub fn presented(
    grant: GrantType,
    view: &View<'_>,
    params: &Params<'_>,
    client: ClientNo,
) -> Option<Lineage>
    ensures { InEachSetting view.now (λ s. option_map lineage_seen result ≡ lineage_presented grant s params.now client) }
{
    match grant {
        GrantType::AuthorizationCode => presented_code(view, params, client),
        GrantType::RefreshToken => presented_token(view, params, client),
        GrantType::ClientCredentials => None,
    }
}
