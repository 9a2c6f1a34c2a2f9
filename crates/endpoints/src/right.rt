//! Whether a change is right under rules.
ghost use Rattle.std.specs.Prelude.{◌≡◌, ℕ, List, option_map};
ghost use Rattle.consent.specs.Consents.{FitsConsents};
ghost use Rattle.consent.specs.History.{Event};
ghost use Rattle.endpoints.specs.Bounded.{token_life_limit};
ghost use Rattle.endpoints.specs.Right.{comes_of_family, is_right, is_right_token, may_have, may_have_token};
ghost use Rattle.consent.specs.Owners.{owner_number};
ghost use Rattle.token_store.specs.Found.{family_seen};
ghost use Rattle.token_store.specs.Lists.{FitsList};

use clients::Registry;
use consent::{Change, ClientNo, Consents, Home, NewToken, OwnerNo, ScopeSet, TokenKind};
use token_store::{Family, Store};

/// Whether the client is one of the registry's, and may be allowed the scope.
pub(crate) fn may_have(rules: &Registry, client: ClientNo, scope: ScopeSet) -> bool
    ensures { result ≡ may_have rules.now client scope }
{
    match rules.client_numbered(client) {
        Some(client) => scope.is_within(client.allowed()),
        None => false,
    }
}

/// For how long a token of the kind may live.
pub(crate) fn life_limit(rules: &Registry, kind: TokenKind) -> u32
    ensures { result ≡ token_life_limit rules.now kind }
{
    match kind {
        TokenKind::Access => rules.access_life(),
        TokenKind::Refresh => rules.refresh_life(),
    }
}

// Whether the client may have the token, which lives no longer than its kind may.
fn may_have_token(rules: &Registry, client: ClientNo, token: &NewToken) -> bool
    ensures { result ≡ may_have_token rules.now client token.now }
{
    may_have(rules, client, token.scope) && token.life <= life_limit(rules, token.kind)
}

// Whether a token of the scope may come of the family that is known; that of a new one is the client's own.
fn comes_of(family: Option<Family>, owner: Option<OwnerNo>, scope: ScopeSet) -> bool
    ensures { result ≡ comes_of_family (option_map family_seen family) (owner_number owner) scope }
{
    let Some(family) = family else {
        return OwnerNo::number_of(owner) == 0;
    };
    match family.code_scope {
        Some(code_scope) => scope.is_within(code_scope) && !family.ended,
        None => OwnerNo::number_of(owner) == 0,
    }
}

// Whether the token may come of the family.
fn is_right_token(rules: &Registry, store: &Store, home: &Home, token: &NewToken) -> bool
    ensures { (list : List Event) (m : ℕ) → FitsList store.now list m → result ≡ is_right_token rules.now list home.now token.now }
{
    let family = store.family_told(home.family);
    may_have_token(rules, home.client, token) && comes_of(family, home.owner, token.scope)
}

/// Whether the change is right under the rules, as the next one of a list.
pub(crate) fn is_right(
    rules: &Registry,
    store: &Store,
    consents: &Consents,
    change: &Change<'_>,
) -> bool
    ensures { (list : List Event) (m : ℕ) → FitsList store.now list m → FitsConsents consents.now list →
        result ≡ is_right rules.now list change.now }
{
    match change {
        Change::CodeGiven { facts, .. } => {
            may_have(rules, facts.client, facts.scope)
                && facts
                    .scope
                    .is_within(consents.get(facts.owner, facts.client))
        }
        Change::Issued { home, token } => is_right_token(rules, store, home, token),
        Change::Consented { .. }
        | Change::Spent { .. }
        | Change::FamilyEnded { .. }
        | Change::HookSet { .. }
        | Change::HookGone { .. }
        | Change::Numbered { .. } => true,
    }
}
