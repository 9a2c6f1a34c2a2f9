//! What a registry allows.

ghost use Rattle.std.specs.Prelude.{◌≡◌};
ghost use Rattle.endpoints.specs.Bounded.{allowed_to, token_life_limit};
ghost use Rattle.narrowing.specs.Left.{goes_beyond, life_under, scope_under};

use clients::Registry;
use consent::{ClientNo, ScopeSet, TokenKind};

// What the client may be allowed.
fn allowed_to(rules: &Registry, client: ClientNo) -> ScopeSet
    ensures { result ≡ allowed_to rules.now client }
{
    match rules.client_numbered(client) {
        Some(client) => client.allowed(),
        None => ScopeSet::empty(),
    }
}

/// Whether the client may not be allowed all of the scope.
pub(crate) fn goes_beyond(rules: &Registry, client: ClientNo, scope: ScopeSet) -> bool
    ensures { result ≡ goes_beyond rules.now client scope }
{
    !scope.is_within(allowed_to(rules, client))
}

/// What of the scope the client may be allowed.
pub(crate) fn scope_under(rules: &Registry, client: ClientNo, scope: ScopeSet) -> ScopeSet
    ensures { result ≡ scope_under rules.now client scope }
{
    ScopeSet::new(scope.bits() & allowed_to(rules, client).bits())
}

// How long a token of the kind may be good.
fn life_limit(rules: &Registry, kind: TokenKind) -> u32
    ensures { result ≡ token_life_limit rules.now kind }
{
    match kind {
        TokenKind::Access => rules.access_life(),
        TokenKind::Refresh => rules.refresh_life(),
    }
}

/// For how long a token is good that was issued for a life.
pub(crate) fn life_under(
    rules: &Registry,
    client: ClientNo,
    kind: TokenKind,
    scope: ScopeSet,
    life: u32,
) -> u32
    ensures { result ≡ life_under rules.now client kind scope life }
{
    if goes_beyond(rules, client, scope) {
        return 0;
    }
    let limit = life_limit(rules, kind);
    if life < limit { life } else { limit }
}
