//! What a host is asked, and the tokens that are issued.
ghost use Rattle.std.specs.Prelude.{◌≡◌, Ok};
ghost use Rattle.answers.specs.Short.{IsShortAnswer};
ghost use Rattle.answers.specs.ToldParts.{DecidesOf};
ghost use Rattle.answers.specs.Views.{InEachSetting, known_of};
ghost use Rattle.token_endpoint.specs.Grants.{access_for, both_for};
ghost use Rattle.token_endpoint.specs.Issuing.{access_token, refresh_token};
ghost use Rattle.token_endpoint.specs.Parts.{wished};

use answers::{Answer, Decision, KnownClient, View};
use consent::{Change, Changes, Digest, Home, NewToken, OwnerNo, ScopeSet, TokenKind};
use hook_record::{Ask, Kind};
use messages::ErrorName;
use pkce::digest_of;
use token_store::Found;

/// What is to be granted: its kind, the owner, if there is one, and the scope that is asked for.
#[derive(Clone, Copy)]
pub(crate) struct Wish {
    pub(crate) kind: Kind,
    pub(crate) owner: Option<OwnerNo>,
    pub(crate) scope: ScopeSet,
}

// The ask of a grant to the client.
pub(crate) fn ask_for(view: &View<'_>, known: &KnownClient<'_>, wish: Wish) -> Ask
    ensures { InEachSetting view.now (λ s. result ≡ wished s (known_of known.now) wish) }
{
    let owner = match wish.owner {
        Some(owner) => u64::from(owner.get()),
        None => 0,
    };
    Ask {
        kind: wish.kind,
        now: view.moment.get(),
        client: u64::from(known.number.get()),
        owner,
        asked: wish.scope.bits(),
        scope: wish.scope.bits(),
        life: view.rules.access_life(),
        allowed: known.client.allowed().bits(),
        consented: view.consented(wish.owner, known.number).bits(),
        access_limit: view.rules.access_life(),
        refresh_limit: view.rules.refresh_life(),
    }
}

// The access token of the first draw.
pub(crate) fn access_token(view: &View<'_>, scope: ScopeSet, life: u32) -> NewToken
    ensures { result ≡ access_token view.now.draws.now scope life }
{
    NewToken {
        kind: TokenKind::Access,
        digest: digest_of(&view.draws.first),
        scope,
        life,
    }
}

// The refresh token of the second draw.
fn refresh_token(view: &View<'_>, scope: ScopeSet) -> NewToken
    ensures { result ≡ refresh_token view.now.rules.now view.now.draws.now scope }
{
    NewToken {
        kind: TokenKind::Refresh,
        digest: digest_of(&view.draws.second),
        scope,
        life: view.rules.refresh_life(),
    }
}

// invalid_grant, with which the family ends.
pub(crate) fn ending<'c>(family: u64) -> Decision<'c>
    ensures { result ≡ record { answer = Answer.Failure ErrorName.InvalidGrant; changes = Changes.One (Change.FamilyEnded family) } }
{
    Decision {
        answer: Answer::Failure(ErrorName::InvalidGrant),
        changes: Changes::One(Change::FamilyEnded { family }),
    }
}

// The family of what was found, and whose it is.
fn home_of(found: &Found<'_>) -> Home
    ensures { result ≡ record { family = found.now.family; client = found.now.client; owner = found.now.owner } }
{
    Home {
        family: found.family,
        client: found.client,
        owner: found.owner,
    }
}

// An access token in the family of what is used up, which is spent.
pub(crate) fn access_for<'c>(
    view: &View<'_>,
    digest: &Digest,
    used: &Found<'_>,
    scope: ScopeSet,
    life: u32,
) -> Decision<'c>
    ensures decides { DecidesOf view.now digest.now used.now (Ok result)
        (λ s used. access_for s used (record { scope = scope; life = life })) }
    ensures short { IsShortAnswer result.answer }
{
    let access = access_token(view, scope, life);
    let first = access.digest;
    if !view.is_free(used.client, &[first]) {
        return Decision::unavailable(view.want(used.client, &[first]));
    }
    Decision {
        answer: Answer::Access {
            draw: view.draws.first,
            scope,
            life,
        },
        changes: Changes::Used {
            of: *digest,
            home: home_of(used),
            access,
            refresh: None,
        },
    }
}

// And a refresh token of the scope that is kept.
pub(crate) fn both_for<'c>(
    view: &View<'_>,
    digest: &Digest,
    used: &Found<'_>,
    scope: ScopeSet,
    life: u32,
    kept: ScopeSet,
) -> Decision<'c>
    ensures decides { DecidesOf view.now digest.now used.now (Ok result)
        (λ s g. both_for s g (record { scope = scope; life = life }) kept) }
    ensures short { IsShortAnswer result.answer }
{
    let access = access_token(view, scope, life);
    let refresh = refresh_token(view, kept);
    let first = access.digest;
    let second = refresh.digest;
    if !view.is_free(used.client, &[first, second]) {
        return Decision::unavailable(view.want(used.client, &[first, second]));
    }
    Decision {
        answer: Answer::Both {
            draws: *view.draws,
            scope,
            life,
        },
        changes: Changes::Used {
            of: *digest,
            home: home_of(used),
            access,
            refresh: Some(refresh),
        },
    }
}
