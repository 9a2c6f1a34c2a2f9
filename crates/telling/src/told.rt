//! What is told of a request that was answered.
ghost use Rattle.std.specs.Prelude.{◌≡◌, option_map};
ghost use Rattle.std.specs.Option.{option_or};
ghost use Rattle.telling.specs.Interests.{denies, is_denial};
ghost use Rattle.telling.specs.Seen.{facts_seen};
ghost use Rattle.telling.specs.Telling.{bare_told, family_shown, owner_shown, told_with};
ghost use Rattle.token_endpoint.specs.AsksParts.{lineage_seen};

use crate::came::Came;
use crate::changed::{Changed, owner_told};
use crate::facts::Facts;
use answers::Endpoint;
use clients::GrantType;
use consent::{ClientNo, Moment, OwnerNo, ScopeSet};
use hook_host::Verdicts;
use hook_record::{Ask, Narrowed};
use http::StatusCode;
use messages::ErrorName;
use std::alloc::Global;
use token_endpoint::Lineage;

/// What is told of a request that was answered. No text of a request has a place here, no key, digest or draw.
#[derive(Drop)]
pub struct Told {
    /// The moment at which it was answered.
    pub moment: Moment,
    /// `None` where its path is no endpoint's.
    pub endpoint: Option<Endpoint>,
    pub status: StatusCode,
    /// The error that the reply names, also in a redirection.
    pub error: Option<ErrorName>,
    /// The client that was authenticated; at /authorize and /consent the one that was named.
    pub client: Option<ClientNo>,
    /// Whose grant or consent it is about.
    pub owner: Option<OwnerNo>,
    /// The grant type that was asked for, where the client may use it.
    pub grant: Option<GrantType>,
    /// The number of the family that was opened, gone on with or ended, or that what was presented is of.
    pub family: Option<u64>,
    /// The scope of the code or access token that was given, or what was consented to.
    pub scope: Option<ScopeSet>,
    /// The life of the access token that was given, in seconds.
    pub life: Option<u32>,
    /// What hooks were asked.
    pub ask: Option<Ask>,
    /// What each hook that was asked left.
    pub verdicts: Verdicts,
}

// Whether nothing may be granted.
fn denies(left: Narrowed) -> bool
    ensures { result ≡ denies left }
{
    match left {
        Narrowed::Denied => true,
        _ => false,
    }
}

impl Told {
    /// Whether the last of the hooks that were asked denied.
    #[tactic(auto, using(crate::proofs::Denying::last_denies, crate::proofs::Denying::none_denies))]
    pub fn is_denial(&self) -> bool
        ensures { result ≡ is_denial self.now.verdicts }
    {
        let Some(last) = self.verdicts.entries().last() else {
            return false;
        };
        denies(last.left())
    }
}

/// A request of which nothing is told but where it came and the status.
pub(crate) fn bare(
    alloc: Global,
    moment: Moment,
    endpoint: Option<Endpoint>,
    status: StatusCode,
) -> Told
    ensures { result ≡ bare_told moment endpoint status }
{
    Told {
        moment,
        endpoint,
        status,
        error: None,
        client: None,
        owner: None,
        grant: None,
        family: None,
        scope: None,
        life: None,
        ask: None,
        verdicts: Verdicts::none(alloc),
    }
}

// The first of two owners.
fn first_owner(first: Option<OwnerNo>, second: Option<OwnerNo>) -> Option<OwnerNo>
    ensures { result ≡ option_or first second }
{
    match first {
        Some(owner) => Some(owner),
        None => second,
    }
}

// The owner of what is presented, or else the one who asks.
fn owner_shown(lineage: &Option<Lineage>, asking: Option<OwnerNo>) -> Option<OwnerNo>
    ensures { result ≡ owner_shown (option_map lineage_seen lineage.now) asking }
{
    match lineage {
        Some(lineage) => first_owner(owner_told(lineage.owner), asking),
        None => asking,
    }
}

// The family of what is presented.
fn family_shown(lineage: &Option<Lineage>) -> Option<u64>
    ensures { result ≡ family_shown (option_map lineage_seen lineage.now) }
{
    match lineage {
        Some(lineage) => Some(lineage.family),
        None => None,
    }
}

// A family, or the other one where there is none.
fn first_family(first: Option<u64>, second: Option<u64>) -> Option<u64>
    ensures { result ≡ option_or first second }
{
    match first {
        Some(family) => Some(family),
        None => second,
    }
}

/// What is told of a request at the endpoint, by what it shows, what is told of its reply, and what happened.
pub(crate) fn told_with(
    moment: Moment,
    endpoint: Endpoint,
    facts: Facts,
    came: Came,
    happened: Changed,
) -> Told
    ensures { result ≡ told_with moment endpoint (facts_seen facts) came happened }
{
    let Facts {
        client,
        grant,
        lineage,
        owner,
        ask,
        verdicts,
    } = facts;
    Told {
        moment,
        endpoint: Some(endpoint),
        status: came.status,
        error: came.error,
        client,
        owner: first_owner(happened.owner, owner_shown(&lineage, owner)),
        grant,
        family: first_family(happened.family, family_shown(&lineage)),
        scope: happened.scope,
        life: happened.life,
        ask,
        verdicts,
    }
}
