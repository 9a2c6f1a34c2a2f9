//! How many codes and tokens end under other rules.

ghost use Rattle.std.specs.Prelude.{◌≡◌, List};
ghost use Rattle.consent.specs.History.{Event, is_unexpired};
ghost use Rattle.narrowing.specs.EndedParts.{ends_kept, is_kept_good, is_kept_left};
ghost use Rattle.narrowing.specs.Left.{do_go_beyond, ended_count};
ghost use Rattle.narrowing.specs.LeftKept.{left_grant};
ghost use Rattle.token_store.specs.Fits.{FitsHistory};
ghost use Rattle.token_store.specs.Image.{as_kept, kept_record};

use crate::rules::{goes_beyond, life_under};
use clients::Registry;
use consent::{KeptKind, KeptRecord, Moment, TokenKind};
use rules_beside::OwnersBeside;

// Whether the family's code goes beyond the rules.
fn is_beyond(rules: &Registry, owners: &OwnersBeside<'_, '_>, of: &KeptRecord<'_>) -> bool
    ensures { result ≡ do_go_beyond (record { rules = rules.now; owners = owners.now }) (kept_record of.now).terms }
{
    match of.code_scope {
        Some(scope) => owners.is_former(of.owner) || goes_beyond(rules, of.client, scope),
        None => false,
    }
}

// For how long it is good: a token no longer than it may.
fn life_left(rules: &Registry, of: &KeptRecord<'_>) -> u32
    ensures { result ≡ (left_grant rules.now (kept_record of.now).grant).life }
{
    match of.kind {
        KeptKind::Code { .. } => of.life,
        KeptKind::Token(kind) => life_under(rules, of.client, kind, of.scope, of.life),
    }
}

// Whether something of it is left that is good at the moment.
fn is_left(
    rules: &Registry,
    owners: &OwnersBeside<'_, '_>,
    moment: Moment,
    of: &KeptRecord<'_>,
) -> bool
    ensures { result ≡ is_kept_left (record { rules = rules.now; owners = owners.now }) moment (kept_record of.now) }
{
    !is_beyond(rules, owners, of)
        && moment.get() < of.moment.get() + u64::from(life_left(rules, of))
}

// Whether it is good at the moment.
fn is_unexpired(moment: Moment, of: &KeptRecord<'_>) -> bool
    ensures { result ≡ is_unexpired moment (kept_record of.now).grant }
{
    moment.get() < of.moment.get() + u64::from(of.life)
}

// Whether its family has not ended and, if it is for one use, it is not spent.
fn is_kept_good(of: &KeptRecord<'_>) -> bool
    ensures { result ≡ is_kept_good (kept_record of.now) }
{
    let single_use = !matches!(of.kind, KeptKind::Token(TokenKind::Access));
    !of.ended && !(single_use && of.spent)
}

// Whether it is good at the moment, and nothing is left of it.
fn ends(
    rules: &Registry,
    owners: &OwnersBeside<'_, '_>,
    moment: Moment,
    of: &KeptRecord<'_>,
) -> bool
    ensures { result ≡ ends_kept (record { rules = rules.now; owners = owners.now }) moment (kept_record of.now) }
{
    is_unexpired(moment, of) && is_kept_good(of) && !is_left(rules, owners, moment, of)
}

/// How many codes and tokens end under the rules: those of these that are good at the moment, and of which nothing is left.
pub fn ended_count(
    rules: &Registry,
    owners: &OwnersBeside<'_, '_>,
    moment: Moment,
    records: &[KeptRecord<'_>],
) -> usize
    ensures { (history : List Event) → FitsHistory (as_kept records.now) history moment →
        result ≡ ended_count (record { rules = rules.now; owners = owners.now }) history moment }
{
    let mut count = 0;
    for of in records {
        if ends(rules, owners, moment, of) {
            count += 1;
        }
    }
    count
}
