//! Changes that are left under other rules.

ghost use Rattle.std.specs.Prelude.{◌≡◌, OnOk, IfOk, Some, if◌then◌else◌, option_map, unwrap_or};
ghost use Rattle.consent.specs.Changes.{change_of};
ghost use Rattle.change_codec.specs.Spelling.{dated_facts};
ghost use Rattle.narrowing.specs.Left.{do_go_beyond, left_of, left_under, token_under};
ghost use Rattle.rules_beside.specs.Beside.{is_former};
ghost use Rattle.narrowing.specs.Codes.{Notes, TellsCodes, beyond_by};

use crate::rules::{goes_beyond, life_under, scope_under};
use change_codec::DatedChange;
use clients::Registry;
use consent::{Change, ClientNo, CodeFacts, NewToken, OwnerNo, ScopeSet};
use rules_beside::OwnersBeside;
use std::alloc::{AllocError, Global};
use std::collections::HashMap;

// Whether the first code goes beyond the rules, by the number of its family.
type Codes = HashMap<u64, bool>;

// Whether a code goes beyond the rules.
fn code_goes_beyond(rules: &Registry, owners: &OwnersBeside<'_, '_>, facts: &CodeFacts<'_>) -> bool
    ensures { result ≡ do_go_beyond (record { rules = rules.now; owners = owners.now }) (Some (record { client = facts.now.client; owner = facts.now.owner; scope = facts.now.scope })) }
{
    owners.is_former(facts.owner.get()) || goes_beyond(rules, facts.client, facts.scope)
}

// Notes a code, if it is the first of its family.
fn note(
    codes: &mut Codes,
    rules: &Registry,
    owners: &OwnersBeside<'_, '_>,
    change: &Change<'_>,
) -> Result<(), AllocError>
    ensures { OnOk result (Notes (record { rules = rules.now; owners = owners.now }) (change_of change.now) codes.old.entries codes.new.entries) }
{
    let Change::CodeGiven { family, facts, .. } = change else {
        return Ok(());
    };
    if codes.contains_key(family) {
        return Ok(());
    }
    let Ok(_) = codes.insert(*family, code_goes_beyond(rules, owners, facts)) else {
        return Err(AllocError);
    };
    Ok(())
}

// The codes that the changes give.
fn codes_in(
    alloc: Global,
    rules: &Registry,
    owners: &OwnersBeside<'_, '_>,
    changes: &[DatedChange<'_>],
) -> Result<Codes, AllocError>
    ensures { IfOk result (λ codes. TellsCodes (record { rules = rules.now; owners = owners.now }) (dated_facts changes.now) codes.entries) }
{
    let mut codes = HashMap::new(alloc);
    for dated in changes {
        note(&mut codes, rules, owners, &dated.change)?;
    }
    Ok(codes)
}

// Whether the family's code goes beyond the rules.
fn is_beyond(codes: &Codes, family: u64) -> bool
    ensures { result ≡ beyond_by codes.now.entries family }
{
    codes.get(&family).copied().unwrap_or(false)
}

// The client's token as it keeps to the rules.
fn token_under(rules: &Registry, client: ClientNo, token: NewToken) -> NewToken
    ensures { result ≡ token_under rules.now client token }
{
    NewToken {
        kind: token.kind,
        digest: token.digest,
        scope: scope_under(rules, client, token.scope),
        life: life_under(rules, client, token.kind, token.scope, token.life),
    }
}

// What the owner consents to: a former one to nothing.
fn mask_under(owners: &OwnersBeside<'_, '_>, owner: OwnerNo, mask: ScopeSet) -> ScopeSet
    ensures { result ≡ (if is_former owners.now owner then 0 else mask) }
{
    if owners.is_former(owner.get()) {
        ScopeSet::empty()
    } else {
        mask
    }
}

// What stands in the place of a change: the end of its family, where that is beyond the rules, a token that keeps to them, or a
// consent to nothing of a former owner.
fn in_place_of<'a>(
    rules: &Registry,
    owners: &OwnersBeside<'_, '_>,
    codes: &Codes,
    change: &Change<'a>,
) -> Option<Change<'a>>
    ensures { unwrap_or (option_map change_of result) (change_of change.now)
        ≡ left_of (record { rules = rules.now; owners = owners.now }) (beyond_by codes.now.entries) (change_of change.now) }
{
    match change {
        Change::Consented {
            owner,
            client,
            mask,
        } => Some(Change::Consented {
            owner: *owner,
            client: *client,
            mask: mask_under(owners, *owner, *mask),
        }),
        Change::CodeGiven { family, .. } => {
            if is_beyond(codes, *family) {
                return Some(Change::FamilyEnded { family: *family });
            }
            None
        }
        Change::Issued { home, token } => {
            if is_beyond(codes, home.family) {
                return Some(Change::FamilyEnded {
                    family: home.family,
                });
            }
            Some(Change::Issued {
                home: *home,
                token: token_under(rules, home.client, *token),
            })
        }
        _ => None,
    }
}

/// What is left of the changes under the rules: each has its moment and its place.
pub fn changes_left<'a>(
    alloc: Global,
    rules: &Registry,
    owners: &OwnersBeside<'_, '_>,
    changes: Vec<DatedChange<'a>>,
) -> Result<Vec<DatedChange<'a>>, AllocError>
    ensures { IfOk result (λ left. dated_facts left.items
        ≡ left_under (record { rules = rules.now; owners = owners.now }) (dated_facts changes.entry.items)) }
{
    let codes = codes_in(alloc, rules, owners, changes.as_slice())?;
    let mut left = changes;
    for place in 0..left.len() {
        let dated = &left[place];
        let moment = dated.moment;
        if let Some(change) = in_place_of(rules, owners, &codes, &dated.change) {
            left[place] = DatedChange { moment, change };
        }
    }
    Ok(left)
}
