//! What happened with a request, as it is told.
ghost use Rattle.std.specs.Prelude.{◌≡◌};
ghost use Rattle.consent.specs.Changes.{as_list, change_of, changes_of};
ghost use Rattle.consent.specs.declared.change.Changes.TheVariants.{Left};
ghost use Rattle.consent.specs.Owners.{owner_number, owner_numbered};
ghost use Rattle.telling.specs.Changed.{one_changed};
ghost use Rattle.telling.specs.Telling.{what_changed};

use consent::{Change, Changes, OwnerNo, ScopeSet};

/// The family, the owner, the scope and the life that changes tell of.
#[derive(Clone, Copy)]
pub(crate) struct Changed {
    pub(crate) family: Option<u64>,
    pub(crate) owner: Option<OwnerNo>,
    pub(crate) scope: Option<ScopeSet>,
    pub(crate) life: Option<u32>,
}

/// Nothing happened.
pub(crate) const NOTHING: Changed = Changed {
    family: None,
    owner: None,
    scope: None,
    life: None,
};

// The owner, by its number.
pub(crate) fn owner_told(owner: Option<OwnerNo>) -> Option<OwnerNo>
    ensures { result ≡ owner_numbered (owner_number owner) }
{
    match owner {
        Some(owner) => OwnerNo::numbered(owner.get()),
        None => None,
    }
}

// What one change tells of.
fn one_changed(change: &Change<'_>) -> Changed
    ensures { result ≡ one_changed (change_of change.now) }
{
    match change {
        Change::Consented { owner, mask, .. } => Changed {
            owner: Some(*owner),
            scope: Some(*mask),
            ..NOTHING
        },
        Change::CodeGiven { family, facts, .. } => Changed {
            family: Some(*family),
            owner: Some(facts.owner),
            scope: Some(facts.scope),
            life: None,
        },
        Change::Issued { home, token } => Changed {
            family: Some(home.family),
            owner: owner_told(home.owner),
            scope: Some(token.scope),
            life: Some(token.life),
        },
        Change::FamilyEnded { family } => Changed {
            family: Some(*family),
            ..NOTHING
        },
        Change::Spent { .. }
        | Change::HookSet { .. }
        | Change::HookGone { .. }
        | Change::Numbered { .. } => NOTHING,
    }
}

// What it tells of where an owner leaves that consented to so many clients.
#[tactic(auto, using(crate::proofs::Changing::left_changed))]
fn left(owner: OwnerNo, clients: u32) -> Changed
    ensures { result ≡ what_changed (changes_of (as_list (Left owner clients))) }
{
    if clients == 0 {
        return NOTHING;
    }
    Changed {
        owner: Some(owner),
        scope: Some(ScopeSet::empty()),
        ..NOTHING
    }
}

/// What the first of some changes tells of that tells of it.
#[tactic(auto, using(crate::proofs::Changing::alone, crate::proofs::Changing::used_changed))]
pub(crate) fn what_changed(changes: &Changes<'_>) -> Changed
    ensures { result ≡ what_changed (changes_of (as_list changes.now)) }
{
    match changes {
        Changes::Nothing => NOTHING,
        Changes::One(change) => one_changed(change),
        Changes::Used { home, access, .. } => one_changed(&Change::Issued {
            home: *home,
            token: *access,
        }),
        Changes::Left { owner, clients } => left(*owner, *clients),
    }
}
