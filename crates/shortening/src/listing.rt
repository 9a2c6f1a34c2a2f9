//! The scopes of codes, listed change by change.

ghost use Rattle.std.specs.Prelude.{◌≡◌, ◌++◌, ◌∷◌, ℕ, List, [], OnOk, if◌then◌else◌};
ghost use Rattle.consent.specs.Consents.{is_parties};
ghost use Rattle.consent.specs.History.{Event};
ghost use Rattle.consent.specs.declared.parties.Parties.{Parties};
ghost use Rattle.change_codec.specs.Spelling.{dated_fact};
ghost use Rattle.shortening.specs.Known.{IsKnown, ListsCodes, NotesUnexpired, has_family, scopes_of};
ghost use Rattle.shortening.specs.Steps.{IsListing};

use crate::known::{Known, Scopes};
use crate::unexpired::Unexpired;
use change_codec::DatedChange;
use consent::{Change, Parties, ScopeSet};
use std::alloc::{AllocError, Global};
use std::collections::{HashMap, HashSet};

/// What is unexpired of changes, and the scopes of the codes so far of families that live.
#[derive(Drop)]
pub struct Listing {
    pub(crate) alloc: Global,
    pub(crate) unexpired: Unexpired,
    /// The families whose codes were listed.
    pub(crate) coded: HashSet<u64>,
    pub(crate) scopes: Scopes,
}

// Lists the scope behind those of the two.
fn list_scope(
    listed: &mut Scopes,
    alloc: Global,
    two: Parties,
    scope: ScopeSet,
) -> Result<(), AllocError>
    ensures { OnOk result ((other : Parties) → scopes_of listed.new.entries other ≡
        scopes_of listed.old.entries other ++ (if is_parties other two then scope ∷ [] else [])) }
{
    let mut scopes = match listed.remove(&two) {
        Some(scopes) => scopes,
        None => Vec::new(alloc),
    };
    scopes.push(scope)?;
    listed.insert(two, scopes)?;
    Ok(())
}

// Lists the scope of the change, if it is the first code of a family that lives.
fn list_code(
    listed: &mut Scopes,
    coded: &mut HashSet<u64>,
    alloc: Global,
    unexpired: &Unexpired,
    dated: &DatedChange<'_>,
) -> Result<(), AllocError>
    ensures { OnOk result ((events : List Event) →
        ListsCodes (has_family unexpired.now) coded.old.keys listed.old.entries events →
        ListsCodes (has_family unexpired.now) coded.new.keys listed.new.entries (events ++ dated_fact dated.now ∷ [])) }
{
    let Change::CodeGiven { family, facts, .. } = &dated.change else {
        return Ok(());
    };
    if !unexpired.lives(*family) {
        return Ok(());
    }
    if !coded.insert(*family)? {
        return Ok(());
    }
    let two = Parties {
        owner: facts.owner,
        client: facts.client,
    };
    list_scope(listed, alloc, two, facts.scope)?;
    Ok(())
}

impl Listing {
    /// No code is listed yet of the changes of which this is unexpired.
    pub fn of(alloc: Global, unexpired: Unexpired) -> Self
        ensures { (history : List Event) (m : ℕ) → NotesUnexpired unexpired history m → IsListing result history m [] }
    {
        Listing {
            alloc,
            unexpired,
            coded: HashSet::new(alloc),
            scopes: HashMap::new(alloc),
        }
    }

    /// Lists the change's scope, if it is the first code of a family that lives. It stands behind the others.
    pub fn list(&mut self, dated: &DatedChange<'_>) -> Result<(), AllocError>
        ensures { OnOk result ((history events : List Event) (m : ℕ) → IsListing self.old history m events →
            IsListing self.new history m (events ++ dated_fact dated.now ∷ [])) }
    {
        list_code(
            &mut self.scopes,
            &mut self.coded,
            self.alloc,
            &self.unexpired,
            dated,
        )
    }

    /// What is known of the changes, where all are listed.
    pub fn known(self) -> Known
        ensures { (history : List Event) (m : ℕ) → IsListing self history m history → IsKnown result history m }
    {
        Known {
            unexpired: self.unexpired,
            scopes: self.scopes,
        }
    }
}
