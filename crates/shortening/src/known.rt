//! What is known of all changes that are to be shortened.

ghost use Rattle.std.specs.Prelude.{◌≡◌, ◌&&◌, Option, not};
ghost use Rattle.std.specs.List.{list_any};
ghost use Rattle.consent.specs.History.{is_within};
ghost use Rattle.shortening.specs.Known.{is_out_of, scopes_of};

use crate::unexpired::Unexpired;
use consent::{Parties, ScopeSet};
use std::collections::HashMap;

/// The scopes of the codes of families that live, by whose they are.
pub(crate) type Scopes = HashMap<Parties, Vec<ScopeSet>>;

/// What is known of all changes at a moment.
#[derive(Drop)]
pub struct Known {
    pub(crate) unexpired: Unexpired,
    pub(crate) scopes: Scopes,
}

// Whether the scope is not within what is kept.
fn is_out_of(scope: ScopeSet, kept: Option<ScopeSet>) -> bool
    ensures { result ≡ is_out_of scope kept }
{
    match kept {
        Some(kept) => !scope.is_within(kept),
        None => false,
    }
}

impl Known {
    /// Whether a code of the two whose family lives has a scope that is not within the mask, and is within what is kept.
    pub(crate) fn lowers_one(&self, two: &Parties, mask: ScopeSet, kept: Option<ScopeSet>) -> bool
        ensures { result ≡ list_any (λ scope. not (is_within scope mask) && not (is_out_of scope kept)) (scopes_of self.now.scopes.entries two.now) }
    {
        let Some(scopes) = self.scopes.get(two) else {
            return false;
        };
        scopes
            .iter()
            .any(|scope| !scope.is_within(mask) && !is_out_of(*scope, kept))
    }
}
