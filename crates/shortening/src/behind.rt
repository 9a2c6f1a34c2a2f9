//! What is known of the changes behind one.

ghost use Rattle.std.specs.Prelude.{◌≡◌, ◌∷◌, ◌&&◌, ℕ, List, [], Bool, true, not, OnOk};
ghost use Rattle.std.specs.List.{list_any};
ghost use Rattle.std.specs.Map.{lookup};
ghost use Rattle.consent.specs.Consents.{is_parties};
ghost use Rattle.consent.specs.Changes.{change_of};
ghost use Rattle.consent.specs.History.{Event, event_at, is_within, lives};
ghost use Rattle.consent.specs.History.Change.{CodeGiven, Consented};
ghost use Rattle.consent.specs.Facts.{code_of};
ghost use Rattle.change_codec.specs.Spelling.{dated_fact};
ghost use Rattle.shortening.specs.Known.{IsBehind, IsKnown, has_family, is_out_of, scopes_of};
ghost use Rattle.shortening.specs.Shortened.{is_needless};

use crate::known::Known;
use crate::unexpired::{Unexpired, is_good};
use change_codec::DatedChange;
use consent::{CODE_LIFE, Change, CodeFacts, Moment, Parties, ScopeSet};
use std::alloc::{AllocError, Global};
use std::collections::{HashMap, HashSet};

/// What is known of the changes behind one.
#[derive(Drop)]
pub(crate) struct Behind {
    /// The two whose next consent comes before the next code of theirs whose family lives.
    pub(crate) superseded: HashSet<Parties>,
    /// What all consents of the two are to.
    pub(crate) kept: HashMap<Parties, ScopeSet>,
    /// The names of hooks that are taken away.
    pub(crate) gone: HashSet<String>,
}

impl Behind {
    /// What is known where there are none.
    pub(crate) fn new(alloc: Global) -> Self
        ensures { (family_stays : ℕ → Bool) → IsBehind family_stays result [] }
    {
        Behind {
            superseded: HashSet::new(alloc),
            kept: HashMap::new(alloc),
            gone: HashSet::new(alloc),
        }
    }

    // Whether a consent of the two to the mask lowers a family that lives, and no consent behind lowers it.
    fn lowers_one(&self, known: &Known, two: &Parties, mask: ScopeSet) -> bool
        ensures { result ≡ list_any (λ scope. not (is_within scope mask) && not (is_out_of scope (lookup (is_parties two.now) self.now.kept.entries)))
            (scopes_of known.now.scopes.entries two.now) }
    {
        let kept = self.kept.get(two).copied();
        if let Some(kept) = kept
            && kept.is_within(mask)
        {
            return false;
        }
        known.lowers_one(two, mask, kept)
    }

    // Whether a consent of the two no longer matters.
    fn is_consent_needless(&self, known: &Known, two: &Parties, mask: ScopeSet) -> bool
        ensures { (history later : List Event) (m moment : ℕ) → IsKnown known.now history m → IsBehind (lives history m) self.now later →
            result ≡ is_needless history m moment (Consented two.now.owner two.now.client mask) later }
    {
        self.superseded.contains(two) && !self.lowers_one(known, two, mask)
    }

    /// Whether the change no longer matters at the moment.
    pub(crate) fn is_needless(&self, known: &Known, moment: Moment, dated: &DatedChange<'_>) -> bool
        ensures { (history later : List Event) → IsKnown known.now history moment → IsBehind (lives history moment) self.now later →
            result ≡ is_needless history moment dated.now.moment (change_of dated.now.change) later }
    {
        let unexpired = &known.unexpired;
        match &dated.change {
            Change::Consented {
                owner,
                client,
                mask,
            } => {
                let two = Parties {
                    owner: *owner,
                    client: *client,
                };
                self.is_consent_needless(known, &two, *mask)
            }
            Change::CodeGiven { family, .. } => {
                !unexpired.lives(*family) && !is_good(dated.moment, CODE_LIFE, moment)
            }
            Change::Issued { token, .. } => !is_good(dated.moment, token.life, moment),
            Change::Spent { digest } => !unexpired.names(digest),
            Change::FamilyEnded { family } => !unexpired.lives(*family),
            Change::HookSet { name, .. } => self.gone.contains(*name),
            Change::HookGone { .. } | Change::Numbered { .. } => true,
        }
    }

    // What all consents of the two are to, with one more to the mask.
    fn kept_with(&self, two: &Parties, mask: ScopeSet) -> ScopeSet
        ensures { (scope : ℕ) → is_within scope result ≡
            (is_within scope mask && not (is_out_of scope (lookup (is_parties two.now) self.now.kept.entries))) }
    {
        match self.kept.get(two) {
            Some(kept) => ScopeSet::new(kept.bits() & mask.bits()),
            None => mask,
        }
    }

    // Notes a consent of the two.
    fn note_consent(&mut self, two: Parties, mask: ScopeSet) -> Result<(), AllocError>
        ensures { OnOk result ((family_stays : ℕ → Bool) (moment : ℕ) (later : List Event) → IsBehind family_stays self.old later →
            IsBehind family_stays self.new (event_at moment (Consented two.owner two.client mask) ∷ later)) }
    {
        let kept = self.kept_with(&two, mask);
        self.superseded.insert(two)?;
        self.kept.insert(two, kept)?;
        Ok(())
    }

    // Notes a code of a family that lives.
    fn note_code(&mut self, facts: &CodeFacts<'_>)
        ensures { (family_stays : ℕ → Bool) (moment family : ℕ) (digest : List ℕ) (later : List Event) → family_stays family ≡ true →
            IsBehind family_stays self.old later → IsBehind family_stays self.new (event_at moment (CodeGiven family (code_of facts.now) digest) ∷ later) }
    {
        let _ = self.superseded.remove(&Parties {
            owner: facts.owner,
            client: facts.client,
        });
    }

    /// Notes the change, which stands before the others.
    pub(crate) fn note(
        &mut self,
        alloc: Global,
        unexpired: &Unexpired,
        dated: &DatedChange<'_>,
    ) -> Result<(), AllocError>
        ensures { OnOk result ((family_stays : ℕ → Bool) (later : List Event) →
            ((family : ℕ) → has_family unexpired.now family ≡ family_stays family) → IsBehind family_stays self.old later →
            IsBehind family_stays self.new (dated_fact dated.now ∷ later)) }
    {
        match &dated.change {
            Change::Consented {
                owner,
                client,
                mask,
            } => {
                let two = Parties {
                    owner: *owner,
                    client: *client,
                };
                self.note_consent(two, *mask)?;
            }
            Change::CodeGiven { family, facts, .. } => {
                if unexpired.lives(*family) {
                    self.note_code(facts);
                }
            }
            Change::HookGone { name } => {
                let name = String::from_str(alloc, name)?;
                self.gone.insert(name)?;
            }
            _ => {}
        }
        Ok(())
    }
}
