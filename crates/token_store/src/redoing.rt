//! The changes of a list are made again: what can stand in it need not be able to follow.
ghost use Rattle.std.specs.Prelude.{◌≡◌, ◌++◌, ◌&&◌, [], ◌∷◌, ℕ, None, Some, bytes_eq, is_some, max, option_map, IfErr, OnOk};
ghost use Rattle.std.specs.Map.{lookup};
ghost use Rattle.shelf.specs.Standing.{stand_entries};
ghost use Rattle.consent.specs.History.{with_change};
ghost use Rattle.consent.specs.Changes.{change_of, parties_of};
ghost use Rattle.token_store.specs.FitsParts.{are_kept};
ghost use Rattle.token_store.specs.Lists.{is_open_to, refused_by, standing_refusal, ForEachList, FitsList, RefusesAgain};
ghost use Rattle.token_store.specs.Records.{family_numbered, has_owner, turned, OwnerKey, kept_of, kept_under, shared_seen, ArePeopled, IsTied};
ghost use Rattle.token_store.specs.RecordsParts.{shared_or, AllLive, BecomesKnown, OthersStay, TellsSame};
ghost use Rattle.token_store.specs.Room.{held_of};

use crate::fault::AgainFault;
use crate::kin::Families;
use crate::record::{CodeTexts, Record, Shared};
use crate::tables::{Owners, Tables, turned};
use consent::{Change, Digest, Home, Moment, OwnerNo};
use std::alloc::{AllocError, Global};
use std::slice;

impl Tables {
    // Whether the family is unknown, or the home's and not ended.
    fn is_open_to(&self, home: &Home) -> bool
        ensures { result ≡ is_open_to (parties_of home.now) (option_map shared_seen (family_numbered self.now.families.entries home.now.family)) }
    {
        let Some(shared) = self.families.get(home.family) else {
            return true;
        };
        shared.client == home.client
            && shared.owner == OwnerNo::number_of(home.owner)
            && !shared.ended
    }

    // Why a code or token of the digest cannot stand next, in a family that it can be of or cannot.
    fn gift_refusal(&self, can_be: bool, digest: &Digest, moment: Moment) -> Option<AgainFault>
        requires { IsTied self.now }
        ensures { result ≡ refused_by can_be (are_kept (kept_of self.now) moment (digest.now ∷ [])) }
    {
        if !can_be {
            return Some(AgainFault::Unknown);
        }
        let is_taken = self.is_taken(slice::from_ref(digest), moment);
        is_taken.then_some(AgainFault::DrawTaken)
    }

    // Why the change cannot stand next.
    fn standing_refusal(&self, change: &Change<'_>, moment: Moment) -> Option<AgainFault>
        requires { IsTied self.now }
        ensures { ForEachList (held_of self.now) moment (λ list. result ≡ standing_refusal list moment change.now) }
    {
        match change {
            Change::CodeGiven { family, digest, .. } => {
                self.gift_refusal(self.last < *family, digest, moment)
            }
            Change::Issued { home, token } => {
                self.gift_refusal(self.is_open_to(home), &token.digest, moment)
            }
            Change::FamilyEnded { family } if self.families.get(*family).is_none() => {
                Some(AgainFault::Unknown)
            }
            _ => None,
        }
    }

    // Opens the family, if it is not there.
    fn open_home(&mut self, number: u64, shared: Shared) -> Result<(), AllocError>
        requires tied { IsTied self.old }
        requires empty { shared.count ≡ 0 }
        requires fresh { shared.until ≡ 0 }
        ensures tied { IsTied self.new }
        ensures here { OnOk result (family_numbered self.new.families.entries number ≡ Some (shared_or self.old.families.entries number shared)) }
        ensures others { OthersStay self.old.families.entries self.new.families.entries number }
        ensures same { kept_of self.new ≡ kept_of self.old }
        ensures beside { self.new ≡ record self.old { families = self.new.families; owners = self.new.owners } }
    {
        if self.families.get(number).is_some() {
            return Ok(());
        }
        self.open_family(number, shared)
    }

    // Keeps the record in its family, which is opened if it is not there.
    fn keep_again(
        &mut self,
        alloc: Global,
        shared: Shared,
        digest: &Digest,
        new: Record,
    ) -> Result<(), AllocError>
        requires tied { IsTied self.old }
        requires empty { shared.count ≡ 0 }
        requires fresh { shared.until ≡ 0 }
        ensures tied { IsTied self.new }
        ensures coming { self.new.coming ≡ self.old.coming }
        ensures last { OnOk result (self.new.last ≡ max self.old.last new.family) }
        ensures known { OnOk result (lookup (bytes_eq digest.now) (stand_entries self.old.records) ≡ None →
            BecomesKnown self.old.families.entries self.new.families.entries new.family shared) }
        ensures keeps { OnOk result ((m : ℕ) → lookup (bytes_eq digest.now) (stand_entries self.old.records) ≡ None →
            TellsSame (kept_of self.old ++ kept_under (shared_or self.old.families.entries new.family shared) digest.now new ∷ []) (kept_of self.new) m) }
    {
        self.make_room(alloc, 1)?;
        self.open_home(new.family, shared)?;
        self.pass(new.family);
        self.put(digest, new);
        Ok(())
    }

    // Makes a change that can stand next, where nothing has expired.
    fn redo_standing(
        &mut self,
        alloc: Global,
        change: &Change<'_>,
        moment: Moment,
    ) -> Result<(), AllocError>
        requires tied { IsTied self.old }
        requires live { AllLive (stand_entries self.old.records) moment }
        ensures tied { IsTied self.new }
        ensures redone { OnOk result (ForEachList (held_of self.old) moment (λ list. standing_refusal list moment change.now ≡ None →
            FitsList (held_of self.new) (with_change list moment (change_of change.now)) moment)) }
    {
        match change {
            Change::CodeGiven {
                family,
                facts,
                digest,
            } => {
                let texts = CodeTexts::of(alloc, facts)?;
                let record = Record::of_code(texts, facts, moment, *family);
                self.keep_again(alloc, Shared::of_code(facts), digest, record)
            }
            Change::Issued { home, token } => {
                let record = Record::of_token(token, moment, home);
                self.keep_again(alloc, Shared::of_home(home), &token.digest, record)
            }
            _ => {
                self.alter(change, moment);
                Ok(())
            }
        }
    }

    /// Makes a change of a list again. What has expired goes before.
    pub(crate) fn redo(
        &mut self,
        alloc: Global,
        change: &Change<'_>,
        moment: Moment,
    ) -> Result<(), AgainFault>
        requires { IsTied self.old }
        ensures tied { IsTied self.new }
        ensures redone { OnOk result (ForEachList (held_of self.old) moment (λ list.
            FitsList (held_of self.new) (with_change list moment (change_of change.now)) moment)) }
        ensures stands { OnOk result (ForEachList (held_of self.old) moment (λ list. standing_refusal list moment change.now ≡ None)) }
        ensures refused { IfErr result (RefusesAgain (held_of self.old) moment change.now) }
    {
        self.drop_expired(moment, true);
        if let Some(fault) = self.standing_refusal(change, moment) {
            return Err(fault);
        }
        let Ok(()) = self.redo_standing(alloc, change, moment) else {
            return Err(AgainFault::Memory);
        };
        Ok(())
    }

    /// Lets go of the families without records.
    pub(crate) fn settle(&mut self)
        requires { IsTied self.old }
        ensures tied { IsTied self.new }
        ensures same { kept_of self.new ≡ kept_of self.old }
        ensures last { self.new.last ≡ self.old.last }
        ensures peopled { ArePeopled self.new.families.entries }
    {
        self.families.keep_peopled();
        keep_known(&mut self.owners, &self.families);
    }
}

// Lets go of the families in the index that are not there.
fn keep_known(owners: &mut Owners, families: &Families)
    ensures { (key : OwnerKey) → has_owner owners.new.keys key ≡ has_owner owners.old.keys key && is_some (family_numbered families.now.entries (turned key.1)) }
{
    owners.retain(|(_, place)| families.get(turned(*place)).is_some());
}
