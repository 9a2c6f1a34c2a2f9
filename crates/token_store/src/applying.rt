//! Changes are made.
ghost use Rattle.std.specs.Prelude.{◌≡◌, ◌≤◌, ◌+◌, [], ◌∷◌};
ghost use Rattle.consent.specs.Changes.{as_list, change_of};
ghost use Rattle.consent.specs.declared.change.Change.{Change};
ghost use Rattle.consent.specs.declared.change.Changes.{Changes};
ghost use Rattle.token_store.specs.Fits.{MakesChanges};
ghost use Rattle.token_store.specs.FitsParts.{Alters, MakesChange};
ghost use Rattle.token_store.specs.Records.{IsTied};
ghost use Rattle.token_store.specs.RecordsParts.{HasAltered, HasEnded, HasLowered};
ghost use Rattle.token_store.specs.Room.{records_by, HasRoomFor, HasSpare, IsPeopled, IsReady, held_of, room_of};

use crate::record::{Record, Shared};
use crate::tables::{Coming, Tables, end_one, lower_all};
use consent::{
    Change, Changes, ClientNo, CodeFacts, Digest, Home, Moment, NewToken, OwnerNo, ScopeSet,
};

impl Tables {
    // Gives a code.
    fn give_code(&mut self, family: u64, facts: &CodeFacts<'_>, digest: &Digest, moment: Moment)
        requires tied { IsTied self.old }
        requires room { HasRoomFor (room_of self.old) (Change.CodeGiven family facts.now digest.now ∷ []) }
        ensures tied { IsTied self.new }
        ensures makes { MakesChange (held_of self.old) (held_of self.new) moment (Change.CodeGiven family facts.now digest.now) }
    {
        // Only a family that has records is not waited for: nothing opens that again.
        let Some(Coming { texts, .. }) = self.coming.take() else {
            return;
        };
        let Some(texts) = texts else { unreachable!() };
        self.pass(family);
        let record = Record::of_code(texts, facts, moment, family);
        self.put_expected(Shared::of_code(facts), digest, record);
    }

    // Issues a token in a family that waits for it, or that has records.
    fn issue(&mut self, home: &Home, token: &NewToken, moment: Moment)
        requires tied { IsTied self.old }
        requires room { HasSpare (room_of self.old) 1 }
        requires ready { IsReady (room_of self.old) (Change.Issued home.now token.now ∷ []) }
        ensures tied { IsTied self.new }
        ensures makes { MakesChange (held_of self.old) (held_of self.new) moment (Change.Issued home.now token.now) }
        ensures room { (room_of self.old).records ≤ (room_of self.new).records + 1 }
        ensures peopled { IsPeopled (room_of self.new) home.now.family }
    {
        self.pass(home.family);
        let record = Record::of_token(token, moment, home);
        if self.coming.is_some() {
            self.coming = None;
            self.put_expected(Shared::of_home(home), &token.digest, record);
        } else {
            self.put(&token.digest, record);
        }
    }

    // What has the digest is spent.
    fn spend_at(&mut self, digest: &Digest, moment: Moment)
        requires tied { IsTied self.old }
        ensures tied { IsTied self.new }
        ensures alters { Alters (held_of self.old) (held_of self.new) moment (Change.Spent digest.now) }
        ensures families { self.new.families ≡ self.old.families }
        ensures coming { self.new.coming ≡ self.old.coming }
    {
        if self.record_at(digest, moment).is_some() {
            self.records.spend(digest);
        }
    }

    // Ends the family.
    fn end(&mut self, family: u64, moment: Moment)
        requires tied { IsTied self.old }
        ensures tied { IsTied self.new }
        ensures alters { Alters (held_of self.old) (held_of self.new) moment (Change.FamilyEnded family) }
        ensures families { HasEnded self.old.families.entries self.new.families.entries family }
        ensures coming { self.new.coming ≡ self.old.coming }
    {
        let _ = moment;
        self.pass(family);
        end_one(&mut self.families, &mut self.owners, family);
    }

    // The owner consents to the client's having the scope: of the two's families, those of more end.
    fn lower(&mut self, owner: OwnerNo, client: ClientNo, mask: ScopeSet, moment: Moment)
        requires tied { IsTied self.old }
        ensures tied { IsTied self.new }
        ensures alters { Alters (held_of self.old) (held_of self.new) moment (Change.Consented owner client mask) }
        ensures families { HasLowered self.old.families.entries self.new.families.entries owner client mask }
        ensures coming { self.new.coming ≡ self.old.coming }
    {
        let _ = moment;
        let parties = (owner.get(), client.get());
        lower_all(&mut self.families, &mut self.owners, parties, mask);
    }

    /// Makes a change that gives nothing.
    pub(crate) fn alter(&mut self, change: &Change<'_>, moment: Moment)
        requires tied { IsTied self.old }
        requires none { records_by change.now ≡ 0 }
        ensures tied { IsTied self.new }
        ensures alters { Alters (held_of self.old) (held_of self.new) moment change.now }
        ensures families { HasAltered self.old.families.entries self.new.families.entries (change_of change.now) }
        ensures coming { self.new.coming ≡ self.old.coming }
    {
        match change {
            Change::Consented {
                owner,
                client,
                mask,
            } => self.lower(*owner, *client, *mask, moment),
            Change::Spent { digest } => self.spend_at(digest, moment),
            Change::FamilyEnded { family } => self.end(*family, moment),
            Change::Numbered { last } => self.pass(*last),
            Change::HookSet { .. } => {}
            Change::HookGone { .. } => {}
            Change::CodeGiven { .. } | Change::Issued { .. } => unreachable!(),
        }
    }

    // Makes a change.
    fn apply_one(&mut self, change: &Change<'_>, moment: Moment)
        requires tied { IsTied self.old }
        requires room { HasRoomFor (room_of self.old) (change.now ∷ []) }
        ensures tied { IsTied self.new }
        ensures makes { MakesChange (held_of self.old) (held_of self.new) moment change.now }
    {
        match change {
            Change::CodeGiven {
                family,
                facts,
                digest,
            } => self.give_code(*family, facts, digest, moment),
            Change::Issued { home, token } => self.issue(home, token, moment),
            _ => self.alter(change, moment),
        }
    }

    // The owner consents to nothing, to each client up to the number.
    fn leave(&mut self, owner: OwnerNo, clients: u32, moment: Moment)
        requires tied { IsTied self.old }
        ensures tied { IsTied self.new }
        ensures makes { MakesChanges (held_of self.old) (held_of self.new) moment (as_list (Changes.Left owner clients)) }
    {
        let mut done = 0;
        while done < clients {
            done += 1;
            self.lower(owner, ClientNo::new(done), ScopeSet::empty(), moment);
        }
    }

    /// Makes the changes, which room was made for.
    pub(crate) fn apply(&mut self, changes: &Changes<'_>, moment: Moment)
        requires tied { IsTied self.old }
        requires room { HasRoomFor (room_of self.old) (as_list changes.now) }
        ensures tied { IsTied self.new }
        ensures makes { MakesChanges (held_of self.old) (held_of self.new) moment (as_list changes.now) }
    {
        match changes {
            Changes::Nothing => {}
            Changes::One(one) => self.apply_one(one, moment),
            Changes::Used {
                of,
                home,
                access,
                refresh,
            } => {
                self.issue(home, access, moment);
                if let Some(refresh) = refresh {
                    self.issue(home, refresh, moment);
                }
                self.spend_at(of, moment);
            }
            Changes::Left { owner, clients } => self.leave(*owner, *clients, moment),
        }
    }
}
