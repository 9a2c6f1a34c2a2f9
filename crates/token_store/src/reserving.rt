//! Room for changes.
ghost use Rattle.std.specs.Prelude.{◌≡◌, ◌⊎◌, ℕ, List, [], ◌∷◌, None, OnOk, option_map};
ghost use Rattle.shelf.specs.Standing.{stand_entries};
ghost use Rattle.consent.specs.Changes.{as_list};
ghost use Rattle.consent.specs.declared.change.Change.{Change};
ghost use Rattle.token_store.specs.Records.{IsTied, kept_of, texts_seen};
ghost use Rattle.token_store.specs.RecordsParts.{TellsSame};
ghost use Rattle.token_store.specs.Room.{records_by, records_of, HasRoomFor, HasSpare, IsExpected, IsPeopled, IsReady, room_of};

use crate::record::{CodeTexts, Shared};
use crate::tables::{Coming, Tables, close};
use consent::{Change, Changes};
use std::alloc::{AllocError, Global};

// How many codes and tokens the change gives.
fn records_by(change: &Change<'_>) -> usize
    ensures value { result ≡ records_by change.now }
{
    match change {
        Change::CodeGiven { .. } | Change::Issued { .. } => 1,
        _ => 0,
    }
}

// How many codes and tokens the changes give.
fn records_of(changes: &Changes<'_>) -> usize
    ensures { result ≡ records_of (as_list changes.now) }
{
    match changes {
        Changes::Nothing => 0,
        Changes::One(one) => records_by(one),
        Changes::Used { refresh, .. } => 1 + usize::from(refresh.is_some()),
        Changes::Left { .. } => 0,
    }
}

impl Tables {
    // Lets go of the family that nothing came to.
    fn forget_coming(&mut self)
        requires tied { IsTied self.old }
        ensures tied { IsTied self.new }
        ensures same { kept_of self.new ≡ kept_of self.old }
        ensures none { self.new.coming ≡ None }
        ensures last { self.new.last ≡ self.old.last }
    {
        let Some(coming) = self.coming.take() else {
            return;
        };
        if !self.is_peopled(coming.number) {
            close(&mut self.families, &mut self.owners, coming.number);
        }
    }

    // Opens a family without records for what is about to come, unless it has some.
    fn expect(
        &mut self,
        number: u64,
        shared: Shared,
        texts: Option<Box<CodeTexts>>,
    ) -> Result<(), AllocError>
        requires tied { IsTied self.old }
        requires empty { shared.count ≡ 0 }
        requires fresh { shared.until ≡ 0 }
        requires none { self.old.coming ≡ None }
        ensures tied { IsTied self.new }
        ensures same { kept_of self.new ≡ kept_of self.old }
        ensures records { self.new.records ≡ self.old.records }
        ensures last { self.new.last ≡ self.old.last }
        ensures expected { OnOk result (IsExpected (room_of self.new) number shared (option_map texts_seen texts) ⊎ IsPeopled (room_of self.new) number) }
    {
        if self.is_peopled(number) {
            return Ok(());
        }
        self.open_family(number, shared)?;
        self.coming = Some(Coming { number, texts });
        Ok(())
    }

    // Makes ready for a change.
    fn prepare(&mut self, alloc: Global, change: &Change<'_>) -> Result<(), AllocError>
        requires tied { IsTied self.old }
        requires none { self.old.coming ≡ None }
        ensures tied { IsTied self.new }
        ensures same { kept_of self.new ≡ kept_of self.old }
        ensures records { self.new.records ≡ self.old.records }
        ensures last { self.new.last ≡ self.old.last }
        ensures ready { OnOk result (IsReady (room_of self.new) (change.now ∷ [])) }
    {
        match change {
            Change::CodeGiven { family, facts, .. } => {
                let texts = CodeTexts::of(alloc, facts)?;
                self.expect(*family, Shared::of_code(facts), Some(texts))
            }
            Change::Issued { home, .. } => self.expect(home.family, Shared::of_home(home), None),
            _ => Ok(()),
        }
    }

    /// Takes the memory for so many records more.
    pub(crate) fn make_room(&mut self, alloc: Global, more: usize) -> Result<(), AllocError>
        requires { IsTied self.old }
        ensures tied { IsTied self.new }
        ensures same { (moment : ℕ) → TellsSame (kept_of self.old) (kept_of self.new) moment }
        ensures families { self.new.families ≡ self.old.families }
        ensures coming { self.new.coming ≡ self.old.coming }
        ensures last { self.new.last ≡ self.old.last }
        ensures found { stand_entries self.new.records ≡ stand_entries self.old.records }
        ensures room { OnOk result (HasSpare (room_of self.new) more) }
    {
        self.records.reserve(alloc, more)
    }

    /// Takes the memory that the changes need.
    pub(crate) fn reserve(&mut self, alloc: Global, changes: &Changes<'_>) -> Result<(), AllocError>
        requires tied { IsTied self.old }
        ensures tied { IsTied self.new }
        ensures last { self.new.last ≡ self.old.last }
        ensures same { (moment : ℕ) → TellsSame (kept_of self.old) (kept_of self.new) moment }
        ensures room { OnOk result (HasRoomFor (room_of self.new) (as_list changes.now)) }
    {
        let count = records_of(changes);
        self.forget_coming();
        self.make_room(alloc, count)?;
        match changes {
            Changes::Nothing => Ok(()),
            Changes::One(one) => self.prepare(alloc, one),
            Changes::Used { home, .. } => self.expect(home.family, Shared::of_home(home), None),
            Changes::Left { .. } => Ok(()),
        }
    }
}
