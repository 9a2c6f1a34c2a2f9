//! What has expired goes.
ghost use Rattle.std.specs.Prelude.{◌≡◌, ◌<◌, ◌≤◌, ◌⊎◌, ◌+◌, true, length, IfNone, IfSome};
ghost use Rattle.shelf.specs.Standing.{stand_entries, stand_to_look};
ghost use Rattle.token_store.specs.Records.{IsTied, kept_of};
ghost use Rattle.token_store.specs.RecordsParts.{AllLive, SeenSame, TellsSame};

use crate::tables::{Tables, leave};
use consent::Moment;
use shelf::Look;

/// How many records are let go of in one portion.
const PORTION: usize = 64;

impl Tables {
    /// Lets go of the records that have expired, and of the families without records, unless it
    /// keeps them.
    pub(crate) fn drop_expired(&mut self, moment: Moment, keeps: bool)
        requires { IsTied self.old }
        ensures tied { IsTied self.new }
        ensures last { self.new.last ≡ self.old.last }
        ensures coming { self.new.coming ≡ self.old.coming }
        ensures same { TellsSame (kept_of self.old) (kept_of self.new) moment }
        ensures live { AllLive (stand_entries self.new.records) moment }
        ensures stay { keeps ≡ true → SeenSame self.old.families.entries self.new.families.entries }
    {
        while let Some(_) = self.look_once(moment, keeps) {}
    }

    /// Lets go of some of the records that have expired, and of the families without records: of all, or
    /// of a portion.
    pub(crate) fn drop_some(&mut self, moment: Moment)
        requires { IsTied self.old }
        ensures tied { IsTied self.new }
        ensures last { self.new.last ≡ self.old.last }
        ensures same { TellsSame (kept_of self.old) (kept_of self.new) moment }
        ensures live { AllLive (stand_entries self.new.records) moment ⊎ length (stand_entries self.new.records) + 64 ≤ length (stand_entries self.old.records) }
    {
        let mut left = PORTION;
        while left > 0 {
            let Some(gone) = self.look_once(moment, false) else {
                return;
            };
            left -= gone;
        }
    }

    // Looks at one of the records that may have expired, and lets go of it if it has, and of its family
    // with the last, unless it keeps that: how many went, unless there is none to look at.
    fn look_once(&mut self, moment: Moment, keeps: bool) -> Option<usize>
        requires { IsTied self.old }
        ensures tied { IsTied self.new }
        ensures last { self.new.last ≡ self.old.last }
        ensures coming { self.new.coming ≡ self.old.coming }
        ensures same { TellsSame (kept_of self.old) (kept_of self.new) moment }
        ensures live { IfNone result (AllLive (stand_entries self.new.records) moment) }
        ensures fewer { IfSome result (λ gone. length (stand_entries self.new.records) + gone ≡ length (stand_entries self.old.records)) }
        ensures stay { keeps ≡ true → SeenSame self.old.families.entries self.new.families.entries }
        ensures one { IfSome result (λ gone. gone ≤ 1) }
        ensures goes { IfSome result (λ gone. stand_to_look self.new.records moment < stand_to_look self.old.records moment) }
    {
        match self.records.look(moment) {
            Look::Gone(expired) => {
                self.swept = self.swept.max(moment.get());
                leave(&mut self.families, &mut self.owners, expired.family, keeps);
                Some(1)
            }
            Look::More => Some(0),
            Look::Done => None,
        }
    }
}
