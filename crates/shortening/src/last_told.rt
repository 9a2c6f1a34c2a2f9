//! The last moment and the greatest number of a family that changes tell.

ghost use Rattle.std.specs.Prelude.{◌≡◌, ◌++◌, ◌∷◌, List, [], unwrap_or};
ghost use Rattle.consent.specs.Changes.{change_of};
ghost use Rattle.consent.specs.History.{Event, event_at, family_of};
ghost use Rattle.consent.specs.History.Change.{Numbered};
ghost use Rattle.change_codec.specs.Spelling.{dated_fact, dated_facts};
ghost use Rattle.shortening.specs.Steps.{TellsLast};

use change_codec::DatedChange;
use consent::{Change, Moment};

/// The last moment and the greatest number of a family that the changes so far tell.
#[derive(Drop)]
pub struct LastTold {
    /// 0 where there was no change.
    pub moment: Moment,
    /// 0 where none named a family.
    pub number: u64,
}

// The number of a family that the change names, 0 where it names none.
fn number_in(change: &Change<'_>) -> u64
    ensures { result ≡ unwrap_or (family_of (change_of change.now)) 0 }
{
    match change {
        Change::CodeGiven { family, .. } => *family,
        Change::Issued { home, .. } => home.family,
        Change::FamilyEnded { family } => *family,
        Change::Numbered { last } => *last,
        Change::Consented { .. }
        | Change::Spent { .. }
        | Change::HookSet { .. }
        | Change::HookGone { .. } => 0,
    }
}

impl LastTold {
    /// What is told where there are no changes.
    pub fn new() -> Self
        ensures { TellsLast result [] }
    {
        LastTold {
            moment: Moment::new(0),
            number: 0,
        }
    }

    /// Notes the change, which stands behind the others.
    pub fn note(&mut self, dated: &DatedChange<'_>)
        ensures { (events : List Event) → TellsLast self.old events → TellsLast self.new (events ++ dated_fact dated.now ∷ []) }
    {
        self.moment = dated.moment;
        self.number = self.number.max(number_in(&dated.change));
    }

    /// What the changes tell.
    pub fn of(changes: &[DatedChange<'_>]) -> Self
        ensures { TellsLast result (dated_facts changes.now) }
    {
        let mut told = LastTold::new();
        for dated in changes {
            told.note(dated);
        }
        told
    }

    /// The change that tells the number at the moment.
    pub fn numbered(&self) -> DatedChange<'static>
        ensures { dated_fact result ≡ event_at self.now.moment (Numbered self.now.number) }
    {
        DatedChange {
            moment: self.moment,
            change: Change::Numbered { last: self.number },
        }
    }
}
