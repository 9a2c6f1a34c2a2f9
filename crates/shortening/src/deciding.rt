//! Of each change whether it stays, from the last one on.

ghost use Rattle.std.specs.Prelude.{◌∷◌, ℕ, List, [], OnOk};
ghost use Rattle.consent.specs.History.{Event};
ghost use Rattle.change_codec.specs.Spelling.{dated_fact};
ghost use Rattle.shortening.specs.Known.{IsKnown};
ghost use Rattle.shortening.specs.Steps.{IsDeciding, IsLeaving, keeps_of};

use crate::behind::Behind;
use crate::known::Known;
use crate::leaving::Leaving;
use change_codec::DatedChange;
use consent::Moment;
use std::alloc::{AllocError, Global};

/// Of each of the last changes whether it stays, the last one first.
#[derive(Drop)]
pub struct Deciding {
    pub(crate) alloc: Global,
    pub(crate) known: Known,
    pub(crate) moment: Moment,
    pub(crate) behind: Behind,
    pub(crate) keeps: Vec<bool>,
}

impl Deciding {
    /// No change is decided yet.
    pub fn of(alloc: Global, known: Known, moment: Moment) -> Self
        ensures { (history : List Event) → IsKnown known history moment → IsDeciding result history moment [] }
    {
        Deciding {
            alloc,
            known,
            moment,
            behind: Behind::new(alloc),
            keeps: Vec::new(alloc),
        }
    }

    /// Decides whether the change stays, which stands before the others.
    pub fn decide(&mut self, dated: &DatedChange<'_>) -> Result<(), AllocError>
        ensures { OnOk result ((history later : List Event) (m : ℕ) → IsDeciding self.old history m later →
            IsDeciding self.new history m (dated_fact dated.now ∷ later)) }
    {
        let keep = !self.behind.is_needless(&self.known, self.moment, dated);
        self.keeps.push(keep)?;
        self.behind.note(self.alloc, &self.known.unexpired, dated)?;
        Ok(())
    }

    /// What says of each change that was decided whether it stays, from the first one on.
    pub fn leaving(self) -> Leaving
        ensures { (history later : List Event) (m : ℕ) → IsDeciding self history m later → IsLeaving result (keeps_of m history later) }
    {
        Leaving { keeps: self.keeps }
    }
}
