//! How long batches are, and until when they keep what was told by the clock.

ghost use Rattle.std.specs.Prelude.{◌++◌, ℕ, List, [], ◌∷◌};
ghost use Rattle.state_file.specs.Going.{HasMeasured};

use crate::horizons::{horizon_in, later};
use crate::sizes::size_behind;
use consent::Moment;

/// How long the batches are that were gone over, and until when they keep what was told by the clock.
#[derive(Drop)]
pub(crate) struct Measures {
    /// The greatest moment of their horizons.
    pub(crate) until: Moment,
    /// How many bytes their frames have.
    pub(crate) size: usize,
    /// How many these had up to the last batch that tells a number.
    pub(crate) shortened: usize,
}

impl Measures {
    /// Those of no batch.
    pub(crate) fn new() -> Measures
        ensures { HasMeasured [] result }
    {
        Measures {
            until: Moment::new(0),
            size: 0,
            shortened: 0,
        }
    }

    /// Measures a batch more.
    pub(crate) fn measure(&mut self, batch: &[u8])
        ensures { (batches : List (List ℕ)) → HasMeasured batches self.old → HasMeasured (batches ++ batch.now ∷ []) self.new }
    {
        let until = horizon_in(batch).unwrap_or(Moment::new(0));
        self.until = later(self.until, until);
        self.size = self.size.saturating_add(21 + batch.len());
        self.shortened = size_behind(batch, self.size, self.shortened);
    }
}
