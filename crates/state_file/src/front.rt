//! The batches of a file that were gone over, as a list that only clauses read and that takes no memory.

ghost use Rattle.std.specs.Prelude.{◌≡◌, ◌++◌, ℕ, List, [], ◌∷◌};
ghost use Rattle.std.specs.Borrow.{ftrue};

use std::marker::{Model, PhantomData};

/// The batches, the first one first.
#[derive(Drop)]
pub(crate) struct Front {
    marker: PhantomData<u8>,
    pub ghost batches: { List (List ℕ) },
}

impl Model for Front {
    ghost also_owns = { λ _. ftrue };
}

impl Front {
    /// No batch.
    pub(crate) fn new() -> Front
        ensures { result.batches ≡ [] }
    {
        Front {
            marker: PhantomData,
        }
    }

    /// Notes a batch.
    pub(crate) fn note(&mut self, _batch: &[u8])
        ensures { self.new.batches ≡ self.old.batches ++ _batch.now ∷ [] }
    {}
}
