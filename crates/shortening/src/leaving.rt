//! Of each change whether it stays, from the first one on.

ghost use Rattle.std.specs.Prelude.{◌≡◌, ◌∷◌, List, Bool};
ghost use Rattle.shortening.specs.Steps.{IsLeaving};

/// Of each of the changes that are to come whether it stays.
#[derive(Drop)]
pub struct Leaving {
    /// The last change's first.
    pub(crate) keeps: Vec<bool>,
}

impl Leaving {
    /// Whether the next change stays. Where none is to come it does.
    pub fn next(&mut self) -> bool
        ensures answer { (keep : Bool) (keeps : List Bool) → IsLeaving self.old (keep ∷ keeps) → result ≡ keep }
        ensures rest { (keep : Bool) (keeps : List Bool) → IsLeaving self.old (keep ∷ keeps) → IsLeaving self.new keeps }
    {
        self.keeps.pop().unwrap_or(true)
    }
}
