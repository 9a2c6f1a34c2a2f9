//! What tells the time.

use consent::Moment;

/// A clock, in seconds since 1970.
pub trait Clock {
    ghost use Rattle.std.specs.Prelude.{ℕ, Option, ⊤};

    // A clock told a moment, or failed to, and is another from then on.
    ghost tells: { Self → Option ℕ → Self → Type 0 } = { λ _ _ _. ⊤ };

    /// The moment that it is now; `None` where it can't be told, or is no moment.
    fn now(&mut self) -> Option<Moment>
        ensures { tells self.old result self.new };
}
