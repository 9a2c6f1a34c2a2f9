//! What tells the time.

use consent::Moment;

/// What the clocks tell at once.
#[derive(Clone, Copy, Debug)]
pub struct Times {
    /// The moment that it is, by which requests are answered.
    pub moment: Moment,
    /// Seconds of a clock that never goes back, by which silence is measured.
    pub steady: u64,
}

/// A clock that tells the moment, and one that never goes back.
pub trait Clocks {
    ghost use Rattle.std.specs.Prelude.{Option};
    ghost use Rattle.outside.specs.declared.clocks.Times.{Times};

    // The clocks told the times, or failed to, and are others from then on.
    ghost tells: { Self → Option Times → Self → Type 0 };

    /// What the clocks tell now; `None` where one of them can't be read, or the moment is no moment.
    fn read(&mut self) -> Option<Times>
        ensures { tells self.old result self.new };
}
