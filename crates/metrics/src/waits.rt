//! How often something was waited for, and how long.
ghost use Rattle.std.specs.Prelude.{◌≡◌};
ghost use Rattle.metrics.specs.Measured.{waited};

/// How often something was waited for, and how long together, in nanoseconds. Each number stops at the greatest one.
#[derive(Clone, Copy, Debug, Default)]
pub struct Waits {
    pub sum: u64,
    pub count: u64,
}

impl Waits {
    /// It was waited for once more, for so long.
    pub fn note(&mut self, nanos: u64)
        ensures { self.new ≡ waited self.old nanos }
    {
        self.sum = self.sum.saturating_add(nanos);
        self.count = self.count.saturating_add(1);
    }
}
