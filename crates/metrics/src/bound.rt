//! The bounds of a histogram's buckets.
ghost use Rattle.std.specs.Prelude.{◌≡◌};
ghost use Rattle.metrics.specs.Bounds.{le_of, nanos_of};

/// A length of time, the most that a bucket counts.
#[derive(Clone, Copy, Debug)]
pub enum Bound {
    Micros500,
    Millis1,
    Micros2500,
    Millis5,
    Millis10,
    Millis25,
    Millis50,
    Millis100,
    Millis250,
    Second,
}

/// All bounds, the least one first.
pub const BOUNDS: [Bound; 10] = [
    Bound::Micros500,
    Bound::Millis1,
    Bound::Micros2500,
    Bound::Millis5,
    Bound::Millis10,
    Bound::Millis25,
    Bound::Millis50,
    Bound::Millis100,
    Bound::Millis250,
    Bound::Second,
];

impl Bound {
    /// In nanoseconds.
    pub fn nanos(self) -> u64
        ensures { result ≡ nanos_of self }
    {
        match self {
            Bound::Micros500 => 500_000,
            Bound::Millis1 => 1_000_000,
            Bound::Micros2500 => 2_500_000,
            Bound::Millis5 => 5_000_000,
            Bound::Millis10 => 10_000_000,
            Bound::Millis25 => 25_000_000,
            Bound::Millis50 => 50_000_000,
            Bound::Millis100 => 100_000_000,
            Bound::Millis250 => 250_000_000,
            Bound::Second => 1_000_000_000,
        }
    }

    /// In seconds, as its label says it.
    pub fn label(self) -> &'static str
        ensures { result.now ≡ le_of self }
    {
        match self {
            Bound::Micros500 => "0.0005",
            Bound::Millis1 => "0.001",
            Bound::Micros2500 => "0.0025",
            Bound::Millis5 => "0.005",
            Bound::Millis10 => "0.01",
            Bound::Millis25 => "0.025",
            Bound::Millis50 => "0.05",
            Bound::Millis100 => "0.1",
            Bound::Millis250 => "0.25",
            Bound::Second => "1",
        }
    }
}
