//! How many took how long.
ghost use Rattle.std.specs.Prelude.{◌≡◌, map};
ghost use Rattle.metrics.specs.Histograms.{bucket_after, empty_bucket, noted, nothing_noted};

use crate::bound::Bound;

/// How many took at most as long as a bound.
#[derive(Clone, Copy, Debug)]
pub struct Bucket {
    pub bound: Bound,
    pub count: u64,
}

/// How many took at most as long as each bound, how many there were, and how long they took together, in nanoseconds. Each number stops
/// at the greatest one.
#[derive(Clone, Copy, Debug)]
pub struct Histogram {
    pub buckets: [Bucket; 10],
    pub sum: u64,
    pub count: u64,
}

impl Bucket {
    // Nothing was noted.
    fn empty(bound: Bound) -> Bucket
        ensures { result ≡ empty_bucket bound }
    {
        Bucket { bound, count: 0 }
    }

    // One more took so long: it counts where that is at most the bound.
    fn note(&mut self, nanos: u64)
        ensures { self.new ≡ bucket_after nanos self.old }
    {
        if nanos <= self.bound.nanos() {
            self.count = self.count.saturating_add(1);
        }
    }
}

// One more took so long.
fn note_each(buckets: &mut [Bucket], nanos: u64)
    ensures { buckets.new ≡ map (bucket_after nanos) buckets.old }
{
    for bucket in buckets.iter_mut() {
        bucket.note(nanos);
    }
}

impl Histogram {
    /// Nothing was noted.
    pub fn new() -> Histogram
        ensures { result ≡ nothing_noted }
    {
        Histogram {
            buckets: [
                Bucket::empty(Bound::Micros500),
                Bucket::empty(Bound::Millis1),
                Bucket::empty(Bound::Micros2500),
                Bucket::empty(Bound::Millis5),
                Bucket::empty(Bound::Millis10),
                Bucket::empty(Bound::Millis25),
                Bucket::empty(Bound::Millis50),
                Bucket::empty(Bound::Millis100),
                Bucket::empty(Bound::Millis250),
                Bucket::empty(Bound::Second),
            ],
            sum: 0,
            count: 0,
        }
    }

    /// One more took so long.
    pub fn note(&mut self, nanos: u64)
        ensures { self.new ≡ noted self.old nanos }
    {
        note_each(&mut self.buckets, nanos);
        self.sum = self.sum.saturating_add(nanos);
        self.count = self.count.saturating_add(1);
    }
}
