//! Horizons: until which moment what was told by the clock is kept.

ghost use Rattle.std.specs.Prelude.{◌≡◌, max};
ghost use Rattle.batch_file.specs.Frames.{lists};
ghost use Rattle.state_file.specs.Standing.{horizon, horizon_in, until_of};

use consent::Moment;

/// The horizon of a moment.
pub fn horizon(until: Moment) -> [u8; 9]
    ensures { result ≡ horizon until }
{
    let mut batch = [3; 9];
    batch[1..].copy_from_slice(&until.get().to_be_bytes());
    batch
}

/// The moment of a horizon, if the batch is one, or begins with one.
pub fn horizon_in(batch: &[u8]) -> Option<Moment>
    ensures { result ≡ horizon_in batch.now }
{
    let [3, a, b, c, d, e, f, g, h, ..] = *batch else {
        return None;
    };
    let until = u64::from_be_bytes([a, b, c, d, e, f, g, h]);
    if until >= 1 << 63 {
        return None;
    }
    Some(Moment::new(until))
}

/// The later of two moments.
pub fn later(a: Moment, b: Moment) -> Moment
    ensures { result ≡ max a b }
{
    if a.get() < b.get() { b } else { a }
}

/// The greatest moment of the horizons.
pub fn until_of(batches: &[Vec<u8>]) -> Moment
    ensures { result ≡ until_of (lists batches.now) }
{
    let mut until = Moment::new(0);
    let mut rest = batches;
    while let [batch, behind @ ..] = rest {
        until = later(until, horizon_in(batch).unwrap_or(Moment::new(0)));
        rest = behind;
    }
    until
}
