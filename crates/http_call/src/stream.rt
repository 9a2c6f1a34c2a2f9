//! A connection that is read and written until a moment.

ghost use Rattle.std.specs.Prelude.{◌≡◌, ◌<◌, ◌≤◌, IfOk, OnOk};
ghost use Rattle.std.specs.Duration.{as_nanos};

use std::io::{self, ErrorKind, Read, Write};
use std::net::{Net, OpenStream};
use std::rt::Clock;
use std::time::{Duration, Instant};

/// A connection, and until when it is read and written.
#[derive(Drop)]
pub struct TimedStream<'r, R: Net> {
    rt: &'r R,
    stream: R::Stream,
    began: Option<Instant>,
    limit: Duration,
}

impl<'r, R: Net + Clock> TimedStream<'r, R> {
    /// A connection that no time is left for.
    pub fn new(rt: &'r R, stream: R::Stream) -> TimedStream<'r, R>
        ensures { result.stream ≡ stream }
    {
        let _ = stream.set_nodelay(true);
        TimedStream {
            rt,
            stream,
            began: None,
            limit: Duration::ZERO,
        }
    }

    /// From now on it has so much time.
    pub fn begin(&mut self, limit: Duration) -> io::Result<()>
        ensures stream { self.new.stream ≡ self.old.stream }
        ensures limit { OnOk result (self.new.limit ≡ limit) }
    {
        self.began = Some(Instant::now(self.rt)?);
        self.limit = limit;
        Ok(())
    }

    /// How much is left: some, and no more than it was given.
    fn left(&self) -> io::Result<Duration>
        ensures some { IfOk result (λ left. 0 < as_nanos left) }
        ensures within { IfOk result (λ left. as_nanos left ≤ as_nanos self.now.limit) }
    {
        let Some(began) = self.began else {
            return Err(io::Error::from(ErrorKind::TimedOut));
        };
        let passed = began.elapsed(self.rt)?;
        match self.limit.checked_sub(passed) {
            Some(left) if !left.is_zero() => Ok(left),
            _ => Err(io::Error::from(ErrorKind::TimedOut)),
        }
    }
}

impl<R: Net + Clock> Read for TimedStream<'_, R> {
    // It gives what the connection gives.
    ghost remaining = { λ timed. R.Stream.remaining timed.stream };

    fn read(&mut self, buf: &mut [u8]) -> io::Result<usize> {
        let left = self.left()?;
        self.stream.set_read_timeout(Some(left))?;
        self.stream.read(buf)
    }
}

impl<R: Net + Clock> Write for TimedStream<'_, R> {
    // It holds what the connection holds.
    ghost contents = { λ timed. R.Stream.contents timed.stream };

    fn write(&mut self, buf: &[u8]) -> io::Result<usize> {
        let left = self.left()?;
        self.stream.set_write_timeout(Some(left))?;
        self.stream.write(buf)
    }

    fn flush(&mut self) -> io::Result<()> {
        self.stream.flush()
    }
}
