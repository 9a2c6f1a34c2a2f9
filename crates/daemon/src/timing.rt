//! How long requests and what is kept take.

ghost use Rattle.std.specs.Prelude.{IfSome};
ghost use Rattle.daemon.specs.Scraping.{IsMetricsPage};

use desk::metrics_reply;
use event_loop::{Received, Sent};
use line_journal::Measures;
use metrics::Watches;
use std::rt;

/// So many nanoseconds has a second.
const NANOS: u64 = 1_000_000_000;

/// What a clock that never goes back tells, in nanoseconds.
pub(crate) fn nanos_now<R: rt::Clock>(rt: &R) -> Option<u64> {
    let now = rt.monotonic().ok()?;
    let seconds = now.as_secs().saturating_mul(NANOS);
    Some(seconds.saturating_add(u64::from(now.subsec_nanos())))
}

/// By a clock that never goes back, how long requests take from being read to being answered, and a round from its last read to its
/// first write.
#[derive(Drop)]
pub(crate) struct Timing<'r, R> {
    rt: &'r R,
    watches: Watches,
    /// When something was read last, in this round.
    read: Option<u64>,
    measures: Option<Measures>,
}

impl<'r, R> Timing<'r, R> {
    /// Nothing was read.
    pub(crate) fn new(rt: &'r R, measures: Option<Measures>) -> Timing<'r, R> {
        Timing {
            rt,
            watches: Watches::new(),
            read: None,
            measures,
        }
    }

    /// It is waited, at most so many milliseconds: then another round begins, unless it is only looked what else is ready.
    pub(crate) fn wait(&mut self, limit: Option<u64>) {
        if let Some(0) = limit {
            return;
        }
        self.read = None;
    }

    /// A connection is over, or handed on.
    pub(crate) fn forget(&mut self, place: u32) {
        self.watches.forget(place);
    }
}

impl<'r, R: AllocGlobal> Timing<'r, R> {
    /// The reply that tells all that is measured, for who has the operator's key; `None` where memory is refused, too.
    pub(crate) fn page(&self, with_key: bool) -> Option<Vec<u8>>
        ensures { IfSome result (λ page. IsMetricsPage page.items) }
    {
        match &self.measures {
            Some(measures) if with_key => { metrics_reply(self.rt.alloc(), &measures.text()?).ok() }
            _ => None,
        }
    }
}

impl<'r, R: rt::Clock> Timing<'r, R> {
    /// A connection was read.
    pub(crate) fn note_read(&mut self, place: u32, came: Received, buffer: &[u8]) {
        let Received::Bytes(count) = came else {
            return;
        };
        let (Some(bytes), Some(now)) = (buffer.get(..count), nanos_now(self.rt)) else {
            return;
        };
        self.watches.read(place, bytes, now);
        self.read = Some(now);
    }

    /// A connection is about to be written to: the first one of a round tells how long it took to keep what was decided.
    pub(crate) fn note_kept(&mut self) {
        let (Some(read), Some(measures)) = (self.read.take(), &self.measures) else {
            return;
        };
        if let Some(now) = nanos_now(self.rt) {
            measures.note_wait(now.saturating_sub(read));
        }
    }

    /// Bytes were written to a connection: where these were all, what was read of it is answered.
    pub(crate) fn note_written(&mut self, place: u32, took: Sent, bytes: &[u8]) {
        let Sent::Bytes(count) = took else {
            return;
        };
        if count < bytes.len() {
            return;
        }
        let (Some(now), Some(measures)) = (nanos_now(self.rt), &self.measures) else {
            return;
        };
        if let Some(timed) = self.watches.timed(place, now) {
            measures.note(timed);
        }
        self.watches.forget(place);
    }
}
