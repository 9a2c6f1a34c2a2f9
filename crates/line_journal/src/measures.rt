//! What is measured of a server, kept where its journal and its sockets measure it.

ghost use Rattle.std.specs.Prelude.{IfSome};
ghost use Rattle.metrics.specs.Text.{IsMetricsText};

use metrics::{Metrics, Timed};
use outside::Report;
use std::alloc::{AllocError, Global};
use std::cell::RefCell;
use std::rc::Rc;
use telling::Tellings;

/// What is measured of a server. Each part of the server that measures has one of these, and all have the same measures.
#[derive(Drop)]
pub struct Measures {
    alloc: Global,
    shared: Rc<RefCell<Metrics>>,
}

impl Measures {
    /// Nothing was measured of a server that began at a moment, in seconds since 1970.
    pub(crate) fn new(alloc: Global, began: u64) -> Result<Measures, AllocError> {
        let metrics = Metrics::new(alloc, began)?;
        let Ok(shared) = Rc::new(alloc, RefCell::new(metrics)) else {
            return Err(AllocError);
        };
        Ok(Measures { alloc, shared })
    }

    /// The same measures, for another part; `None` where there are too many.
    pub(crate) fn again(&self) -> Option<Measures> {
        let shared = self.shared.clone().ok()?;
        Some(Measures {
            alloc: self.alloc,
            shared,
        })
    }

    /// What the server has done so far, and what it keeps.
    pub(crate) fn report(&self, report: &Report) {
        if let Ok(mut metrics) = self.shared.try_borrow_mut() {
            metrics.report = Some(*report);
        }
    }

    /// What was told of requests: which hooks denied.
    pub(crate) fn hear(&self, tellings: &Tellings) {
        if let Ok(mut metrics) = self.shared.try_borrow_mut() {
            metrics.denials.hear(tellings);
        }
    }

    /// A request was answered.
    pub fn note(&self, timed: Timed) {
        if let Ok(mut metrics) = self.shared.try_borrow_mut() {
            metrics.latencies.note(timed.path, timed.nanos);
        }
    }

    /// What was decided was kept.
    pub fn note_wait(&self, nanos: u64) {
        if let Ok(mut metrics) = self.shared.try_borrow_mut() {
            metrics.waits.note(nanos);
        }
    }

    /// The disk was waited for, until the state file was on it.
    pub fn note_sync(&self, nanos: u64) {
        if let Ok(mut metrics) = self.shared.try_borrow_mut() {
            metrics.syncs.note(nanos);
        }
    }

    /// All of it as a text; `None` where memory is refused.
    pub fn text(&self) -> Option<Vec<u8>>
        ensures { IfSome result (λ text. IsMetricsText text.items) }
    {
        match self.shared.try_borrow() {
            Ok(metrics) => metrics.text(self.alloc).ok(),
            Err(_) => None,
        }
    }
}
