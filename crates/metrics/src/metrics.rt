//! What is measured of a server.
ghost use Rattle.std.specs.Prelude.{◌≡◌, IfOk, None};
ghost use Rattle.metrics.specs.Denied.{no_denials};
ghost use Rattle.metrics.specs.Measured.{nothing_measured};
ghost use Rattle.metrics.specs.Text.{metrics_text};

use crate::denials::Denials;
use crate::latencies::Latencies;
use crate::page::Page;
use crate::waits::Waits;
use outside::Report;
use std::alloc::{AllocError, Global};

/// What is measured of a server: since when it runs, in seconds since 1970; what was reported last; which hooks denied how often; how
/// long requests took; how long it took to keep what was decided; and how long the disk took for that.
#[derive(Drop)]
pub struct Metrics {
    pub began: u64,
    pub report: Option<Report>,
    pub denials: Denials,
    pub latencies: Latencies,
    pub waits: Waits,
    pub syncs: Waits,
}

impl Metrics {
    /// Nothing was measured yet.
    pub fn new(alloc: Global, began: u64) -> Result<Metrics, AllocError>
        ensures { IfOk result (λ metrics. metrics ≡ nothing_measured began) }
    {
        Ok(Metrics {
            began,
            report: None,
            denials: Denials::new(alloc)?,
            latencies: Latencies::new(),
            waits: Waits::default(),
            syncs: Waits::default(),
        })
    }

    /// All of it in Prometheus' text format.
    pub fn text(&self, alloc: Global) -> Result<Vec<u8>, AllocError>
        ensures { IfOk result (λ text. text.items ≡ metrics_text self.now) }
    {
        let mut page = Page::new(alloc)?;
        page.began(self.began)?;
        page.reported(&self.report)?;
        page.denials(&self.denials)?;
        page.latencies(&self.latencies)?;
        page.waits(self.waits)?;
        page.syncs(self.syncs)?;
        Ok(page.text)
    }
}
