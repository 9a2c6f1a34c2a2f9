//! Denials and times, as lines.
ghost use Rattle.std.specs.Prelude.{◌≡◌, ◌++◌, OnOk, codes, map};
ghost use Rattle.std.specs.List.{flat_map};
ghost use Rattle.metrics.specs.Denied.{counted_in};
ghost use Rattle.metrics.specs.Lines.{label_text};
ghost use Rattle.metrics.specs.Text.{bucket_line, bucket_text, count_line, counted_line, denials_text, histogram_text, hook_line, latencies_text, latency_text, nanos_line, sum_line, syncs_text, waits_text};

use crate::denials::{Denials, DeniedBy};
use crate::histogram::{Bucket, Histogram};
use crate::latencies::Latencies;
use crate::page::{Family, Label, Page};
use crate::waits::Waits;
use answers::{ENDPOINTS, Endpoint};
use std::alloc::AllocError;

impl Page {
    // How often a hook denied.
    fn denied_by(&mut self, hook: &[u8], count: u64) -> Result<(), AllocError>
        ensures { OnOk result (self.new.text.items ≡ self.old.text.items ++ hook_line hook.now count) }
    {
        let label = Label {
            name: "hook",
            value: hook,
        };
        self.labelled("oauthd_denied_by_hook_total", label, count)
    }

    // How often each of these denied.
    fn denied_by_each(&mut self, by: &[DeniedBy]) -> Result<(), AllocError>
        ensures { OnOk result (self.new.text.items ≡ self.old.text.items ++ flat_map counted_line (map counted_in by.now)) }
    {
        for denied in by {
            self.denied_by(denied.hook(), denied.count())?;
        }
        Ok(())
    }

    /// Which hooks denied how often. No hook's name has a `_`.
    pub(crate) fn denials(&mut self, denials: &Denials) -> Result<(), AllocError>
        ensures { OnOk result (self.new.text.items ≡ self.old.text.items ++ denials_text denials.now) }
    {
        self.family(Family {
            name: "oauthd_denied_by_hook_total",
            kind: "counter",
            help: "Grants that were denied, by the hook that did.",
        })?;
        self.denied_by_each(denials.by())?;
        self.denied_by(b"_others", denials.others())?;
        Ok(())
    }

    // The label of a path.
    fn path(&mut self, path: &str) -> Result<(), AllocError>
        ensures { OnOk result (self.new.text.items ≡ self.old.text.items ++ label_text (codes "path") path.now) }
    {
        self.label(Label {
            name: "path",
            value: path.as_bytes(),
        })
    }

    // The label of a bound.
    fn bound(&mut self, bound: &str) -> Result<(), AllocError>
        ensures { OnOk result (self.new.text.items ≡ self.old.text.items ++ label_text (codes "le") bound.now) }
    {
        self.label(Label {
            name: "le",
            value: bound.as_bytes(),
        })
    }

    // How many took at most as long.
    fn bucket(&mut self, path: &str, bound: &str, count: u64) -> Result<(), AllocError>
        ensures { OnOk result (self.new.text.items ≡ self.old.text.items ++ bucket_line path.now bound.now count) }
    {
        self.put(b"oauthd_request_seconds_bucket{")?;
        self.path(path)?;
        self.put(b",")?;
        self.bound(bound)?;
        self.put(b"} ")?;
        self.number(count)?;
        self.put(b"\n")?;
        Ok(())
    }

    // How many took at most as long as each bound.
    fn buckets(&mut self, path: &str, buckets: &[Bucket]) -> Result<(), AllocError>
        ensures { OnOk result (self.new.text.items ≡ self.old.text.items ++ flat_map (bucket_text path.now) buckets.now) }
    {
        for bucket in buckets {
            self.bucket(path, bucket.bound.label(), bucket.count)?;
        }
        Ok(())
    }

    // How long all at a path took together.
    fn sum(&mut self, path: &str, nanos: u64) -> Result<(), AllocError>
        ensures { OnOk result (self.new.text.items ≡ self.old.text.items ++ sum_line path.now nanos) }
    {
        self.put(b"oauthd_request_seconds_sum{")?;
        self.path(path)?;
        self.put(b"} ")?;
        self.number(nanos)?;
        self.put(b"e-9\n")?;
        Ok(())
    }

    // How many there were at a path.
    fn count(&mut self, path: &str, count: u64) -> Result<(), AllocError>
        ensures { OnOk result (self.new.text.items ≡ self.old.text.items ++ count_line path.now count) }
    {
        let label = Label {
            name: "path",
            value: path.as_bytes(),
        };
        self.labelled("oauthd_request_seconds_count", label, count)
    }

    // How long requests at a path took.
    fn histogram(&mut self, path: &str, histogram: &Histogram) -> Result<(), AllocError>
        ensures { OnOk result (self.new.text.items ≡ self.old.text.items ++ histogram_text path.now histogram.now) }
    {
        self.buckets(path, &histogram.buckets)?;
        self.bucket(path, "+Inf", histogram.count)?;
        self.sum(path, histogram.sum)?;
        self.count(path, histogram.count)?;
        Ok(())
    }

    // How long requests at these endpoints took.
    fn latencies_at(
        &mut self,
        latencies: &Latencies,
        endpoints: &[Endpoint],
    ) -> Result<(), AllocError>
        ensures { OnOk result (self.new.text.items ≡ self.old.text.items ++ flat_map (latency_text latencies.now) endpoints.now) }
    {
        for endpoint in endpoints {
            self.histogram(endpoint.name(), &latencies.at(Some(*endpoint)))?;
        }
        Ok(())
    }

    /// How long requests took, by their paths.
    pub(crate) fn latencies(&mut self, latencies: &Latencies) -> Result<(), AllocError>
        ensures { OnOk result (self.new.text.items ≡ self.old.text.items ++ latencies_text latencies.now) }
    {
        self.family(Family {
            name: "oauthd_request_seconds",
            kind: "histogram",
            help: "From reading a request to its reply being written, by its path.",
        })?;
        self.latencies_at(latencies, &ENDPOINTS)?;
        self.histogram("nowhere", &latencies.at(None))?;
        Ok(())
    }

    // A number of nanoseconds, without labels.
    #[tactic(auto, unfolding(crate::specs::Text::nanos_line))]
    fn nanos(&mut self, name: &str, nanos: u64) -> Result<(), AllocError>
        ensures { OnOk result (self.new.text.items ≡ self.old.text.items ++ nanos_line name.now nanos) }
    {
        self.put(name.as_bytes())?;
        self.put(b" ")?;
        self.number(nanos)?;
        self.put(b"e-9\n")
    }

    /// How long it was waited until what was decided was kept.
    pub(crate) fn waits(&mut self, waits: Waits) -> Result<(), AllocError>
        ensures { OnOk result (self.new.text.items ≡ self.old.text.items ++ waits_text waits) }
    {
        self.family(Family {
            name: "oauthd_keep_seconds",
            kind: "summary",
            help: "From the last read of a round to its first write, while changes are kept.",
        })?;
        self.nanos("oauthd_keep_seconds_sum", waits.sum)?;
        self.plain("oauthd_keep_seconds_count", waits.count)?;
        Ok(())
    }

    /// How long it was waited until the state file was on the disk.
    pub(crate) fn syncs(&mut self, syncs: Waits) -> Result<(), AllocError>
        ensures { OnOk result (self.new.text.items ≡ self.old.text.items ++ syncs_text syncs) }
    {
        self.family(Family {
            name: "oauthd_sync_seconds",
            kind: "summary",
            help: "Syncs of the state file, each until it is on the disk.",
        })?;
        self.nanos("oauthd_sync_seconds_sum", syncs.sum)?;
        self.plain("oauthd_sync_seconds_count", syncs.count)?;
        Ok(())
    }
}
