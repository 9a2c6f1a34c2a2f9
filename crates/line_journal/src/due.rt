//! When a report is written as a line.

ghost use Rattle.std.specs.Prelude.{◌≡◌, is_some};
ghost use Rattle.line_journal.specs.Reporting.{due_after, due_behind, due_each, is_due, is_time, is_written, kept_since, over};

use outside::{Notice, Report};

/// When a report is written as a line: each so many seconds of a life, where reports are wanted, and at its end.
#[derive(Clone, Copy)]
pub(crate) struct Due {
    every: Option<u64>,
    /// After so many seconds of this life one was written last.
    last: u64,
    /// What was reported since.
    since: Option<Report>,
}

// Whether it is time for a report, where so many seconds have passed since the last one.
fn is_time(every: Option<u64>, passed: u64) -> bool
    ensures { result ≡ is_time every passed }
{
    match every {
        Some(every) => every <= passed,
        None => false,
    }
}

impl Due {
    /// Each so many seconds of a life that begins, if at all.
    pub(crate) fn each(every: Option<u64>) -> Due
        ensures { result ≡ due_each every }
    {
        Due {
            every,
            last: 0,
            since: None,
        }
    }

    // Whether a report is to be written now.
    fn is_due(&self, report: &Report) -> bool
        ensures { result ≡ is_due self.now report.now }
    {
        is_time(self.every, report.seconds.saturating_sub(self.last))
    }

    // A report is not written now: it is kept, where reports are wanted.
    fn keep(&mut self, report: &Report)
        ensures { self.new ≡ kept_since self.old.every self.old report.now }
    {
        if let Some(_) = self.every {
            self.since = Some(*report);
        }
    }

    // There is a report: whether it is to be written now.
    fn note_report(&mut self, report: &Report) -> bool
        ensures due { result ≡ is_due self.old report.now }
        ensures after { self.new ≡ due_after self.old report.now }
    {
        if self.is_due(report) {
            self.last = report.seconds;
            self.since = None;
            true
        } else {
            self.keep(report);
            false
        }
    }

    /// There is a notice: whether it is to be written now.
    pub(crate) fn note(&mut self, notice: &Notice) -> bool
        ensures written { result ≡ is_written self.old notice.now }
        ensures after { self.new ≡ due_behind self.old notice.now }
    {
        match notice {
            Notice::Reported(report) => self.note_report(report),
            Notice::StoreFull => self.every.is_some(),
            Notice::ShorteningRefused
            | Notice::WantsRoom(_)
            | Notice::SetAside(_)
            | Notice::Narrowed(_)
            | Notice::Ahead(_) => true,
        }
    }

    /// A life is over: its last report, where it was not written.
    pub(crate) fn take(&mut self) -> Option<Report>
        ensures taken { result ≡ self.old.since }
        ensures over { self.new ≡ over self.old }
    {
        self.since.take()
    }
}
