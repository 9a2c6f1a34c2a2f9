//! Faults and reports, in lines.

ghost use Rattle.std.specs.Prelude.{◌≡◌, ◌<◌, ◌⊎◌, ◌+◌, ◌-◌, ◌^◌, IfErr, IfOk, min, string_bytes};
ghost use Rattle.line_journal.specs.Auditing.{IsTold, MayBeUntold};
ghost use Rattle.line_journal.specs.NoticeTexts.{notice_text, room_text, set_aside_text};
ghost use Rattle.line_journal.specs.Reporting.{Ends, Notes, due_each};
ghost use Rattle.telling.specs.Audience.{nobody};

use crate::audit_log::AuditLog;
use crate::due::Due;
use crate::measures::Measures;
use crate::outlet::Outlet;
use clients::Registry;
use consent::Moment;
use outside::{ConnectionFault, Journal, Notice};
use reports::report_text;
use std::alloc::{AllocError, Global};
use std::io::Write;
use std::net::Net;
use telling::{Interest, Tellings};

/// Of so many requests that a hook denied it can be told before the next replies are written.
const ROOM: usize = 1024;

/// What hears more than faults: where it is told of each request, if anywhere; and what is measured, where memory was had for it.
#[derive(Drop)]
pub struct Hearers {
    audit: Option<AuditLog>,
    measures: Option<Measures>,
}

impl Hearers {
    /// Those of a server that begins at a moment, if that is known.
    pub fn new(alloc: Global, moment: Option<Moment>, audit: Option<AuditLog>) -> Hearers
        ensures { result.audit ≡ audit }
    {
        let began = match moment {
            Some(moment) => moment.get(),
            None => 0,
        };
        Hearers {
            audit,
            measures: Measures::new(alloc, began).ok(),
        }
    }
}

/// Where each fault is noted in a line, and each report that is due. One for which there is no room at once, or no memory, or that can't be
/// written, is lost. How many there was no room for is told once there is.
#[derive(Drop)]
pub struct LineJournal<'e, E> {
    alloc: Global,
    /// The path of the file of the state, where there is one.
    path: &'e str,
    lines: &'e mut E,
    outlets: Outlets,
    /// How many lines there was no room for since that was told.
    dropped: u64,
}

/// What a journal has besides its lines.
#[derive(Drop)]
pub struct Outlets {
    /// Whether they are taken at once.
    notes: Outlet,
    /// Where it is told of each request, if anywhere.
    audit: Option<AuditLog>,
    /// What is measured, where memory was had for it.
    measures: Option<Measures>,
    due: Due,
}

impl Outlets {
    // Room for what is told of requests in a life that begins at a moment, if that is known.
    fn room(&mut self, alloc: Global, moment: Option<Moment>) -> Result<Tellings, AllocError>
        ensures told { IfOk result (IsTold self.old.audit self.old.measures) }
        ensures refused { IfErr result (λ _. MayBeUntold self.old.audit nobody) }
        ensures due { self.new.due ≡ self.old.due }
    {
        if let Some(audit) = &mut self.audit {
            return audit.begin(moment);
        }
        match &self.measures {
            Some(_) => Tellings::with_room(alloc, Interest::Denials, ROOM),
            None => Ok(Tellings::unwanted(alloc)),
        }
    }
}

impl<'e, E: Write> LineJournal<'e, E> {
    /// A journal that noted nothing yet, and to which no life began, about the file of the state at a path, where there is one.
    pub fn new<R: Net + AllocGlobal>(
        rt: &R,
        path: &'e str,
        lines: &'e mut E,
        hearers: Hearers,
    ) -> Self
        ensures path { result.path.now ≡ path.now }
        ensures audit { result.outlets.audit ≡ hearers.audit }
    {
        LineJournal {
            alloc: rt.alloc(),
            path,
            lines,
            outlets: Outlets {
                notes: Outlet::new(rt, rt.alloc()),
                audit: hearers.audit,
                measures: hearers.measures,
                due: Due::each(None),
            },
            dropped: 0,
        }
    }

    /// What is measured, for another part.
    pub fn measures(&self) -> Option<Measures> {
        match &self.outlets.measures {
            Some(measures) => measures.again(),
            None => None,
        }
    }
}

/// The line that tells how many bytes of an unfinished write are beside the file of a path.
fn set_aside_line(alloc: Global, path: &str, count: usize) -> Result<String, AllocError>
    ensures { IfOk result (λ line. string_bytes line ≡ set_aside_text path.now count) }
{
    let mut line = String::new(alloc);
    write!(
        line,
        "oauthd: state: {count} bytes of an unfinished write are in {path}.torn\n"
    )?;
    Ok(line)
}

/// The line that tells that the disk refuses room for the state, or has some again.
fn room_line(alloc: Global, wants: bool) -> Result<String, AllocError>
    ensures { IfOk result (λ line. string_bytes line ≡ room_text wants) }
{
    if wants {
        return format!(in alloc;
            "oauthd: state: no room on the disk; what was reserved serves until it is used up\n"
        );
    }
    format!(in alloc; "oauthd: state: there is room on the disk again\n")
}

/// A notice, as a line.
fn notice_line(alloc: Global, path: &str, notice: &Notice) -> Result<Vec<u8>, AllocError>
    ensures { IfOk result (λ line. line.items ≡ notice_text path.now notice.now) }
{
    match notice {
        Notice::Reported(report) => {
            let mut line = report_text(alloc, report)?;
            line.push(b'\n')?;
            Ok(line)
        }
        Notice::StoreFull => Ok(format!(in alloc; "oauthd: store full\n")?.into_bytes()),
        Notice::ShorteningRefused => Ok(format!(in alloc;
            "oauthd: state: the file cannot be shortened; it grows until that works\n"
        )?.into_bytes()),
        Notice::WantsRoom(wants) => Ok(room_line(alloc, *wants)?.into_bytes()),
        Notice::SetAside(count) => Ok(set_aside_line(alloc, path, *count)?.into_bytes()),
        Notice::Narrowed(count) => Ok(format!(in alloc;
            "oauthd: state: {count} codes and tokens ended, beyond the registry\n"
        )?.into_bytes()),
        Notice::Ahead(seconds) => Ok(format!(in alloc;
            "oauthd: state: {seconds} seconds ahead of the clock; nothing expires until then\n"
        )?.into_bytes()),
    }
}

impl<'e, E: Write> LineJournal<'e, E> {
    // The line, behind one that tells how many were dropped before it.
    fn with_dropped(&self, line: &[u8]) -> Result<Vec<u8>, AllocError> {
        let told = format!(in self.alloc; "oauthd: {} lines were dropped\n", self.dropped)?;
        let mut text = told.into_bytes();
        text.extend_from_slice(line)?;
        Ok(text)
    }

    // Writes a line, by one call and without waiting, or drops it.
    fn tell(&mut self, line: &[u8])
        // Nothing is written where a line is dropped, and that is counted.
        ensures dropped { 0 < self.new.dropped → self.new.lines ≡ self.old.lines }
        ensures counted { self.new.dropped ≡ 0 ⊎ (self.new.dropped ≡ min (self.old.dropped + 1) (2 ^ 64 - 1)) }
        ensures kept { Notes self.old self.new }
    {
        let more = self.dropped.saturating_add(1);
        if !self.outlets.notes.is_free() {
            self.dropped = more;
            return;
        }
        if self.dropped == 0 {
            let _ = self.lines.write_all(line);
            return;
        }
        match self.with_dropped(line) {
            Ok(text) => {
                let _ = self.lines.write_all(&text);
                self.dropped = 0;
            }
            Err(_) => self.dropped = more,
        }
    }
}

impl<'e, E: Write> LineJournal<'e, E> {
    /// A life begins at a moment, if that is known, in which a report is written each so many seconds, if at all. It gives room for what
    /// is told in it of requests: of each where there is an audit log, and else of those that a hook denied, where that is measured.
    /// Where that is wanted and memory is refused, it is said, and nothing is told.
    pub fn begin(&mut self, moment: Option<Moment>, every: Option<u64>) -> Tellings
        ensures due { self.new.outlets.due ≡ due_each every }
        ensures told { IsTold self.old.outlets.audit self.old.outlets.measures result ⊎ MayBeUntold self.old.outlets.audit result }
    {
        self.end_report();
        self.outlets.due = Due::each(every);
        let Ok(room) = self.outlets.room(self.alloc, moment) else {
            self.tell(b"oauthd: no memory; of requests nothing is told until the next reload\n");
            return Tellings::unwanted(self.alloc);
        };
        room
    }
}

impl<'e, E: Write> LineJournal<'e, E> {
    // Writes a notice as a line.
    fn write(&mut self, notice: &Notice)
        ensures { Notes self.old self.new }
    {
        if let Ok(line) = notice_line(self.alloc, self.path, notice) {
            self.tell(&line);
        }
    }

    // What is told in a notice is measured.
    fn measure(&self, notice: &Notice) {
        if let (Notice::Reported(report), Some(measures)) = (notice, &self.outlets.measures) {
            measures.report(report);
        }
    }

    // What was told of requests is measured.
    fn measure_told(&self, tellings: &Tellings) {
        if let Some(measures) = &self.outlets.measures {
            measures.hear(tellings);
        }
    }

    /// A life is over: its last report is written, where reports are wanted and it was not.
    pub fn end_report(&mut self)
        ensures { Ends self.old self.new }
    {
        if let Some(report) = self.outlets.due.take() {
            self.write(&Notice::Reported(report));
        }
    }
}

impl<'e, E: Write> Journal for LineJournal<'e, E> {
    ghost use Rattle.line_journal.specs.Auditing.{Audits};
    ghost use Rattle.line_journal.specs.Reporting.{Notes, Reports};

    // It is not told whether a line was written.
    ghost notes = { λ old _ new. Notes old new };

    ghost reports = { Reports };

    ghost audits = { Audits };

    fn note(&mut self, fault: ConnectionFault) {
        let Ok(line) = format!(in self.alloc; "oauthd: connection ended: {fault}\n") else {
            return;
        };
        self.tell(line.as_bytes());
    }

    fn report(&mut self, notice: &Notice) {
        self.measure(notice);
        if self.outlets.due.note(notice) {
            self.write(notice);
        }
    }

    fn audit(&mut self, rules: &Registry, tellings: &Tellings) {
        self.measure_told(tellings);
        if let Some(audit) = &mut self.outlets.audit {
            audit.tell_all(rules, tellings);
        }
    }
}
