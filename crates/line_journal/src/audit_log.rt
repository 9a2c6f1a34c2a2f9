//! Where it is told of each request that was answered, in lines.

ghost use Rattle.std.specs.Prelude.{◌≡◌, ◌++◌, ◌∷◌, [], Some, None, IfOk, IfErr, false, true};
ghost use Rattle.line_journal.specs.AuditTexts.{begun_text, dropped_text, line_text, lost_text, start_text, told_lines};
ghost use Rattle.line_journal.specs.Auditing.{IsRoom, MayTellLost, Tells, TellsAll, TellsAudience, counted};
ghost use Rattle.json.specs.Token.{end_object};
ghost use Rattle.telling.specs.Audience.{new_audience};
ghost use Rattle.telling.specs.declared.interest.Interest.TheVariants.{Everything};

use crate::line_sink::LineSink;
use clients::Registry;
use consent::Moment;
use disk_file::{OpenFault, open_at_end};
use messages::Object;
use reports::told_text;
use std::alloc::{AllocError, Global};
use std::fs::File;
use std::io::Stdout;
use std::net::Net;
use std::rt::Files;
use telling::{Interest, Tellings, Told};

/// Of so many requests it can be told before the next replies are written.
const ROOM: usize = 4096;

/// Lines of which each has its place, or is lost: one for each request that was answered, one at the beginning of each life that
/// answers some, and one for how many were lost. A line is lost for which there is no room at once, or no memory, or that can't be
/// written.
#[derive(Drop)]
pub struct AuditLog {
    alloc: Global,
    pub(crate) lines: LineSink,
    /// Room for the first life of a server, taken at its start.
    pub(crate) room: Option<Tellings>,
    /// When this life began, where that is still to be told.
    pub(crate) begun: Option<Moment>,
    /// How many lines were lost since that was told.
    pub(crate) dropped: u64,
}

// Whether a path is that of standard output.
fn is_output(path: &str) -> bool {
    path == "-"
}

// An object of JSON, as a line.
fn line_of(object: Object) -> Result<Vec<u8>, AllocError>
    ensures { IfOk result (λ line. line.items ≡ line_text (object.json.tokens ++ end_object ∷ [])) }
{
    let mut line = object.finish()?;
    line.push(b'\n')?;
    Ok(line)
}

// The line that tells when a life began, and of how many clients and owners its registry has.
fn begun_line(alloc: Global, rules: &Registry, moment: Moment) -> Result<Vec<u8>, AllocError>
    ensures { IfOk result (λ line. line.items ≡ begun_text rules.now moment) }
{
    let mut line = Object::new(alloc, 0)?;
    line.number("began", moment.get())?;
    line.number("clients", rules.client_count() as u64)?;
    line.number("owners", rules.owner_count() as u64)?;
    line_of(line)
}

// The line that tells how many were lost.
fn dropped_line(alloc: Global, dropped: u64) -> Result<Vec<u8>, AllocError>
    ensures { IfOk result (λ line. line.items ≡ dropped_text dropped) }
{
    let mut line = Object::new(alloc, 0)?;
    line.number("dropped", dropped)?;
    line_of(line)
}

impl AuditLog {
    // What tells of nothing yet, and has room for what is told.
    fn new(alloc: Global, lines: LineSink) -> Result<AuditLog, AllocError>
        ensures { IfOk result (λ log. log.room ≡ Some (new_audience Everything 4096)) }
    {
        let room = Tellings::with_room(alloc, Interest::Everything, ROOM)?;
        Ok(AuditLog {
            alloc,
            lines,
            room: Some(room),
            begun: None,
            dropped: 0,
        })
    }

    /// Opens the file of a path to write at its end, and makes it where there is none; `-` is standard output, as it is.
    pub fn open<R: Files<File = File> + Net + AllocGlobal>(
        rt: &R,
        path: &str,
        stdout: Stdout,
    ) -> Result<AuditLog, OpenFault>
        ensures { IfOk result (λ log. log.room ≡ Some (new_audience Everything 4096)) }
    {
        let alloc = rt.alloc();
        if is_output(path) {
            return Ok(AuditLog::new(alloc, LineSink::of_output(rt, alloc, stdout))?);
        }
        let file = open_at_end(rt, path)?;
        Ok(AuditLog::new(alloc, LineSink::of_file(alloc, file))?)
    }

    /// A life begins at a moment, if that is known. It has room for what is told in it.
    pub(crate) fn begin(&mut self, moment: Option<Moment>) -> Result<Tellings, AllocError>
        ensures told { IfOk result (IsRoom self.old.room) }
        ensures refused { IfErr result (λ _. self.old.room ≡ None) }
    {
        self.begun = moment;
        match self.room.take() {
            Some(room) => Ok(room),
            None => Tellings::with_room(self.alloc, Interest::Everything, ROOM),
        }
    }

    // Writes a line, if there was memory for it, and says whether it has its place.
    fn write(&mut self, line: Result<Vec<u8>, AllocError>) -> bool
        ensures dropped { self.new.dropped ≡ self.old.dropped }
        ensures begun { self.new.begun ≡ self.old.begun }
        ensures placed { result ≡ true → IfOk line (λ line. self.new.lines.line ≡ line) }
        ensures made { IfErr line (λ _. result ≡ false) }
    {
        match line {
            Ok(line) => self.lines.write(line),
            Err(_) => false,
        }
    }

    // What is to be told before the next line: how many were lost, and that a life began.
    fn before(&self, rules: &Registry) -> Result<Vec<u8>, AllocError>
        ensures { IfOk result (λ lines. lines.items ≡ lost_text self.now.dropped ++ start_text rules.now self.now.begun) }
    {
        let mut lines = Vec::new(self.alloc);
        if self.dropped > 0 {
            lines.extend_from_slice(&dropped_line(self.alloc, self.dropped)?)?;
        }
        if let Some(moment) = self.begun {
            lines.extend_from_slice(&begun_line(self.alloc, rules, moment)?)?;
        }
        Ok(lines)
    }

    // The line of a request, behind what is to be told before it.
    fn made(&self, rules: &Registry, told: &Told) -> Result<Vec<u8>, AllocError>
        ensures { IfOk result (λ lines. lines.items ≡ told_lines rules.now self.now.dropped self.now.begun told.now) }
    {
        let mut line = told_text(self.alloc, rules, told)?;
        line.push(b'\n')?;
        if self.dropped == 0 && self.begun.is_none() {
            return Ok(line);
        }
        let mut lines = self.before(rules)?;
        lines.extend_from_slice(&line)?;
        Ok(lines)
    }

    // So many lines more are lost.
    fn count(&mut self, lost: u64)
        ensures { self.new ≡ counted self.old lost }
    {
        self.dropped = self.dropped.saturating_add(lost);
    }

    // Writes the line of a request, or loses it.
    fn tell(&mut self, rules: &Registry, told: &Told)
        ensures { Tells rules.now self.old told.now self.new }
    {
        if self.write(self.made(rules, told)) {
            self.dropped = 0;
            self.begun = None;
        } else {
            self.count(1);
        }
    }

    // Tells how many lines were lost, where some were.
    fn tell_dropped(&mut self)
        ensures { MayTellLost self.old self.new }
    {
        if self.dropped > 0 && self.write(dropped_line(self.alloc, self.dropped)) {
            self.dropped = 0;
        }
    }

    // Writes the lines of requests, or loses them.
    fn tell_each(&mut self, rules: &Registry, tolds: &[Told])
        ensures { TellsAll rules.now self.old tolds.now self.new }
    {
        for told in tolds {
            self.tell(rules, told);
        }
    }

    /// Tells of what was told, in its order, and of how much is lost.
    pub(crate) fn tell_all(&mut self, rules: &Registry, tellings: &Tellings)
        ensures { TellsAudience rules.now self.old tellings.now self.new }
    {
        self.tell_each(rules, tellings.told());
        self.count(tellings.dropped());
        self.tell_dropped();
    }
}
