//! The machine's sockets, as the loop uses them.

ghost use Rattle.std.specs.Prelude.{◌≡◌, [], Bool, true, None, length};
ghost use Rattle.daemon.specs.Noting.{NotesCall};
ghost use Rattle.daemon.specs.Reloading.{IsSent, KeepsServing, KeepsWanted};
ghost use Rattle.daemon.specs.Scraping.{MayBeScraped};
ghost use Rattle.desk.specs.declared.judging.Judged.TheVariants as verdict;
ghost use Rattle.ports.specs.Passing.{KeepsWaiting};
ghost use Rattle.outside.specs.Calls.{FindsWithin, ReadsWithin};

use crate::call_log::{CallLog, SystemCall};
use crate::reloads::{Reloads, Wanted};
use crate::timing::Timing;
use desk::Judged;
use event_loop::{Accepted, Ready, Received, Sent, Sockets};
use line_journal::Measures;
use ports::Ports;
use std::random::RandomSource;
use std::rt::{Clock, Files};

/// A listener and its connections, with a log of what they did. A connection that asks for a reload or for metrics is taken out of its
/// place before a byte of it is read: to the loop it ends there.
#[derive(Drop)]
pub struct MachineSockets<'r, 'w, R> {
    ports: Ports,
    reloads: Reloads<'r, 'w, R>,
    timing: Timing<'r, R>,
    log: CallLog,
}

/// What is left of sockets whose loop has ended.
#[derive(Drop)]
pub(crate) struct Left<'r, 'w, R> {
    pub ports: Ports,
    pub reloads: Reloads<'r, 'w, R>,
}

impl<'r, 'w, R> MachineSockets<'r, 'w, R> {
    /// A listener without connections, but for those that were handed on.
    pub(crate) fn new(
        rt: &'r R,
        ports: Ports,
        reloads: Reloads<'r, 'w, R>,
        measures: Option<Measures>,
    ) -> MachineSockets<'r, 'w, R>
        ensures undone { result.log.calls ≡ [] }
        ensures ports { result.ports ≡ ports }
        ensures reloads { result.reloads ≡ reloads.entry }
    {
        MachineSockets {
            ports,
            reloads,
            timing: Timing::new(rt, measures),
            log: CallLog::new(),
        }
    }

    /// What is left of them.
    pub(crate) fn left(self) -> Left<'r, 'w, R>
        ensures ports { result.ports ≡ self.entry.ports }
        ensures reloads { result.reloads ≡ self.entry.reloads }
    {
        Left {
            ports: self.ports,
            reloads: self.reloads,
        }
    }

    /// Takes the reload that is under way, if one is.
    pub(crate) fn take_wanted(&mut self) -> Option<Wanted<'r, R>>
        ensures taken { result ≡ self.old.reloads.wanted }
        ensures rest { self.new ≡ record self.old { reloads = record self.old.reloads { wanted = None } } }
    {
        self.reloads.take_wanted()
    }

    // What the first bytes of a connection are. Where something was read of it, they are the loop's.
    fn judged(&self, place: u32, buffer: &mut [u8]) -> Judged
        ensures size { length buffer.new ≡ length buffer.old }
        ensures sent { (with_key : Bool) → result ≡ verdict.Asks with_key → with_key ≡ true → IsSent self.now.reloads.key }
        ensures sent_too { (with_key : Bool) → result ≡ verdict.AsksMetrics with_key → with_key ≡ true → IsSent self.now.reloads.key }
    {
        let room = self.reloads.room().min(buffer.len());
        match self.ports.front(place, &mut buffer[..room]) {
            Some(count) if count > 0 && count <= room => self.reloads.judge(&buffer[..count]),
            _ => Judged::Else,
        }
    }

    // Waits, and tells of a reload that is wanted.
    fn find(&mut self, limit: Option<u64>, found: &mut [Ready]) -> Option<usize>
        ensures within { FindsWithin result (length found.new) }
        ensures serving { KeepsServing self.old.reloads self.new.reloads }
        ensures wanted { KeepsWanted self.old.reloads self.new.reloads }
        ensures passed { KeepsWaiting self.old.ports self.new.ports }
        ensures log { self.new.log ≡ self.old.log }
    {
        if !self.reloads.is_untold() {
            return self.ports.wait(limit, found);
        }
        let count = self.ports.wait(Some(0), found)?;
        if count >= found.len() {
            return Some(count);
        }
        found[count] = Ready::Reload;
        self.reloads.tell();
        Some(count + 1)
    }
}

impl<'r, 'w, R: Files + RandomSource + Clock + AllocGlobal> MachineSockets<'r, 'w, R> {
    // A connection asks for a reload: it is taken out of its place.
    fn turn_to(&mut self, place: u32, with_key: bool)
        requires { with_key ≡ true → IsSent self.old.reloads.key }
        ensures serving { KeepsServing self.old.reloads self.new.reloads }
        ensures wanted { KeepsWanted self.old.reloads self.new.reloads }
        ensures passed { KeepsWaiting self.old.ports self.new.ports }
        ensures log { self.new.log ≡ self.old.log }
    {
        let Some(asker) = self.ports.take(place) else {
            return;
        };
        self.reloads.ask(asker, with_key);
    }

    // A connection asks for metrics: it is taken out of its place, and answered.
    fn tell_metrics(&mut self, place: u32, with_key: bool)
        ensures told { MayBeScraped with_key self.old.reloads self.new.reloads }
        ensures serving { KeepsServing self.old.reloads self.new.reloads }
        ensures wanted { KeepsWanted self.old.reloads self.new.reloads }
        ensures passed { KeepsWaiting self.old.ports self.new.ports }
        ensures log { self.new.log ≡ self.old.log }
    {
        let Some(asker) = self.ports.take(place) else {
            return;
        };
        let page = self.timing.page(with_key);
        self.reloads.tell_metrics(asker, with_key, &page);
    }

    // Reads a connection, unless it asks for a reload or for metrics.
    fn receive(&mut self, place: u32, buffer: &mut [u8]) -> Received
        ensures within { ReadsWithin result (length buffer.new) }
        ensures serving { KeepsServing self.old.reloads self.new.reloads }
        ensures wanted { KeepsWanted self.old.reloads self.new.reloads }
        ensures passed { KeepsWaiting self.old.ports self.new.ports }
        ensures log { self.new.log ≡ self.old.log }
    {
        match self.judged(place, buffer) {
            Judged::More if !self.ports.is_hung(place) => Received::Later,
            Judged::Else | Judged::More => self.ports.read(place, buffer),
            Judged::Asks { with_key } => {
                self.turn_to(place, with_key);
                Received::End
            }
            Judged::AsksMetrics { with_key } => {
                self.tell_metrics(place, with_key);
                Received::End
            }
        }
    }
}

impl<'r, 'w, R: Files + RandomSource + Clock + AllocGlobal> Sockets for MachineSockets<'r, 'w, R> {
    ghost does = { NotesCall };

    fn wait(&mut self, limit: Option<u64>, found: &mut [Ready]) -> Option<usize> {
        self.timing.wait(limit);
        let count = self.find(limit, found);
        self.log.note(&SystemCall::Wait {
            limit,
            count,
            found,
        });
        count
    }

    fn ask(&mut self) {
        self.ports.ask();
        self.log.note(&SystemCall::Ask);
    }

    fn accept(&mut self, place: u32) -> Accepted {
        let came = self.ports.accept(place);
        self.log.note(&SystemCall::Accept { place, came });
        came
    }

    fn read(&mut self, place: u32, buffer: &mut [u8]) -> Received {
        let came = self.receive(place, buffer);
        self.timing.note_read(place, came, buffer);
        self.log.note(&SystemCall::Read {
            place,
            came,
            buffer,
        });
        came
    }

    fn write(&mut self, place: u32, bytes: &[u8]) -> Sent {
        self.timing.note_kept();
        let took = self.ports.write(place, bytes);
        self.timing.note_written(place, took, bytes);
        self.log.note(&SystemCall::Write { place, took, bytes });
        took
    }

    fn close(&mut self, place: u32) {
        self.ports.close(place);
        self.timing.forget(place);
        self.log.note(&SystemCall::Close { place });
    }

    fn pass(&mut self, place: u32) {
        self.ports.pass(place);
        self.timing.forget(place);
        self.log.note(&SystemCall::Pass { place });
    }
}
