//! Telling what the server does.
ghost use Rattle.std.specs.Prelude.{◌≡◌, Some, IsSome};
ghost use Rattle.event_loop.specs.Goes.{open_count, is_long_ago, IsReported, LeadsLast, LeadsTelling, OnlyTells, OnlyTellsRoom, running, SettlesAll, TellsNow, keeping, promises};

use crate::limits::{MINUTE, PLACES};
use crate::service::Service;
use crate::tools::{Clocks, HookHost, Journal, Keeper, Sockets, Tools};
use outside::{Notice, Report};

/// Whether that was never, or so many seconds ago.
pub(crate) fn is_long_ago(last: Option<u64>, now: u64, seconds: u64) -> bool
    ensures { result ≡ is_long_ago last now seconds }
{
    match last {
        Some(last) => now.saturating_sub(last) >= seconds,
        None => true,
    }
}

impl Service {
    /// How many connections are there.
    pub(crate) fn open_count(&self) -> u32
        ensures { result ≡ open_count self.now.places }
    {
        let mut count: u32 = 0;
        for k in 0..PLACES {
            if !self.place_at(k).stage.is_taken() {
                continue;
            }
            count += 1;
        }
        count
    }
}

impl<N: Sockets, C: Clocks, J: Journal, K: Keeper, H: HookHost> Tools<N, C, J, K, H> {
    // What there is to report.
    fn report_now(&self, service: &Service) -> Report
        ensures { TellsNow (promises N.Sockets C.Clocks J.Journal (keeping K.Keeper) H.HookHost) (running service.now self.now) result }
    {
        let server = self.edge.server();
        Report {
            moment: server.moment(),
            seconds: service.times.steady.saturating_sub(service.began),
            open: service.open_count(),
            accepted: service.accepted,
            tally: *server.tally(),
            records: server.record_count(),
            consents: server.consent_count(),
            hooks: server.hook_count(),
            state: self.keeper.size(),
        }
    }

    /// Where what is kept wants room, or no longer does, the journal is told, whether reports are wanted or not.
    pub(crate) fn tell_room(&mut self, service: &mut Service)
        ensures leads { LeadsTelling (promises N.Sockets C.Clocks J.Journal (keeping K.Keeper) H.HookHost) (running service.old self.old) (running service.new self.new) }
        ensures told { service.new.told.room ≡ K.wants_room self.new.keeper }
        ensures rest { OnlyTellsRoom service.old service.new }
        ensures tools { self.new ≡ record self.old { journal = self.new.journal } }
    {
        let wants = self.keeper.wants_room();
        if wants == service.told.room {
            return;
        }
        self.journal.report(&Notice::WantsRoom(wants));
        service.told.room = wants;
    }

    // Where reports are wanted, the journal is told that the store was full, unless it was within a minute.
    fn tell_full(&mut self, service: &mut Service)
        requires wanted { IsSome service.old.limits.report }
        ensures leads { SettlesAll (promises N.Sockets C.Clocks J.Journal (keeping K.Keeper) H.HookHost) (running service.old self.old) (running service.new self.new) }
        ensures rest { OnlyTells service.old service.new }
        ensures edge { self.new.edge ≡ self.old.edge }
        ensures report { service.new.told.report ≡ service.old.told.report }
    {
        let full = self.edge.server().tally().wanted.store_room;
        if full == service.full {
            return;
        }
        service.full = full;
        if !is_long_ago(service.told.full, service.times.steady, MINUTE) {
            return;
        }
        self.journal.report(&Notice::StoreFull);
        service.told.full = Some(service.times.steady);
    }

    // And what there is to report, unless so many seconds have not passed.
    fn tell_report(&mut self, service: &mut Service, every: u64)
        requires wanted { service.old.limits.report ≡ Some every }
        ensures leads { SettlesAll (promises N.Sockets C.Clocks J.Journal (keeping K.Keeper) H.HookHost) (running service.old self.old) (running service.new self.new) }
        ensures rest { OnlyTells service.old service.new }
        ensures edge { self.new.edge ≡ self.old.edge }
        ensures reported { IsReported service.new }
    {
        if service.times.steady.saturating_sub(service.told.report) < every {
            return;
        }
        let report = self.report_now(service);
        self.journal.report(&Notice::Reported(report));
        service.told.report = service.times.steady;
    }

    /// Where reports are wanted, the journal is told what is due.
    pub(crate) fn tell(&mut self, service: &mut Service)
        ensures leads { SettlesAll (promises N.Sockets C.Clocks J.Journal (keeping K.Keeper) H.HookHost) (running service.old self.old) (running service.new self.new) }
        ensures rest { OnlyTells service.old service.new }
        ensures edge { self.new.edge ≡ self.old.edge }
        ensures reported { IsReported service.new }
    {
        let Some(every) = service.limits.report else {
            return;
        };
        self.tell_full(service);
        self.tell_report(service, every);
    }

    /// Where reports are wanted, there is a last one.
    pub(crate) fn tell_last(&mut self, service: &Service)
        ensures { LeadsLast (promises N.Sockets C.Clocks J.Journal (keeping K.Keeper) H.HookHost) (running service.now self.old) (running service.now self.new) }
    {
        let Some(_every) = service.limits.report else {
            return;
        };
        let report = self.report_now(service);
        self.journal.report(&Notice::Reported(report));
    }
}
