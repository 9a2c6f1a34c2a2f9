//! Closing connections.
ghost use Rattle.std.specs.Prelude.{◌≡◌, ◌≢◌, ◌<◌, ℕ, true, slice_get};
ghost use Rattle.event_loop.specs.Goes.{AllFree, NobodyIsSilent, IsTried, LeadsAway, LeadsShut, LeadsToTidy, running, SettlesAll, FreesPlace, keeping, promises};

use crate::due::Due;
use crate::limits::PLACES;
use crate::noting::note_end;
use crate::passing::is_handed_on;
use crate::place::{Place, Stage};
use crate::queue::Queue;
use crate::service::Service;
use crate::tools::{HookHost, Journal, Keeper, Sockets, Tools};
use http_edge::ConnectionNo;
use outside::{Clocks, LoopFault};

impl<N: Sockets, C: Clocks, J: Journal, K: Keeper, H: HookHost> Tools<N, C, J, K, H> {
    /// Closes and forgets a connection, and notes its fault.
    pub(crate) fn leave(&mut self, service: &mut Service, k: u32, place: Place)
        requires bound { k < 64 }
        ensures away { LeadsAway (promises N.Sockets C.Clocks J.Journal (keeping K.Keeper) H.HookHost) k place (running service.old self.old) (running service.new self.new) }
        ensures rest { FreesPlace k place service.old service.new }
    {
        self.sockets.close(k);
        self.edge.forget(ConnectionNo::new(k));
        let now = service.times.steady;
        note_end(&mut service.noted, &mut self.journal, place.stage, now);
        let stage = Stage::Free;
        service.places[k as usize] = Place { stage, ..place };
        service.queue = service.queue.freed();
    }

    /// Closes a connection that is over. For another, it is noted whether something is due.
    pub(crate) fn settle(&mut self, service: &mut Service, k: u32)
        requires bound { k < 64 }
        ensures tidies { LeadsToTidy (promises N.Sockets C.Clocks J.Journal (keeping K.Keeper) H.HookHost) k (running service.old self.old) (running service.new self.new) }
        ensures due { (j : ℕ) → j ≢ k → slice_get service.new.due j ≡ slice_get service.old.due j }
    {
        let place = service.place_at(k);
        let connection = ConnectionNo::new(k);
        let output = place.offer(self.edge.output(connection)).len();
        let closing = self.edge.closing(connection);
        match place.due(output, closing) {
            Due::Close => {
                service.due.remove(k);
                self.leave(service, k, place);
            }
            Due::Work => service.due.add(k),
            Due::Rest => service.due.remove(k),
        }
    }

    // Closes each connection that took no byte of a reply for too long. In the second of the round before, nobody can have become one.
    fn sweep(&mut self, service: &mut Service, is_same_second: bool)
        ensures leads { SettlesAll (promises N.Sockets C.Clocks J.Journal (keeping K.Keeper) H.HookHost) (running service.old self.old) (running service.new self.new) }
        ensures within { (is_same_second ≡ true → NobodyIsSilent service.old) → NobodyIsSilent service.new }
    {
        if is_same_second {
            return;
        }
        for k in 0..PLACES {
            let place = service.place_at(k);
            if !place.stage.is_taken() {
                continue;
            }
            if service.times.steady.saturating_sub(place.since) <= service.limits.idle {
                continue;
            }
            self.leave(service, k, place);
        }
    }

    /// In another second than that of the round before, silent connections are closed. Where an accept failed in another
    /// second, it is tried again.
    pub(crate) fn tidy(&mut self, service: &mut Service, is_same_second: bool)
        ensures leads { SettlesAll (promises N.Sockets C.Clocks J.Journal (keeping K.Keeper) H.HookHost) (running service.old self.old) (running service.new self.new) }
        ensures within { (is_same_second ≡ true → NobodyIsSilent service.old) → NobodyIsSilent service.new }
        ensures tried { IsTried service.new }
    {
        self.sweep(service, is_same_second);
        let Queue::Barred(since) = service.queue else {
            return;
        };
        if since == service.times.steady {
            return;
        }
        service.queue = Queue::Told;
    }

    /// Closes each connection that is left; where the loop ends for a reload, those between two requests are handed on instead.
    pub(crate) fn leave_all(&mut self, service: &mut Service, fault: LoopFault)
        ensures shut { LeadsShut (promises N.Sockets C.Clocks J.Journal (keeping K.Keeper) H.HookHost) fault (running service.old self.old) (running service.new self.new) }
        ensures free { AllFree service.new.places }
    {
        for k in 0..PLACES {
            let place = service.place_at(k);
            if !place.stage.is_taken() {
                continue;
            }
            if is_handed_on(&self.edge, place, k, fault) {
                self.pass(service, k, place);
                continue;
            }
            self.leave(service, k, place);
        }
    }
}
