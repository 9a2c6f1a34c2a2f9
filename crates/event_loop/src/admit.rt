//! Accepting connections.
ghost use Rattle.std.specs.Prelude.{◌≡◌, ◌≢◌, ◌<◌, ⊤, Some, IfSome, IfNone};
ghost use Rattle.event_loop.specs.Goes.{Told, Waits, InEach, IsFreeAt, AllTaken, IsCalm, IsRoomMadeIn, LeadsToAccepts, running, keeping, promises};

use crate::limits::PLACES;
use crate::noting::note;
use crate::place::{Place, Stage};
use crate::queue::Queue;
use crate::service::Service;
use crate::tools::{Clocks, HookHost, Journal, Keeper, Tools};
use http_edge::{ConnectionNo, Event};
use outside::{Accepted, ConnectionFault, Sockets};

impl Service {
    // A place where no connection is.
    fn free_place(&self) -> Option<u32>
        ensures free { IfSome result (λ k. (k < 64) × IsFreeAt self.now.places k) }
        ensures none { IfNone result (AllTaken self.now.places) }
    {
        for k in 0..PLACES {
            if !self.place_at(k).stage.is_taken() {
                return Some(k);
            }
        }
        None
    }
}

impl<N: Sockets, C: Clocks, J: Journal, K: Keeper, H: HookHost> Tools<N, C, J, K, H> {
    // Accepts a connection at a place, if one waits.
    fn admit(&mut self, service: &mut Service, k: u32)
        requires bound { k < 64 }
        requires free { IsFreeAt service.old.places k }
        requires told { service.old.queue ≡ Told }
        ensures leads { LeadsToAccepts (promises N.Sockets C.Clocks J.Journal (keeping K.Keeper) H.HookHost) ⊤ (running service.old self.old) (running service.new self.new) }
        ensures calm { IsCalm service.old → IsCalm service.new }
        ensures taken { service.new.queue ≢ Waits }
    {
        let now = service.times.steady;
        match self.sockets.accept(k) {
            Accepted::Taken => match self.edge.event(Event::Open(ConnectionNo::new(k))) {
                Ok(()) => {
                    service.places[k as usize] = Place {
                        stage: Stage::Open,
                        readable: false,
                        writable: true,
                        hung: false,
                        since: now,
                        came: now,
                        turn: 0,
                    };
                    service.accepted = service.accepted.saturating_add(1);
                }
                Err(fault) => {
                    self.sockets.close(k);
                    let cause = ConnectionFault::Refused(fault);
                    note(&mut service.noted, &mut self.journal, cause, now);
                }
            },
            Accepted::Later => service.queue = Queue::Empty,
            Accepted::Failed => {
                service.queue = Queue::Barred(now);
                let cause = ConnectionFault::Accept;
                note(&mut service.noted, &mut self.journal, cause, now);
            }
        }
    }

    /// Accepts connections while one may wait. Where all places are taken, the listener is asked whether one waits.
    pub(crate) fn admit_all(&mut self, service: &mut Service)
        ensures leads { LeadsToAccepts (promises N.Sockets C.Clocks J.Journal (keeping K.Keeper) H.HookHost) (service.new.queue ≡ Told) (running service.old self.old) (running service.new self.new) }
        ensures calm { IsCalm service.old → IsCalm service.new }
        ensures room { InEach H.HookHost self.old.edge (IsRoomMadeIn service.old) → InEach H.HookHost self.new.edge (IsRoomMadeIn service.new) }
    {
        for _nth in 0..PLACES {
            let Queue::Told = service.queue else {
                return;
            };
            let Some(k) = service.free_place() else {
                self.sockets.ask();
                service.queue = Queue::Asked;
                return;
            };
            self.admit(service, k);
        }
    }
}
