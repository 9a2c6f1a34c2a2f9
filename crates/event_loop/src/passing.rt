//! The end of the loop for a reload: connections between two requests are handed on, in place of being closed.
ghost use Rattle.std.specs.Prelude.{◌≡◌, ◌<◌, true, false};
ghost use Rattle.event_loop.specs.Goes.{AreAllBetween, AreNotBetween, FreesPlace, InEach, IsApart, IsBetween, IsNoTimeSince, IsTimeSince, LeadsPassing, MayEnd, ServesOn, WhereKnown, asked_since, running, keeping, promises};
ghost use Rattle.outside.specs.declared.fault.LoopFault.TheVariants.{Reload};

use crate::limits::PLACES;
use crate::place::{Place, Stage};
use crate::service::Service;
use crate::tools::{HookHost, Journal, Keeper, Sockets, Tools};
use http_edge::{ConnectionNo, Edge};
use outside::{Clocks, LoopFault};

// Whether a connection is between two requests: it has had all replies, and nothing of a request that is not whole was read.
fn is_between<H: HookHost>(edge: &Edge<H>, place: Place, k: u32) -> bool
    ensures between { result ≡ true → WhereKnown H.HookHost edge.now k (IsBetween place) }
    ensures apart { result ≡ false → WhereKnown H.HookHost edge.now k (IsApart place) }
{
    if !place.stage.is_open() {
        return false;
    }
    let connection = ConnectionNo::new(k);
    if edge.closing(connection) {
        return false;
    }
    if edge.held(connection) > 0 {
        return false;
    }
    edge.output(connection).is_empty()
}

/// Whether a connection is handed on: the loop ends for a reload, and it is between two requests.
pub(crate) fn is_handed_on<H: HookHost>(
    edge: &Edge<H>,
    place: Place,
    k: u32,
    fault: LoopFault,
) -> bool
    ensures reload { result ≡ true → fault ≡ Reload }
    ensures between { result ≡ true → WhereKnown H.HookHost edge.now k (IsBetween place) }
    ensures apart { result ≡ false → fault ≡ Reload → WhereKnown H.HookHost edge.now k (IsApart place) }
{
    match fault {
        LoopFault::Reload => is_between(edge, place, k),
        _ => false,
    }
}

impl Service {
    /// A reload is wanted since now, unless it is since earlier.
    pub(crate) fn note_reload(&mut self)
        ensures { self.new ≡ record self.old { reload = asked_since self.old.reload self.old.times.steady } }
    {
        self.reload = Some(self.reload.unwrap_or(self.times.steady));
    }
}

impl<N: Sockets, C: Clocks, J: Journal, K: Keeper, H: HookHost> Tools<N, C, J, K, H> {
    // Whether all connections are between two requests.
    fn are_between(&self, service: &Service) -> bool
        ensures between { result ≡ true → InEach H.HookHost self.now.edge (AreAllBetween service.now) }
        ensures apart { result ≡ false → InEach H.HookHost self.now.edge (AreNotBetween service.now) }
    {
        for k in 0..PLACES {
            let place = service.place_at(k);
            if !place.stage.is_taken() {
                continue;
            }
            if !is_between(&self.edge, place, k) {
                return false;
            }
        }
        true
    }

    // Whether all are, or a reload is wanted for longer than some seconds, where it is since this one.
    fn is_time(&self, service: &Service, since: u64) -> bool
        ensures ends { result ≡ true → InEach H.HookHost self.now.edge (IsTimeSince since service.now) }
        ensures serves_on { result ≡ false → InEach H.HookHost self.now.edge (IsNoTimeSince since service.now) }
    {
        let waited = service.times.steady.saturating_sub(since);
        let most = service.limits.crowded;
        if waited > most {
            return true;
        }
        self.are_between(service)
    }

    /// Whether the loop is to end for a reload now.
    pub(crate) fn may_end(&self, service: &Service) -> bool
        ensures ends { result ≡ true → InEach H.HookHost self.now.edge (MayEnd service.now) }
        ensures serves_on { result ≡ false → InEach H.HookHost self.now.edge (ServesOn service.now) }
    {
        match service.reload {
            None => false,
            Some(since) => self.is_time(service, since),
        }
    }

    /// Hands a connection on, and forgets it.
    pub(crate) fn pass(&mut self, service: &mut Service, k: u32, place: Place)
        requires bound { k < 64 }
        ensures away { LeadsPassing (promises N.Sockets C.Clocks J.Journal (keeping K.Keeper) H.HookHost) k place (running service.old self.old) (running service.new self.new) }
        ensures rest { FreesPlace k place service.old service.new }
    {
        self.sockets.pass(k);
        self.edge.forget(ConnectionNo::new(k));
        let stage = Stage::Free;
        service.places[k as usize] = Place { stage, ..place };
        service.queue = service.queue.freed();
    }
}
