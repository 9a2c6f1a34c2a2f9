//! Making room for others.
ghost use Rattle.std.specs.Prelude.{◌≡◌, ◌≢◌, true, false, IfSome, IfNone};
ghost use Rattle.event_loop.specs.Goes.{Answered, Owed, Waits, InEach, IsOccupied, IsOneLeaving, AreGuestsBrief, IsCalm, IsEldestAt, IsGuest, IsRoomMadeIn, IsTried, NobodyIsSilent, WhereKnown, counts_from, running, SettlesAll, keeping, promises};

use crate::limits::PLACES;
use crate::place::{Place, Stage};
use crate::queue::Queue;
use crate::service::Service;
use crate::tools::{HookHost, Journal, Keeper, Sockets, Tools};
use http_edge::{ConnectionNo, Edge};
use outside::Clocks;

/// Which connections make room for others.
#[derive(Clone, Copy)]
pub(crate) enum Guest {
    /// Those that take no byte of a reply.
    Silent,
    /// Those right behind a reply.
    Answered,
    /// Those that do not make room yet, and are owed replies.
    Owed,
}

// Since when a connection counts as one of those: since it took the last bytes, or came.
fn counts_from(guest: Guest, place: Place) -> u64
    ensures { result ≡ counts_from guest place }
{
    match guest {
        Guest::Silent => place.since,
        _ => place.came,
    }
}

// Whether a connection is one of those. Right behind a reply is one that took the last of its output in this turn.
fn is_guest<H: HookHost>(edge: &Edge<H>, guest: Guest, place: Place, turn: u64, k: u32) -> bool
    ensures taken { result ≡ true → IsOccupied place.stage }
    ensures guest { result ≡ true → WhereKnown H.HookHost edge.now k (IsGuest guest turn place) }
    ensures not_guest { result ≡ false → WhereKnown H.HookHost edge.now k (λ connection. ¬ (IsGuest guest turn place connection)) }
{
    if !place.stage.is_taken() {
        return false;
    }
    let is_owed = !edge.output(ConnectionNo::new(k)).is_empty();
    let stays = place.stage.is_staying();
    match guest {
        Guest::Silent => true,
        Guest::Answered => !is_owed && place.turn == turn,
        Guest::Owed => is_owed && stays,
    }
}

impl Service {
    // Whether one was chosen to make room, no longer ago than others may stay.
    fn is_one_leaving(&self) -> bool
        ensures one { result ≡ true → IsOneLeaving self.now.limits.crowded self.now.times self.now.places }
        ensures none { result ≡ false → ¬ (IsOneLeaving self.now.limits.crowded self.now.times self.now.places) }
    {
        for k in 0..PLACES {
            let place = self.place_at(k);
            if self.times.steady.saturating_sub(place.came) > self.limits.crowded {
                continue;
            }
            if let Stage::Leaving(_left) = place.stage {
                return true;
            }
        }
        false
    }
}

impl<N: Sockets, C: Clocks, J: Journal, K: Keeper, H: HookHost> Tools<N, C, J, K, H> {
    // The place whose connection counts as one of those for longest, where one does for longer than it may.
    fn eldest(&self, service: &Service, guest: Guest) -> Option<(u32, Place)>
        ensures eldest { IfSome result (IsEldestAt H.HookHost self.now.edge guest service.now) }
        ensures none { IfNone result (InEach H.HookHost self.now.edge (AreGuestsBrief guest service.now)) }
    {
        let mut eldest = None;
        let mut most = service.limits.crowded;
        for k in 0..PLACES {
            let place = service.place_at(k);
            let since = counts_from(guest, place);
            let stay = service.times.steady.saturating_sub(since);
            if stay <= most {
                continue;
            }
            if !is_guest(&self.edge, guest, place, service.turn, k) {
                continue;
            }
            eldest = Some((k, place));
            most = stay;
        }
        eldest
    }

    /// Where all places are taken and another connection waits still, one of those gives way: who was silent for longest, or who is
    /// there for longest, right behind a reply, however busy.
    pub(crate) fn give_way(&mut self, service: &mut Service, guest: Guest)
        requires others { guest ≢ Owed }
        ensures leads { SettlesAll (promises N.Sockets C.Clocks J.Journal (keeping K.Keeper) H.HookHost) (running service.old self.old) (running service.new self.new) }
        ensures idle { NobodyIsSilent service.old → NobodyIsSilent service.new }
        ensures tried { IsTried service.old → IsTried service.new }
        ensures brief { service.new.queue ≡ Waits → InEach H.HookHost self.new.edge (AreGuestsBrief guest service.new) }
        ensures still { service.new.queue ≡ Waits → (service.new ≡ service.old) × (self.new.edge ≡ self.old.edge) }
    {
        let Queue::Waits = service.queue else {
            return;
        };
        let Some((k, place)) = self.eldest(service, guest) else {
            return;
        };
        self.leave(service, k, place);
    }

    /// Where another connection waits still, the one that is there longest of those that are owed replies is chosen to make room, if
    /// none was in the last seconds: it goes once it took the reply that it is taking, so at once where it is taking none.
    pub(crate) fn hear_out(&mut self, service: &mut Service)
        requires behind { service.old.queue ≡ Waits → InEach H.HookHost self.old.edge (AreGuestsBrief Answered service.old) }
        ensures leads { SettlesAll (promises N.Sockets C.Clocks J.Journal (keeping K.Keeper) H.HookHost) (running service.old self.old) (running service.new self.new) }
        ensures calm { IsCalm service.old → IsCalm service.new }
        ensures room { InEach H.HookHost self.new.edge (IsRoomMadeIn service.new) }
    {
        let Queue::Waits = service.queue else {
            return;
        };
        if service.is_one_leaving() {
            return;
        }
        let Some((k, place)) = self.eldest(service, Guest::Owed) else {
            return;
        };
        let left = self.edge.left_of_reply(ConnectionNo::new(k));
        if left == 0 {
            self.leave(service, k, place);
            return;
        }
        service.places[k as usize] = Place {
            stage: Stage::Leaving(left),
            came: service.times.steady,
            ..place
        };
    }
}
