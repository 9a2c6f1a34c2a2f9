//! Turns.
ghost use Rattle.std.specs.Prelude.{◌≡◌, ◌≤◌, ◌<◌, [], length};
ghost use Rattle.event_loop.specs.Goes.{NobodyIsSilent, HearsOf, LeadsToHearing, LeadsReading, LeadsFurther, LeadsToActs, LeadsWriting, running, to_write, keeping, promises};

use crate::keep::unkept;
use crate::limits::{LOOKS, PLACES};
use crate::place::{Place, Stage};
use crate::read::may_read;
use crate::service::Service;
use crate::tools::{Clocks, HookHost, Journal, Keeper, Tools};
use http_edge::ConnectionNo;
use outside::{ConnectionFault, Ready, Sent, Sockets};

impl<N: Sockets, C: Clocks, J: Journal, K: Keeper, H: HookHost> Tools<N, C, J, K, H> {
    // What was found ready is noted.
    fn hear(&self, service: &mut Service, ready: Ready)
        ensures hears { HearsOf (promises N.Sockets C.Clocks J.Journal (keeping K.Keeper) H.HookHost) ready (running service.old self.now) (running service.new self.now) }
        ensures within { NobodyIsSilent service.old → NobodyIsSilent service.new }
        ensures heard { service.new.heard ≡ service.old.heard }
    {
        match ready {
            Ready::Listener => service.queue = service.queue.told(),
            Ready::Reload => service.note_reload(),
            Ready::Connection {
                place: k,
                readable,
                writable,
                hung,
            } => {
                if k >= PLACES {
                    return;
                }
                let place = service.place_at(k);
                service.places[k as usize] = place.told(readable, writable, hung);
                service.due.add(k);
            }
        }
    }

    /// All that was found ready is noted.
    pub(crate) fn hear_all(&self, service: &mut Service, found: &[Ready])
        ensures hears { LeadsToHearing (promises N.Sockets C.Clocks J.Journal (keeping K.Keeper) H.HookHost) found.now (running service.old self.now) [] (running service.new self.now) }
        ensures within { NobodyIsSilent service.old → NobodyIsSilent service.new }
        ensures heard { service.new.heard ≡ service.old.heard }
    {
        for index in 0..found.len() {
            self.hear(service, found[index]);
        }
    }

    /// Each connection where something may be due is read, where it may be and was not read since the last wait.
    pub(crate) fn read_all(&mut self, service: &mut Service)
        ensures { LeadsReading (promises N.Sockets C.Clocks J.Journal (keeping K.Keeper) H.HookHost) 64 (running service.old self.old) (running service.new self.new) }
    {
        for k in 0..service.due.end() {
            if !service.due.is_at(k) {
                continue;
            }
            if service.is_heard(k) {
                continue;
            }
            let place = service.place_at(k);
            if !may_read(&self.edge, place, k) {
                continue;
            }
            self.read(service, k, place);
        }
    }

    /// While something is unkept, looks without waiting what else is ready, a few times at most, and reads the places that were not
    /// read since the last wait: so more is kept at once.
    pub(crate) fn read_more(&mut self, service: &mut Service, found: &mut [Ready])
        requires room { 65 ≤ length found.old }
        ensures { LeadsFurther (promises N.Sockets C.Clocks J.Journal (keeping K.Keeper) H.HookHost) 3 (running service.old self.old) (running service.new self.new) }
    {
        for nth in 0..LOOKS {
            let Some(_batch) = unkept(&self.edge) else {
                return;
            };
            let Some(count) = self.sockets.wait(Some(0), found) else {
                return;
            };
            self.hear_all(service, &found[..count]);
            self.read_all(service);
            if count == 0 {
                return;
            }
        }
    }

    /// Writes to a connection once, where there is output and the socket may take it.
    pub(crate) fn write(&mut self, service: &mut Service, k: u32)
        requires bound { k < 64 }
        ensures acts { LeadsToActs (promises N.Sockets C.Clocks J.Journal (keeping K.Keeper) H.HookHost) (to_write k) (running service.old self.old) (running service.new self.new) }
        ensures due { service.new.due ≡ service.old.due }
    {
        let i = k as usize;
        let place = service.place_at(k);
        if !place.may_take() {
            return;
        }
        let connection = ConnectionNo::new(k);
        let offer = place.offer(self.edge.output(connection));
        if offer.is_empty() {
            return;
        }
        match self.sockets.write(k, offer) {
            Sent::Bytes(count) => {
                self.edge.take(connection, count);
                service.places[i] = Place {
                    stage: place.stage.taken(count),
                    since: service.times.steady,
                    turn: service.turn,
                    ..place
                };
            }
            Sent::Later => {
                let writable = false;
                service.places[i] = Place { writable, ..place };
            }
            Sent::Failed => {
                let stage = Stage::Broken(ConnectionFault::Write);
                service.places[i] = Place { stage, ..place };
            }
        }
    }

    /// Each connection where something may be due is written to once, where it may be, and closed where it is over.
    pub(crate) fn write_all(&mut self, service: &mut Service)
        ensures { LeadsWriting (promises N.Sockets C.Clocks J.Journal (keeping K.Keeper) H.HookHost) 64 (running service.old self.old) (running service.new self.new) }
    {
        for k in 0..service.due.end() {
            if !service.due.is_at(k) {
                continue;
            }
            self.write(service, k);
            self.settle(service, k);
        }
    }
}
