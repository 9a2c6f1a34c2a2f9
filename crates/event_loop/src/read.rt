//! Reading connections.
ghost use Rattle.std.specs.Prelude.{◌≡◌, ◌<◌, true, false, Some, OnOk, IfErr, slice_get, slice_set};
ghost use Rattle.http_edge.specs.Pieces.{supplied};
ghost use Rattle.event_loop.specs.Giving.{AreBytesHeard, IsUnheard};
ghost use Rattle.event_loop.specs.GivingParts.{LeadsToGiving};
ghost use Rattle.event_loop.specs.Goes.{is_closing, piece_of, MayRead, WhereKnown, LeadsToRead, running, keeping, promises};

use crate::limits::{BACKLOG_LIMIT, CUT_LIMIT};
use crate::place::{Place, Stage};
use crate::service::Service;
use crate::tools::{Clocks, HookHost, Journal, Keeper, Tools};
use consent::Moment;
use http_edge::{ConnectionNo, Edge, EdgeFault, Event};
use outside::{ConnectionFault, Received, Sockets};
use rand_chacha::ChaCha20Rng;
use telling::Tellings;

/// Whether a connection may be read.
pub(crate) fn may_read<H: HookHost>(edge: &Edge<H>, place: Place, k: u32) -> bool
    ensures readable { result ≡ true → place.readable ≡ true }
    ensures may { result ≡ true → WhereKnown H.HookHost edge.now k (MayRead place) }
    ensures rests { result ≡ false → place.readable ≡ true → WhereKnown H.HookHost edge.now k (λ connection. ¬ (MayRead place connection)) }
{
    if !place.readable {
        return false;
    }
    if !place.stage.is_open() {
        return false;
    }
    let connection = ConnectionNo::new(k);
    if edge.output(connection).len() > BACKLOG_LIMIT {
        return false;
    }
    !edge.closing(connection)
}

// Gives bytes to the edge in cuts, up to the 400 of a faulty head.
fn give_cuts<H: HookHost>(
    edge: &mut Edge<H>,
    generator: &mut ChaCha20Rng,
    tellings: &mut Tellings,
    k: ConnectionNo,
    bytes: &[u8],
    moment: Moment,
) -> Result<(), EdgeFault>
    ensures heard { OnOk result (LeadsToGiving H.HookHost (AreBytesHeard H.HookHost (piece_of k bytes.now moment)) (supplied edge.old generator.old tellings.old) (supplied edge.new generator.new tellings.new)) }
    ensures unheard { IfErr result (λ fault. LeadsToGiving H.HookHost (IsUnheard H.HookHost (piece_of k bytes.now moment) fault) (supplied edge.old generator.old tellings.old) (supplied edge.new generator.new tellings.new)) }
{
    let mut start = 0;
    'cuts: while start < bytes.len() {
        if edge.closing(k) {
            return Ok(());
        }
        let count = CUT_LIMIT.min(bytes.len() - start);
        let cut = &bytes[start..start + count];
        if let Err(fault) = edge.hear(k, cut, moment, generator, tellings) {
            return Err(fault);
        }
        start += count;
    }
    Ok(())
}

// Gives bytes to the edge at once, and in cuts where they complete too many requests.
fn give_all<H: HookHost>(
    edge: &mut Edge<H>,
    generator: &mut ChaCha20Rng,
    tellings: &mut Tellings,
    k: ConnectionNo,
    bytes: &[u8],
    moment: Moment,
) -> Result<(), EdgeFault>
    requires stays { WhereKnown H.HookHost edge.old k (λ connection. is_closing connection ≡ false) }
    ensures heard { OnOk result (LeadsToGiving H.HookHost (AreBytesHeard H.HookHost (piece_of k bytes.now moment)) (supplied edge.old generator.old tellings.old) (supplied edge.new generator.new tellings.new)) }
    ensures unheard { IfErr result (λ fault. LeadsToGiving H.HookHost (IsUnheard H.HookHost (piece_of k bytes.now moment) fault) (supplied edge.old generator.old tellings.old) (supplied edge.new generator.new tellings.new)) }
{
    let Err(fault) = edge.hear(k, bytes, moment, generator, tellings) else {
        return Ok(());
    };
    let EdgeFault::TooManyRequests = fault else {
        return Err(fault);
    };
    give_cuts(edge, generator, tellings, k, bytes, moment)
}

impl<N: Sockets, C: Clocks, J: Journal, K: Keeper, H: HookHost> Tools<N, C, J, K, H> {
    /// Reads a connection once, and gives what came to the edge.
    pub(crate) fn read(&mut self, service: &mut Service, k: u32, place: Place)
        requires bound { k < 64 }
        requires here { slice_get service.old.places k ≡ Some place }
        requires readable { place.readable ≡ true }
        requires may { WhereKnown H.HookHost self.old.edge k (MayRead place) }
        ensures reads { LeadsToRead (promises N.Sockets C.Clocks J.Journal (keeping K.Keeper) H.HookHost) k (running service.old self.old) (running service.new self.new) }
        ensures due { service.new.due ≡ service.old.due }
        ensures heard { service.new.heard ≡ slice_set service.old.heard k true }
    {
        let i = k as usize;
        service.heard[i] = true;
        let connection = ConnectionNo::new(k);
        match self.sockets.read(k, &mut service.buffer) {
            Received::Bytes(count) => {
                let bytes = &service.buffer[..count];
                match give_all(
                    &mut self.edge,
                    &mut self.generator,
                    &mut self.tellings,
                    connection,
                    bytes,
                    service.times.moment,
                ) {
                    Ok(()) => service.places[i] = place.read(count),
                    Err(fault) => {
                        let stage = Stage::Broken(ConnectionFault::Refused(fault));
                        service.places[i] = Place { stage, ..place };
                    }
                }
            }
            Received::End => match self.edge.event(Event::End(connection)) {
                Ok(()) => {
                    let stage = Stage::Ended;
                    service.places[i] = Place { stage, ..place };
                }
                Err(fault) => {
                    let stage = Stage::Broken(ConnectionFault::Refused(fault));
                    service.places[i] = Place { stage, ..place };
                }
            },
            Received::Later => {
                let readable = false;
                service.places[i] = Place { readable, ..place };
            }
            Received::Failed => {
                let stage = Stage::Broken(ConnectionFault::Read);
                service.places[i] = Place { stage, ..place };
            }
        }
    }
}
