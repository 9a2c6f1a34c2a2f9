//! What is kept is shortened, a slice at a time, and the keeper keeps its place.
ghost use Rattle.std.specs.Prelude.{◌≡◌, None, Some, IfOk, IfErr, OnOk};
ghost use Rattle.change_codec.specs.declared.keeper.Length.TheVariants.{Short, Long};
ghost use Rattle.event_loop.specs.Goes.{TellsRefusal, LeadsToShort, LeadsToTended, LeadsToUnshortened, LeadsToUntended, running, keeping, promises};

use crate::keep::unkept;
use crate::limits::{MINUTE, SECOND};
use crate::service::Service;
use crate::tell::is_long_ago;
use crate::tools::{Clocks, HookHost, Journal, Keeper, Sockets, Tools};
use change_codec::{Length, ShortenFault};
use outside::{LoopFault, Notice};

impl Service {
    // Shortening is refused now. The journal is told once, until no more is kept than may be.
    fn note_refusal<J: Journal>(&mut self, journal: &mut J)
        ensures told { TellsRefusal J.Journal self.old.refused journal.old journal.new }
        ensures refused { self.new ≡ record self.old { refused = Some self.old.times.steady } }
    {
        if self.refused.is_none() {
            journal.report(&Notice::ShorteningRefused);
        }
        self.refused = Some(self.times.steady);
    }

    // Where no more is kept than may be, a refusal is done with.
    fn note_length(&mut self, length: Length)
        ensures short { length ≡ Short → self.new ≡ record self.old { refused = None } }
        ensures long { length ≡ Long → self.new ≡ self.old }
        ensures rest { self.new ≡ record self.old { refused = self.new.refused } }
    {
        if let Length::Short = length {
            self.refused = None;
        }
    }
}

impl<N: Sockets, C: Clocks, J: Journal, K: Keeper, H: HookHost> Tools<N, C, J, K, H> {
    /// The keeper keeps its place, and says by when it wants to be called again, if it does, in milliseconds.
    pub(crate) fn tend(&mut self, steady: u64) -> Result<Option<u64>, LoopFault>
        ensures tended { IfOk result (λ due. LeadsToTended (promises N.Sockets C.Clocks J.Journal (keeping K.Keeper) H.HookHost) steady self.old due self.new) }
        ensures lost { IfErr result (λ fault. LeadsToUntended (promises N.Sockets C.Clocks J.Journal (keeping K.Keeper) H.HookHost) self.old fault self.new) }
    {
        match self.keeper.tend(steady.saturating_mul(SECOND)) {
            Ok(due) => Ok(due),
            Err(_failed) => Err(LoopFault::Keep),
        }
    }

    /// Where nothing is unkept, and more is kept than may be, that is shortened by a slice. Says whether more is kept still. It says
    /// nothing where that is refused: it is tried again after a minute.
    pub(crate) fn shorten_some(
        &mut self,
        service: &mut Service,
    ) -> Result<Option<Length>, LoopFault>
        ensures shorter { IfOk result (λ told. LeadsToShort (promises N.Sockets C.Clocks J.Journal (keeping K.Keeper) H.HookHost) (running service.old self.old) told (running service.new self.new)) }
        ensures same { OnOk result (service.new ≡ record service.old { refused = service.new.refused }) }
        ensures failed { IfErr result (λ fault. LeadsToUnshortened (promises N.Sockets C.Clocks J.Journal (keeping K.Keeper) H.HookHost) (running service.old self.old) fault (running service.new self.new)) }
    {
        if !is_long_ago(service.refused, service.times.steady, MINUTE) {
            return Ok(None);
        }
        if let Some(_batch) = unkept(&self.edge) {
            return Ok(None);
        }
        let fault = match self.keeper.shorten_some() {
            Ok(length) => {
                service.note_length(length);
                return Ok(Some(length));
            }
            Err(fault) => fault,
        };
        match fault {
            ShortenFault::Failed => Err(LoopFault::Keep),
            _ => {
                service.note_refusal(&mut self.journal);
                Ok(None)
            }
        }
    }
}
