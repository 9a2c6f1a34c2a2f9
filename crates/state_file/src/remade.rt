//! A server in the making, with the hooks that its changes set.

ghost use Rattle.std.specs.Prelude.{◌≡◌, [], ◌∷◌, None, IfOk, IfErr, OnOk};
ghost use Rattle.batch_file.specs.Frames.{lists};
ghost use Rattle.change_codec.specs.Spelling.{dated_fact, dated_facts};
ghost use Rattle.endpoints.specs.Server.{outset_of};
ghost use Rattle.state_file.specs.Remaking.{FinishesAs, FitsRemade, MakesAgain, RefusesAgain, RefusesBatches, RefusesOne, TellsAgain};
ghost use Rattle.state_file.specs.Resuming.{RefusesToRedo};

use crate::fault::StateFault;
use crate::hooks::SetHooks;
use crate::listing::changes_of;
use crate::restored::Restored;
use change_codec::DatedChange;
use clients::Registry;
use consent::Moment;
use endpoints::{RedoFault, Remaking};
use hook_host::HookHost;
use std::alloc::Global;

/// A server that is made of a list of changes, one after the other, and the hooks that they set.
#[derive(Drop)]
pub(crate) struct Remade<H> {
    pub(crate) server: Remaking<H>,
    pub(crate) hooks: SetHooks,
}

impl<H: HookHost> Remade<H> {
    /// A server under the rules, of no change yet.
    pub(crate) fn new(alloc: Global, registry: Registry, host: H) -> Remade<H>
        ensures { FitsRemade H.HookHost result (outset_of registry host) [] 0 }
    {
        Remade {
            server: Remaking::new(alloc, registry, host),
            hooks: SetHooks::new(alloc),
        }
    }

    /// Makes a change again.
    fn redo(&mut self, dated: &DatedChange<'_>) -> Result<(), RedoFault>
        ensures redone { OnOk result (MakesAgain H.HookHost self.old (dated_fact dated.now ∷ []) self.new) }
        ensures rules { self.new.server.rules ≡ self.old.server.rules }
        ensures refused { IfErr result (RefusesToRedo H.HookHost self.old.server dated.now.moment dated.now.change) }
    {
        self.server.redo(dated.moment, &dated.change)?;
        let Ok(()) = self.hooks.follow(&dated.change) else {
            return Err(RedoFault::Memory);
        };
        Ok(())
    }

    /// Makes changes again, one after the other.
    fn redo_list(&mut self, changes: &[DatedChange<'_>]) -> Result<(), RedoFault>
        ensures redone { OnOk result (MakesAgain H.HookHost self.old (dated_facts changes.now) self.new) }
        ensures rules { self.new.server.rules ≡ self.old.server.rules }
        ensures refused { IfErr result (RefusesAgain H.HookHost self.old (dated_facts changes.now)) }
    {
        for dated in changes {
            self.redo(dated)?;
        }
        Ok(())
    }

    /// Makes the changes of a batch again.
    pub(crate) fn redo_batch(&mut self, alloc: Global, batch: &[u8]) -> Result<(), StateFault>
        ensures redone { OnOk result (TellsAgain H.HookHost self.old (batch.now ∷ []) self.new) }
        ensures rules { self.new.server.rules ≡ self.old.server.rules }
        ensures refused { IfErr result (RefusesOne H.HookHost self.old batch.now) }
    {
        let changes = changes_of(alloc, batch)?;
        self.redo_list(&changes)?;
        Ok(())
    }

    /// Makes the changes of the batches again. A fault is given with how many batches are before the one at fault.
    pub(crate) fn redo_all(
        &mut self,
        alloc: Global,
        batches: &[Vec<u8>],
    ) -> Result<(), (usize, StateFault)>
        ensures redone { OnOk result (TellsAgain H.HookHost self.old (lists batches.now) self.new) }
        ensures refused { IfErr result (λ fault. RefusesBatches H.HookHost self.old (lists batches.now) fault.1) }
    {
        let mut before: usize = 0;
        for batch in batches {
            if let Err(fault) = self.redo_batch(alloc, batch) {
                return Err((before, fault));
            }
            before = before.saturating_add(1);
        }
        Ok(())
    }

    /// The list is at its end: the server, which goes on from the last moment, or from a later one.
    pub(crate) fn finish(self, until: Moment) -> Restored<H>
        ensures fits { FinishesAs H.HookHost self until result }
        ensures unnoted { result.server.unkept ≡ None }
    {
        let server = self.server.finish(until);
        let moment = server.moment();
        Restored {
            server,
            moment,
            hooks: self.hooks,
        }
    }
}
