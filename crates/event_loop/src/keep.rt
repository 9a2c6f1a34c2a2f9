//! Keeping what changed, and handing on what was told.
ghost use Rattle.std.specs.Prelude.{OnOk, OnSome, IfErr, IfSome, IfNone, IsSome};
ghost use Rattle.consent.specs.History.{Happened};
ghost use Rattle.http_edge.specs.Edges.{unkept_of};
ghost use Rattle.event_loop.specs.Goes.{InEach, IsAllKept, IsUnkept, LeadsToAudit, LeadsToKept, LeadsToLoss, LeadsToTold, keeping, promises};

use crate::service::Service;
use crate::tools::{Batch, Clocks, HookHost, Journal, Keeper, Sockets, Tools};
use http_edge::Edge;
use outside::LoopFault;

/// What is unkept, if anything is.
pub(crate) fn unkept<H: HookHost>(edge: &Edge<H>) -> Option<&Batch>
    ensures noted { OnSome result (IsSome (unkept_of edge.now)) }
    ensures some { IfSome result (λ batch. InEach H.HookHost edge.now (λ world. (it : IsUnkept world) × Happened it.kept batch.now.facts world.history)) }
    ensures none { IfNone result (InEach H.HookHost edge.now IsAllKept) }
{
    let Some(batch) = edge.unkept() else {
        return None;
    };
    if batch.is_empty() {
        return None;
    }
    Some(batch)
}

impl<N: Sockets, C: Clocks, J: Journal, K: Keeper, H: HookHost> Tools<N, C, J, K, H> {
    // What is unkept is kept, all at once, at the moment that the clocks told. Where nothing is, and something may be due, the keeper is
    // asked whether nobody else has begun.
    fn keep_unkept(&mut self, service: &Service) -> Result<(), LoopFault>
        ensures kept { OnOk result (LeadsToKept (promises N.Sockets C.Clocks J.Journal (keeping K.Keeper) H.HookHost) service.now self.old self.new) }
        ensures lost { IfErr result (λ fault. LeadsToLoss (promises N.Sockets C.Clocks J.Journal (keeping K.Keeper) H.HookHost) service.now self.old fault self.new) }
    {
        let Some(batch) = unkept(&self.edge) else {
            if service.due.end() == 0 {
                return Ok(());
            }
            return match self.keeper.confirm() {
                Ok(()) => Ok(()),
                Err(_failed) => Err(LoopFault::Keep),
            };
        };
        let Ok(()) = self.keeper.keep(batch, service.times.moment) else {
            return Err(LoopFault::Keep);
        };
        self.edge.forget_unkept();
        Ok(())
    }

    // What was told is handed to the journal, where there is something.
    fn hand_on(&mut self)
        ensures { LeadsToAudit (promises N.Sockets C.Clocks J.Journal (keeping K.Keeper) H.HookHost) self.old self.new }
    {
        if self.tellings.is_empty() {
            return;
        }
        let rules = self.edge.server().rules();
        self.journal.audit(rules, &self.tellings);
        self.tellings.forget();
    }

    /// What is unkept is kept, all at once, or the keeper is asked whether nobody else has begun; and then what was told is handed on.
    pub(crate) fn keep_all(&mut self, service: &Service) -> Result<(), LoopFault>
        ensures kept { OnOk result (LeadsToTold (promises N.Sockets C.Clocks J.Journal (keeping K.Keeper) H.HookHost) service.now self.old self.new) }
        ensures lost { IfErr result (λ fault. LeadsToLoss (promises N.Sockets C.Clocks J.Journal (keeping K.Keeper) H.HookHost) service.now self.old fault self.new) }
    {
        if let Err(fault) = self.keep_unkept(service) {
            return Err(fault);
        }
        self.hand_on();
        Ok(())
    }
}
