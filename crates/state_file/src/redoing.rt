//! A server that is made of the changes of batches, up to one that is refused.

ghost use Rattle.std.specs.Prelude.{◌≡◌, ◌++◌, ℕ, List, [], ◌∷◌, None, IfOk, IfErr};
ghost use Rattle.endpoints.specs.Server.{Outset, outset_of};
ghost use Rattle.state_file.specs.Going.{IsMadeOf, IsRedone};
ghost use Rattle.state_file.specs.Resuming.{RefusesList};
ghost use Rattle.state_file.specs.Standing.{until_of};

use crate::fault::StateFault;
use crate::remade::Remade;
use crate::restored::Restored;
use clients::Registry;
use consent::Moment;
use hook_host::HookHost;
use std::alloc::Global;

/// A server that is made of the changes of batches, up to one that is refused.
#[derive(Drop)]
pub(crate) struct Redoing<H> {
    remade: Remade<H>,
    /// Why that one is refused.
    held: Option<StateFault>,
}

impl<H: HookHost> Redoing<H> {
    /// A server under the rules, of no batch yet.
    pub(crate) fn new(alloc: Global, registry: Registry, host: H) -> Redoing<H>
        ensures made { IsMadeOf H.HookHost (outset_of registry host) [] result }
        ensures rules { result.remade.server.rules ≡ registry }
    {
        Redoing {
            remade: Remade::new(alloc, registry, host),
            held: None,
        }
    }

    /// Makes the changes of a batch again, unless one before them was refused.
    pub(crate) fn redo(&mut self, alloc: Global, batch: &[u8])
        ensures made { (outset : Outset H) (batches : List (List ℕ)) →
            IsMadeOf H.HookHost outset batches self.old → IsMadeOf H.HookHost outset (batches ++ batch.now ∷ []) self.new }
        ensures rules { self.new.remade.server.rules ≡ self.old.remade.server.rules }
    {
        if self.held.is_some() {
            return;
        }
        match self.remade.redo_batch(alloc, batch) {
            Ok(()) => {}
            Err(fault) => self.held = Some(fault),
        }
    }

    /// The rules that it is made under.
    pub(crate) fn rules(&self) -> &Registry
        ensures { result.now ≡ self.now.remade.server.rules }
    {
        self.remade.server.rules()
    }

    /// These, which outlive it.
    pub(crate) fn into_rules(self) -> Registry
        ensures { result ≡ self.remade.server.rules }
    {
        let Redoing {
            remade,
            held: _held,
        } = self;
        let Remade {
            server,
            hooks: _hooks,
        } = remade;
        server.into_rules()
    }

    /// The batches are at their end: the server, which goes on from the last moment, or from a later one.
    #[tactic(auto, using(crate::proofs::Going::is_redone, crate::proofs::Going::held_list))]
    pub(crate) fn finish(self, until: Moment) -> Result<Restored<H>, StateFault>
        ensures redone { IfOk result (λ restored. (outset : Outset H) (batches : List (List ℕ)) →
            IsMadeOf H.HookHost outset batches self → until ≡ until_of batches → IsRedone H.HookHost outset batches restored) }
        ensures unnoted { IfOk result (λ restored. restored.server.unkept ≡ None) }
        ensures refused { IfErr result (λ fault. (outset : Outset H) (batches : List (List ℕ)) →
            IsMadeOf H.HookHost outset batches self → RefusesList H.HookHost outset batches fault) }
    {
        let Redoing { remade, held } = self;
        if let Some(fault) = held {
            return Err(fault);
        }
        Ok(remade.finish(until))
    }
}
