//! A server in the making.
ghost use Rattle.std.specs.Prelude.{◌≡◌, ◌<◌, ◌↔◌, [], Err, None, IfErr, IsErrOf, OnOk, max};
ghost use Rattle.endpoints.specs.Redo.{IsNowhereRight, RedoesChange, RefusesRedo};
ghost use Rattle.endpoints.specs.Remaking.{Finishes, FitsRemaking};
ghost use Rattle.endpoints.specs.Server.{Notes, outset_of};

use crate::beside::redo_beside;
use crate::redo::RedoFault;
use crate::right::is_right;
use crate::server::{Server, greater};
use clients::Registry;
use consent::{Change, Consents, Moment};
use hook_host::HookHost;
use std::alloc::Global;
use std::marker::Model;
use token_store::Store;

/// A server that is made of a list of changes, one after the other.
pub struct Remaking<H> {
    rules: Registry,
    host: H,
    store: Store,
    consents: Consents,
    greatest: Moment,
    alloc: Global,
}

// It is written out, as a server's is.
impl<H: Drop> Drop for Remaking<H> {
    fn drop(self) {
        let Remaking {
            rules: _rules,
            host: _host,
            store: _store,
            consents: _consents,
            greatest: _,
            alloc: _,
        } = self;
    }
}

impl<H> Model for Remaking<H> {
    ghost use Rattle.endpoints.specs.Remaking.{SeenRemaking};

    ghost Value = { SeenRemaking H };

    ghost view = { λ s. record {
      rules = s.rules;
      host = s.host;
      store = s.store;
      consents = s.consents;
      greatest = s.greatest;
    } };
}

impl<H: HookHost> Remaking<H> {
    /// A server under the rules, of no change yet. What it keeps takes memory from `alloc`.
    pub fn new(alloc: Global, rules: Registry, host: H) -> Self
        ensures fits { FitsRemaking H.HookHost result (outset_of rules host) [] 0 }
    {
        let size = rules.limits().records;
        Remaking {
            rules,
            host,
            store: Store::new(alloc, size),
            consents: Consents::new(alloc),
            greatest: Moment::new(0),
            alloc,
        }
    }

    /// Makes a change again, which happened at the moment. One that is not right under the rules is refused. What refused one
    /// is of no further use.
    /// `RedoFault` has the faults in the order in which they come, but for Memory. How much may be kept is not asked: what a list
    /// has was given once.
    pub fn redo(&mut self, moment: Moment, change: &Change<'_>) -> Result<(), RedoFault>
        ensures redone { OnOk result (RedoesChange H.HookHost self.old moment change.now self.new) }
        ensures moment { OnOk result (self.new.greatest ≡ moment) }
        ensures rules { self.new.rules ≡ self.old.rules }
        ensures back { (result ≡ Err RedoFault.MomentBack) ↔ (moment < self.old.greatest) }
        ensures refused { IfErr result (RefusesRedo H.HookHost self.old moment change.now) }
        ensures wrong { IsErrOf result RedoFault.NotRight → IsNowhereRight H.HookHost self.old change.now }
    {
        if moment.get() < self.greatest.get() {
            return Err(RedoFault::MomentBack);
        }
        self.store.drop_records(moment);
        let is_right = is_right(&self.rules, &self.store, &self.consents, change);
        self.store.redo(change, moment)?;
        if !is_right {
            return Err(RedoFault::NotRight);
        }
        redo_beside(&mut self.host, &mut self.consents, change)?;
        self.greatest = moment;
        Ok(())
    }

    /// Its rules.
    pub fn rules(&self) -> &Registry
        ensures { result.now ≡ self.now.rules }
    {
        &self.rules
    }

    /// Its rules, which outlive it.
    pub fn into_rules(self) -> Registry
        ensures { result ≡ self.rules }
    {
        let Remaking {
            rules,
            host: _host,
            store: _store,
            consents: _consents,
            greatest: _,
            alloc: _,
        } = self;
        rules
    }

    /// The list is at its end: the server that it tells, which goes on from the last moment, or from `until` where that is
    /// later, and notes nothing.
    pub fn finish(self, until: Moment) -> Server<H>
        ensures fits { Finishes H.HookHost self until result }
        ensures notes { Notes result None [] }
        ensures moment { result.greatest ≡ max self.greatest until }
    {
        let Remaking {
            rules,
            host,
            mut store,
            consents,
            greatest,
            alloc,
        } = self;
        let moment = greater(greatest, until);
        store.drop_records(moment);
        store.settle();
        Server::going_on(alloc, rules, host, store, consents, moment)
    }
}
