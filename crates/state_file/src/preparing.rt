//! What a start makes of a state file, before anything is written.

ghost use Rattle.std.specs.Prelude.{◌≡◌, ◌⊎◌, ◌++◌, ⊤, [], ℕ, List, Some, IfOk, IfErr, OnOk, map, option_map, unwrap_or};
ghost use Rattle.batch_file.specs.Frames.{header, last_of, lists, recovered, IsReadable};
ghost use Rattle.clients.specs.RegistryRecord.{RegistryRecord};
ghost use Rattle.endpoints.specs.Server.{NowNotes, Outset, outset_of};
ghost use Rattle.endpoints.specs.Widening.{IsWider};
ghost use Rattle.rules_codec.specs.Facts.{hook_fact};
ghost use Rattle.state_file.specs.Comparing.{TakesRules};
ghost use Rattle.state_file.specs.Going.{IsResumed};
ghost use Rattle.state_file.specs.Knowing.{IsKnown, end_of};
ghost use Rattle.state_file.specs.Making.{GivesBack, IsOfFile, IsOfHooks, Makes, RefusesMaking, StopsReading, on_bytes};
ghost use Rattle.state_file.specs.MakingParts.{AreAdded, IsUnadded};
ghost use Rattle.state_file.specs.Telling.{TellsRules, rules_of};

use crate::fault::StateFault;
use crate::front::Front;
use crate::known::Known;
use crate::restored::Restored;
use crate::resuming::{Resumed, Resuming, Unprepared, resume};
use crate::sizes::shortened_behind;
use batch_file::source::ByteSource;
use clients::Registry;
use consent::Moment;
use endpoints::Server;
use hook_host::HookHost;
use rules_codec::KeptHook;
use std::alloc::Global;
use std::marker::Model;

/// What a start makes of a state file: a server that notes what happens, and the batches that stand for what it goes on from. They
/// are those that were read, and what a new file has behind these.
#[derive(Drop)]
pub struct Prepared<H> {
    pub(crate) server: Server<H>,
    pub(crate) front: Front,
    pub(crate) end: usize,
    pub(crate) last: [u8; 16],
    pub(crate) behind: Vec<Vec<u8>>,
    pub(crate) known: Known,
    pub(crate) moment: Moment,
    pub(crate) torn: Vec<u8>,
    pub(crate) alloc: Global,
}

/// What a start makes of a state file, in parts.
#[derive(Drop)]
pub struct Parts<H> {
    /// It notes what happens.
    pub server: Server<H>,
    /// Where the frames end of the batches that were read.
    pub end: usize,
    /// The digest of the last of them.
    pub last: [u8; 16],
    /// The batches that a new file has behind these.
    pub behind: Vec<Vec<u8>>,
    /// What is known of all of them.
    pub known: Known,
    pub alloc: Global,
}

/// A source that was read, and what a start makes of it.
#[derive(Drop)]
pub struct Preparing<S, H> {
    pub source: S,
    pub prepared: Result<Prepared<H>, Unprepared>,
}

impl<H> Model for Prepared<H> {
    ghost use Rattle.std.specs.Prelude.{◌≡◌, ◌++◌, ⊤};
    ghost use Rattle.batch_file.specs.Frames.{header, last_of, lists};
    ghost use Rattle.state_file.specs.Knowing.{IsKnown, end_of};
    ghost use Rattle.state_file.specs.Making.{Made};

    ghost Value = { Made H };

    ghost view = { λ p. record {
      server = p.server;
      front = p.front.batches;
      batches = p.front.batches ++ lists p.behind.items;
      moment = p.moment;
      torn = p.torn.items;
    } };

    ghost invariant = { λ p. IsKnown ⊤ (p.front.batches ++ lists p.behind.items) p.known × (p.end ≡ end_of p.front.batches) × (p.last ≡ last_of header p.front.batches) };
}

/// Adds what the server has noted to the batches that stand behind those that end there. Nothing is unkept then.
fn add_noted<H: HookHost>(
    alloc: Global,
    server: &mut Server<H>,
    end: usize,
    behind: &mut Vec<Vec<u8>>,
    known: &mut Known,
) -> Result<(), StateFault>
    ensures known { OnOk result ((front : List (List ℕ)) → end ≡ end_of front →
        IsKnown ⊤ (front ++ lists behind.old.items) known.old → IsKnown ⊤ (front ++ lists behind.new.items) known.new) }
    ensures same { NowNotes server.old server.new server.new.unkept }
    ensures unkept { OnOk result (server.new.unkept ≡ option_map (λ facts. []) server.old.unkept) }
    ensures added { OnOk result (AreAdded (unwrap_or server.old.unkept []) (lists behind.old.items) (lists behind.new.items)) }
    ensures refused { IfErr result (IsUnadded (unwrap_or server.old.unkept [])) }
{
    let Some(batch) = server.unkept() else {
        return Ok(());
    };
    if batch.is_empty() {
        return Ok(());
    }
    let bytes = batch.bytes();
    if bytes.len() > u32::MAX as usize {
        return Err(StateFault::Full);
    }
    behind.push(bytes.to_vec(alloc)?)?;
    let Some(shortened) = shortened_behind(bytes, end, behind.as_slice(), known.shortened) else {
        return Err(StateFault::Memory);
    };
    known.shortened = shortened;
    server.forget_unkept();
    Ok(())
}

impl<H: HookHost> Resumed<H> {
    /// Sets hooks at the moment from which the server goes on, and adds what it notes then.
    fn prepare(self, alloc: Global, hooks: &[KeptHook<'_>]) -> Result<Prepared<H>, StateFault>
        requires known { IsKnown ⊤ (self.front.batches ++ lists self.behind.items) self.known }
        requires end { self.end ≡ end_of self.front.batches }
        requires last { self.last ≡ last_of header self.front.batches }
        ensures makes { IfOk result (λ prepared. (bytes : List ℕ) (outset : Outset H) → IsResumed H.HookHost bytes outset self →
            Makes H.HookHost (on_bytes bytes outset (map hook_fact hooks.now)) prepared) }
        ensures refused { IfErr result (λ fault. (bytes : List ℕ) (outset : Outset H) → IsResumed H.HookHost bytes outset self →
            RefusesMaking H.HookHost (on_bytes bytes outset (map hook_fact hooks.now)) fault) }
        ensures back { IfErr result (λ fault. GivesBack fault → ⊥) }
    {
        let Resumed {
            mut restored,
            front,
            end,
            last,
            mut behind,
            mut known,
            torn,
        } = self;
        restored.server.begin_noting()?;
        restored.set_hooks(alloc, hooks)?;
        let Restored {
            mut server,
            moment,
            hooks: _hooks,
        } = restored;
        add_noted(alloc, &mut server, end, &mut behind, &mut known)?;
        Ok(Prepared {
            server,
            front,
            end,
            last,
            behind,
            known,
            moment,
            torn,
            alloc,
        })
    }
}

/// Makes all that a server is started with on a state file, whatever a crash left there: it is read once, to its end. All changes
/// that it tells are made again under these rules. A hook is then set, unless it is, at the moment from which the server goes on:
/// the last change's, or the last horizon's. The batches are those that were read, and the rules and the hooks where they lack them.
pub fn prepare<S: ByteSource + Drop, H: HookHost>(
    alloc: Global,
    source: S,
    registry: Registry,
    host: H,
    hooks: &[KeptHook<'_>],
) -> Preparing<S, H>
    requires begun { S.told source ≡ [] }
    ensures over { OnOk result.prepared (S.is_over result.source) }
    ensures whole { (all : List ℕ) → S.whole source all → S.whole result.source all }
    ensures makes { IfOk result.prepared (Makes H.HookHost (on_bytes (S.told result.source) (outset_of registry host) (map hook_fact hooks.now))) }
    // The registry's rules are as wide as those that the file told.
    ensures wider { IfOk result.prepared (λ _. (old : RegistryRecord) → TellsRules (S.told result.source) (rules_of old) → IsWider old registry) }
    ensures taken { OnOk result.prepared (TakesRules (recovered (S.told result.source)) (rules_of registry)) }
    ensures refused { IfErr result.prepared (λ not. StopsReading not.fault ⊎ (S.is_over result.source
        × RefusesMaking H.HookHost (on_bytes (S.told result.source) (outset_of registry host) (map hook_fact hooks.now)) not.fault)) }
    ensures readable { OnOk result.prepared (IsReadable (S.told result.source)) }
    // What is wrong with the file comes before all else.
    ensures damaged { IfErr result.prepared (λ not. IsOfFile not.fault ⊎ IsReadable (S.told result.source)) }
    // The registry is given back where its rules are not taken.
    ensures back { IfErr result.prepared (λ not. GivesBack not.fault → not.registry ≡ Some registry) }
    ensures hooked { IfErr result.prepared (λ not. IsOfHooks not.fault → TakesRules (recovered (S.told result.source)) (rules_of registry)) }
{
    let Resuming { source, resumed } = resume(alloc, source, registry, host);
    let resumed = match resumed {
        Ok(resumed) => resumed,
        Err(unprepared) => {
            return Preparing {
                source,
                prepared: Err(unprepared),
            };
        }
    };
    let prepared = match resumed.prepare(alloc, hooks) {
        Ok(prepared) => prepared,
        Err(fault) => {
            return Preparing {
                source,
                prepared: Err(Unprepared {
                    fault,
                    registry: None,
                }),
            };
        }
    };
    Preparing {
        source,
        prepared: Ok(prepared),
    }
}

impl<H: HookHost> Prepared<H> {
    /// What an unfinished write left in the file: the new one will not have it.
    pub fn torn(&self) -> &[u8]
        ensures { result.now ≡ self.now.torn }
    {
        self.torn.as_slice()
    }

    /// The moment from which the server goes on.
    pub fn moment(&self) -> Moment
        ensures { result ≡ self.now.moment }
    {
        self.moment
    }

    /// The server, and what a new file is made of.
    pub fn into_parts(self) -> Parts<H>
        ensures server { result.server ≡ self.server }
        ensures batches { self.batches ≡ self.front ++ lists result.behind.items }
        ensures end { result.end ≡ end_of self.front }
        ensures last { result.last ≡ last_of header self.front }
        ensures known { IsKnown ⊤ self.batches result.known }
    {
        let Prepared {
            server,
            front: _front,
            end,
            last,
            behind,
            known,
            moment: _moment,
            torn: _torn,
            alloc,
        } = self;
        Parts {
            server,
            end,
            last,
            behind,
            known,
            alloc,
        }
    }
}
