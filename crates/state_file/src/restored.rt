//! A server that was made of the changes of a state file.

ghost use Rattle.std.specs.Prelude.{◌≡◌, ◌≤◌, [], ◌∷◌, None, Some, IfOk, IfErr, OnOk, map, if◌then◌else◌};
ghost use Rattle.batch_file.specs.Frames.{lists};
ghost use Rattle.endpoints.specs.Server.{outset_of};
ghost use Rattle.rules_codec.specs.Facts.{hook_fact};
ghost use Rattle.state_file.specs.Hooks.{hook_named};
ghost use Rattle.state_file.specs.Resuming.{AnswersForBatches, ListsItself, RefusesList, RefusesSetting, RefusesSettings, Sets};
ghost use Rattle.state_file.specs.Standing.{IsMomentTold, until_of};

use crate::fault::StateFault;
use crate::hooks::SetHooks;
use crate::horizons::until_of;
use crate::remade::Remade;
use clients::Registry;
use consent::Moment;
use endpoints::Server;
use hook_host::{HookFault, HookHost};
use rules_codec::KeptHook;
use std::alloc::Global;

/// A server that was made of changes.
#[derive(Drop)]
pub struct Restored<H> {
    pub server: Server<H>,
    /// The moment from which it goes on: when the last of them happened, or a later one that is told.
    pub moment: Moment,
    /// The hooks that they set.
    pub hooks: SetHooks,
}

/// A server that is made of all changes that the batches tell, under the rules. It goes on from the moment that they tell, and
/// notes nothing. A fault is given with how many batches are before the one at fault.
pub fn remake<H: HookHost>(
    alloc: Global,
    registry: Registry,
    host: H,
    batches: &[Vec<u8>],
) -> Result<Restored<H>, (usize, StateFault)>
    ensures answers { IfOk result (AnswersForBatches H.HookHost (lists batches.now) (outset_of registry host)) }
    // What they tell is itself right, and they stand for it.
    ensures listed { OnOk result (ListsItself registry (lists batches.now)) }
    ensures unnoted { IfOk result (λ restored. restored.server.unkept ≡ None) }
    ensures moment { IfOk result (λ restored. IsMomentTold (lists batches.now) restored.moment) }
    ensures later { IfOk result (λ restored. until_of (lists batches.now) ≤ restored.moment) }
    ensures refused { IfErr result (λ fault. RefusesList H.HookHost (outset_of registry host) (lists batches.now) fault.1) }
{
    let mut remade = Remade::new(alloc, registry, host);
    remade.redo_all(alloc, batches)?;
    Ok(remade.finish(until_of(batches)))
}

impl<H: HookHost> Restored<H> {
    // Whether the hook is set. Where one of its name is set that is another, it is refused.
    fn has(&self, alloc: Global, hook: &KeptHook<'_>) -> Result<bool, StateFault>
        ensures there { IfOk result (λ there.
            hook_named hook.now.name.now self.now.hooks ≡ (if there then Some (hook_fact hook.now) else None)) }
        ensures refused { IfErr result (RefusesSetting H.HookHost self.now (hook_fact hook.now)) }
    {
        match self.hooks.named(hook.name) {
            None => Ok(false),
            Some(set) => {
                if set.is_of(hook.version, hook.code) {
                    return Ok(true);
                }
                Err(StateFault::HookDiffers(String::from_str(alloc, hook.name)?))
            }
        }
    }

    // Sets a hook of a new name, at the server's moment.
    fn install(&mut self, alloc: Global, hook: &KeptHook<'_>) -> Result<(), StateFault>
        requires new { hook_named hook.now.name.now self.old.hooks ≡ None }
        ensures set { OnOk result (Sets H.HookHost self.old (hook_fact hook.now ∷ []) self.new) }
        ensures moment { OnOk result (self.new.moment ≡ self.old.moment) }
        ensures refused { IfErr result (RefusesSetting H.HookHost self.old (hook_fact hook.now)) }
    {
        match self.server.set_hook(hook.name, hook.version, hook.code) {
            Ok(()) => Ok(self.hooks.push(hook.name, hook.version, hook.code)?),
            Err(HookFault::Memory) => Err(StateFault::Memory),
            Err(fault) => Err(StateFault::Hook(String::from_str(alloc, hook.name)?, fault)),
        }
    }

    /// Sets a hook at the moment from which the server goes on. Where it is set, it stays; where another of its name is set, it
    /// is refused.
    pub fn set_hook(&mut self, alloc: Global, hook: &KeptHook<'_>) -> Result<(), StateFault>
        ensures set { OnOk result (Sets H.HookHost self.old (hook_fact hook.now ∷ []) self.new) }
        ensures moment { OnOk result (self.new.moment ≡ self.old.moment) }
        ensures refused { IfErr result (RefusesSetting H.HookHost self.old (hook_fact hook.now)) }
    {
        if self.has(alloc, hook)? {
            return Ok(());
        }
        self.install(alloc, hook)
    }

    /// Sets hooks, one after the other.
    pub fn set_hooks(&mut self, alloc: Global, hooks: &[KeptHook<'_>]) -> Result<(), StateFault>
        ensures set { OnOk result (Sets H.HookHost self.old (map hook_fact hooks.now) self.new) }
        ensures moment { OnOk result (self.new.moment ≡ self.old.moment) }
        ensures refused { IfErr result (RefusesSettings H.HookHost self.old (map hook_fact hooks.now)) }
    {
        for hook in hooks {
            self.set_hook(alloc, hook)?;
        }
        Ok(())
    }
}
