//! The changes that are made beside the store: of consents and of hooks.
ghost use Rattle.std.specs.Prelude.{[], ◌∷◌, ℕ, IfErr, OnOk};
ghost use Rattle.consent.specs.Changes.{as_list, change_of};
ghost use Rattle.consent.specs.History.{with_changes};
ghost use Rattle.endpoints.specs.Hosts.{HostRun};
ghost use Rattle.endpoints.specs.Making.{HasConsentRoom, MakesHost};
ghost use Rattle.endpoints.specs.MakingParts.{MakesConsents};
ghost use Rattle.endpoints.specs.Redo.{RefusesHookChange};
ghost use Rattle.endpoints.specs.Ruling.{CanTake};

use crate::redo::{RedoFault, check_hook};
use crate::ruling::Checked;
use consent::{Change, Changes, Consents};
use hook_host::HookHost;

// Makes a change that stands alone.
fn make_one<H: HookHost>(
    host: &mut H,
    consents: &mut Consents,
    change: &Change<'_>,
    checked: Checked<H>,
)
    requires room { HasConsentRoom consents.old (change.now ∷ []) }
    requires hook { CanTake H.HookHost host.old (change.now ∷ []) checked }
    ensures consents { MakesConsents consents.old (change.now ∷ []) consents.new }
    ensures hosts { MakesHost H.HookHost host.old (change.now ∷ []) checked host.new }
{
    match change {
        Change::Consented {
            owner,
            client,
            mask,
        } => consents.put(*owner, *client, *mask),
        Change::HookSet { .. } => {
            if let Checked::Installs(hook) = checked {
                host.take(hook);
            }
        }
        Change::HookGone { name } => {
            if let Checked::Removes = checked {
                host.drop_named(name);
            }
        }
        _ => {}
    }
}

/// Makes those of the changes that are no store's.
pub(crate) fn make_beside<H: HookHost>(
    host: &mut H,
    consents: &mut Consents,
    changes: &Changes<'_>,
    checked: Checked<H>,
)
    requires room { HasConsentRoom consents.old (as_list changes.now) }
    requires hook { CanTake H.HookHost host.old (as_list changes.now) checked }
    ensures consents { MakesConsents consents.old (as_list changes.now) consents.new }
    ensures hosts { MakesHost H.HookHost host.old (as_list changes.now) checked host.new }
{
    match changes {
        Changes::One(change) => make_one(host, consents, change, checked),
        Changes::Left { owner, clients } => consents.withdraw_all(*owner, *clients),
        _ => {}
    }
}

/// Makes one of them again, unless the host has a fault for it, or memory is refused.
pub(crate) fn redo_beside<H: HookHost>(
    host: &mut H,
    consents: &mut Consents,
    change: &Change<'_>,
) -> Result<(), RedoFault>
    ensures consents { OnOk result (MakesConsents consents.old (change.now ∷ []) consents.new) }
    ensures hosts { OnOk result ((m : ℕ) → HostRun H.HookHost host.old (with_changes [] m (change_of change.now ∷ [])) host.new) }
    ensures refused { IfErr result (RefusesHookChange H.HookHost host.old change.now) }
{
    let checked = check_hook(host, change)?;
    if let Change::Consented { .. } = change {
        let Ok(()) = consents.reserve(1) else {
            return Err(RedoFault::Memory);
        };
    }
    make_one(host, consents, change, checked);
    Ok(())
}
