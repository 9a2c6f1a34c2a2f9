//! How many codes and tokens of a state file end under a registry.

ghost use Rattle.std.specs.Prelude.{IfOk, IfErr};
ghost use Rattle.batch_file.specs.Frames.{lists};
ghost use Rattle.state_account.specs.Accounts.{IsOfBatches};
ghost use Rattle.state_file.specs.Telling.{rules_of};
ghost use Rattle.narrowing.specs.Narrowing.{AreNarrower, RefusesNarrowing};
ghost use Rattle.narrowing.specs.NarrowingParts.{EndOfRead};

use crate::records::ended_count;
use batch_file::framing::Batches;
use clients::Registry;
use hook_host::HookHost;
use rules_beside::OwnersBeside;
use state_account::{AccountFault, account_in};
use state_file::StateFault;
use std::alloc::Global;

// A fault that is told of a file, for one of a batch.
pub(crate) fn of_batch(fault: StateFault) -> StateFault
    ensures { RefusesNarrowing result }
{
    match fault {
        StateFault::Memory => StateFault::Memory,
        StateFault::Spelling(fault) => StateFault::Spelling(fault),
        StateFault::Follows(fault) => StateFault::Follows(fault),
        _ => StateFault::NoRules,
    }
}

// The fault of an account.
fn fault_of(fault: AccountFault) -> StateFault
    ensures { IsOfBatches fault → RefusesNarrowing result }
{
    match fault {
        AccountFault::Memory => StateFault::Memory,
        AccountFault::Batch(_, fault) => of_batch(fault),
        AccountFault::File(_) => StateFault::NoRules,
    }
}

/// How many codes and tokens end under the registry that batches of a state file stand for. The host is one without hooks.
pub(crate) fn ended_in<H: HookHost>(
    alloc: Global,
    found: &Batches,
    registry: &Registry,
    owners: &OwnersBeside<'_, '_>,
    host: H,
) -> Result<usize, StateFault>
    requires narrower { AreNarrower (lists found.now.batches.items) (rules_of registry.now) }
    ensures ends { IfOk result (EndOfRead H.HookHost (lists found.now.batches.items) found.now.torn.items host (record { rules = registry.now; owners = owners.now })) }
    ensures refused { IfErr result RefusesNarrowing }
{
    let account = match account_in(alloc, found, host) {
        Ok(account) => account,
        Err(fault) => return Err(fault_of(fault)),
    };
    let told = account.standing(alloc)?;
    Ok(ended_count(registry, owners, told.greatest, told.records.as_slice()))
}
