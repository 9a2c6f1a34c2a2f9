//! The rules that a file tells, as those of a registry.

ghost use Rattle.std.specs.Prelude.{◌≡◌, ◌⊎◌, [], IfOk, IfErr};
ghost use Rattle.batch_file.specs.Frames.{lists};
ghost use Rattle.state_account.specs.Accounts.{IsOfTelling};
ghost use Rattle.state_file.specs.Comparing.{TakesRules};
ghost use Rattle.state_file.specs.Telling.{IsOfRules, Tell, rules_of};

use clients::{Bounds, ConfigFault, Registry};
use state_file::{StateFault, last_rules, rules_behind, told_rules};
use std::alloc::Global;

/// The rules that a file tells: a registry that has them, with keys that nobody knows, and their spelling.
#[derive(Drop)]
pub(crate) struct FileRules {
    pub(crate) registry: Registry,
    pub(crate) bytes: Vec<u8>,
}

/// A registry of these bounds.
fn registry_within(alloc: Global, bounds: &Bounds<'_>) -> Result<Registry, StateFault>
    ensures refused { IfErr result IsOfTelling }
{
    match Registry::within(alloc, bounds) {
        Ok(registry) => Ok(registry),
        Err(ConfigFault::Memory) => Err(StateFault::Memory),
        Err(_) => Err(StateFault::NoRules),
    }
}

/// The registry of a server that has nothing, for a file that tells no rules.
fn least(alloc: Global) -> Result<Registry, StateFault>
    ensures refused { IfErr result IsOfTelling }
{
    let bounds = Bounds {
        scopes: Vec::new(alloc),
        owners: Vec::new(alloc),
        numbered: true,
        gateway: false,
        clients: Vec::new(alloc),
        access_life: 1,
        refresh_life: 1,
    };
    registry_within(alloc, &bounds)
}

/// A registry for the rules that the batches tell last, which the caller compares.
fn registry_behind(alloc: Global, batches: &[Vec<u8>]) -> Result<Registry, StateFault>
    ensures refused { IfErr result IsOfTelling }
{
    let Some(batch) = last_rules(batches) else {
        return least(alloc);
    };
    let told = told_rules(alloc, batch)?;
    registry_within(alloc, &told)
}

/// A fault that is told of a file, for one that is told of a registry beside it.
fn of_file(fault: StateFault) -> StateFault
    ensures { IsOfTelling result }
{
    match fault {
        StateFault::Memory => StateFault::Memory,
        StateFault::Spelling(fault) => StateFault::Spelling(fault),
        _ => StateFault::NoRules,
    }
}

/// The rules that the batches tell last.
pub(crate) fn file_rules(alloc: Global, batches: &[Vec<u8>]) -> Result<FileRules, StateFault>
    ensures taken { IfOk result (λ rules. TakesRules (lists batches.now) (rules_of rules.registry)) }
    ensures told { IfOk result (λ rules. (lists batches.now ≡ []) ⊎ Tell (lists batches.now) (rules_of rules.registry)) }
    ensures spelled { IfOk result (λ rules. IsOfRules rules.bytes.items (rules_of rules.registry)) }
    ensures refused { IfErr result IsOfTelling }
{
    let registry = registry_behind(alloc, batches)?;
    let rules = match rules_behind(alloc, batches, &registry) {
        Ok(rules) => rules,
        Err(fault) => return Err(of_file(fault)),
    };
    if !rules.told && !batches.is_empty() {
        return Err(StateFault::NoRules);
    }
    let bytes = rules.bytes;
    Ok(FileRules { registry, bytes })
}
