//! Whether a registry is narrower than the rules that a state file tells.

ghost use Rattle.std.specs.Prelude.{◌≡◌, ◌↔◌, Some, IsTrue, IfOk, IfErr};
ghost use Rattle.batch_file.specs.Frames.{lists};
ghost use Rattle.rules_codec.specs.Facts.{rules_fact};
ghost use Rattle.state_file.specs.Comparing.{IsUntold};
ghost use Rattle.state_file.specs.Telling.{rules_of, rules_told};
ghost use Rattle.state_file.specs.declared.fault.StateFault.TheVariants.{Memory};
ghost use Rattle.narrowing.specs.Narrowing.{AreLess, AreNarrower, RefusesNarrowing};
ghost use Rattle.narrowing.specs.NarrowingParts.{less_by};

use crate::ending::of_batch;
use clients::{Bounds, Registry};
use state_file::{StateFault, compare, last_rules, told_rules};
use std::alloc::Global;

// Whether rules that are not taken are less than those told, by the fault. What spells no rules tells none.
fn less_by(fault: StateFault) -> Result<bool, StateFault>
    ensures { result ≡ less_by fault }
{
    match fault {
        StateFault::Memory => Err(StateFault::Memory),
        StateFault::FormerOwner => Ok(true),
        StateFault::ClientNarrowed(_name) => Ok(true),
        StateFault::LifeNarrowed => Ok(true),
        _ => Ok(false),
    }
}

// Whether rules keep the names of those told, and are not as wide.
fn are_less(alloc: Global, told: &Bounds<'_>, now: &Bounds<'_>) -> Result<bool, StateFault>
    ensures exact { IfOk result (λ less. IsTrue less ↔ AreLess (rules_fact told.now) (rules_fact now.now)) }
    ensures refused { IfErr result (λ fault. fault ≡ Memory) }
{
    match compare(alloc, told, now) {
        Ok(()) => Ok(false),
        Err(fault) => less_by(fault),
    }
}

/// Whether the registry keeps the names that the batches tell, and is narrower than their rules.
pub(crate) fn is_narrower(
    alloc: Global,
    batches: &[Vec<u8>],
    registry: &Registry,
) -> Result<bool, StateFault>
    ensures exact { IfOk result (λ narrower. IsTrue narrower ↔ AreNarrower (lists batches.now) (rules_of registry.now)) }
    ensures refused { IfErr result (IsUntold (rules_of registry.now)) }
{
    let Some(batch) = last_rules(batches) else {
        return Ok(false);
    };
    let told = match told_rules(alloc, batch) {
        Ok(told) => told,
        Err(fault) => return less_by(fault),
    };
    let now = registry.bounds(alloc)?;
    are_less(alloc, &told, &now)
}

/// The rules that the batches tell last.
pub(crate) fn last_told(alloc: Global, batches: &[Vec<u8>]) -> Result<Bounds<'_>, StateFault>
    ensures told { IfOk result (λ told. rules_told (lists batches.now) ≡ Some (rules_fact told)) }
    ensures refused { IfErr result RefusesNarrowing }
{
    let Some(batch) = last_rules(batches) else {
        return Err(StateFault::NoRules);
    };
    match told_rules(alloc, batch) {
        Ok(told) => Ok(told),
        Err(fault) => Err(of_batch(fault)),
    }
}
