//! What a start makes of a state file, before anything is written.

ghost use Rattle.std.specs.Prelude.{◌≡◌, ◌⊎◌, [], None, IfOk, IfErr, IsTrue, OnOk, ◌↔◌, map};
ghost use Rattle.rules_codec.specs.Facts.{hook_fact};
ghost use Rattle.state_file.specs.Making.{StopsReading};
ghost use Rattle.state_keeper.specs.Starting.{HasFront};
ghost use Rattle.state_keeper.specs.declared.starting.Origin.TheVariants.{Device};
ghost use Rattle.lifetime.specs.PlanParts.{IsPlanOfLeft, IsRefusalOf, MayBeNarrower, RefusesLeft};
ghost use Rattle.lifetime.specs.Plans.{IsPlanOf, RefusesPlan};
ghost use Rattle.state_file.specs.declared.fault.StateFault.TheVariants.{Memory};

use batch_file::source::{ByteSource, Bytes, read_whole};
use clients::Registry;
use hook_chain::Chain;
use narrowing::{Narrowed, narrow};
use rules_codec::KeptHook;
use state_file::{Prepared, Preparing, StateFault, Unprepared, prepare};
use state_keeper::Origin;
use std::alloc::Global;

/// What a start makes of a state file.
#[derive(Drop)]
pub struct Plan {
    /// A server, and what is to stand behind the batches.
    pub prepared: Prepared<Chain>,
    /// Where the batches lie.
    pub origin: Origin,
    /// How many codes and tokens end, where the registry is narrower than the rules of the file.
    pub ended: Option<usize>,
    /// What an unfinished write left in the file.
    pub torn: Vec<u8>,
}

/// A source, as it was left, and the plan of its bytes.
#[derive(Drop)]
pub struct Planned<S> {
    pub source: S,
    pub plan: Result<Plan, StateFault>,
}

/// Whether a registry may be narrower than the rules of a file that is refused for this.
fn may_be_narrower(fault: &StateFault) -> bool
    ensures { IsTrue result ↔ MayBeNarrower fault.now }
{
    matches!(
        fault,
        StateFault::NoRules
            | StateFault::FormerOwner
            | StateFault::ClientNarrowed(_)
            | StateFault::LifeNarrowed
    )
}

/// What is done with a file that is refused.
#[derive(Drop)]
pub(crate) enum Refusal {
    /// It is read again, for this registry, which may be narrower.
    Again(Registry),
    /// It is refused for this.
    Final(StateFault),
}

/// What is done with a file that is refused.
fn refusal_of(not: Unprepared) -> Refusal
    ensures { IsRefusalOf not result }
{
    let Unprepared { fault, registry } = not;
    if !may_be_narrower(&fault) {
        return Refusal::Final(fault);
    }
    match registry {
        Some(registry) => Refusal::Again(registry),
        None => Refusal::Final(fault),
    }
}

/// A plan of what is made of a file that was read.
fn plan_whole(alloc: Global, prepared: Prepared<Chain>) -> Result<Plan, StateFault>
    ensures prepared { IfOk result (λ plan. plan.prepared ≡ prepared) }
    ensures origin { IfOk result (λ plan. plan.origin ≡ Device) }
    ensures ended { IfOk result (λ plan. plan.ended ≡ None) }
    ensures torn { IfOk result (λ plan. plan.torn.items ≡ prepared.torn) }
    ensures memory { IfErr result (λ fault. fault ≡ Memory) }
{
    let torn = Vec::from_slice(alloc, prepared.torn())?;
    Ok(Plan {
        prepared,
        origin: Origin::Device,
        ended: None,
        torn,
    })
}

/// A plan of what is left of a file.
fn plan_left(
    alloc: Global,
    left: Narrowed,
    registry: Registry,
    hooks: &[KeptHook<'_>],
) -> Result<Plan, StateFault>
    ensures made { IfOk result (IsPlanOfLeft registry (map hook_fact hooks.now) left) }
    ensures refused { IfErr result (RefusesLeft registry (map hook_fact hooks.now) left) }
{
    let source = Bytes::new(left.frames.as_bytes());
    let prepared = prepare(alloc, source, registry, Chain::new(alloc), hooks).prepared;
    match prepared {
        Ok(prepared) => Ok(Plan {
            prepared,
            origin: Origin::Memory(left.frames),
            ended: Some(left.ended),
            torn: left.torn,
        }),
        Err(not) => Err(not.fault),
    }
}

/// A plan of the bytes of a file, which were read into memory. Where the registry is narrower than the rules that they tell, what
/// goes beyond it ends.
fn plan_in_memory(
    alloc: Global,
    bytes: &[u8],
    registry: Registry,
    hooks: &[KeptHook<'_>],
) -> Result<Plan, StateFault>
    ensures made { IfOk result (IsPlanOf registry (map hook_fact hooks.now) bytes.now) }
    ensures refused { IfErr result (λ fault. StopsReading fault ⊎ RefusesPlan registry (map hook_fact hooks.now) bytes.now fault) }
    ensures front { IfOk result (λ plan. HasFront bytes.now plan.origin plan.prepared.front) }
{
    if let Some(left) = narrow(alloc, bytes, &registry, Chain::new(alloc))? {
        return plan_left(alloc, left, registry, hooks);
    }
    let source = Bytes::new(bytes);
    let prepared = prepare(alloc, source, registry, Chain::new(alloc), hooks).prepared;
    match prepared {
        Ok(prepared) => plan_whole(alloc, prepared),
        Err(not) => Err(not.fault),
    }
}

/// A plan of a source that is read once more, whole.
fn plan_again<S: ByteSource + Drop>(
    alloc: Global,
    mut source: S,
    registry: Registry,
    hooks: &[KeptHook<'_>],
) -> Planned<S>
    ensures over { OnOk result.plan (S.is_over result.source) }
    ensures made { IfOk result.plan (IsPlanOf registry (map hook_fact hooks.now) (S.told result.source)) }
    ensures refused { IfErr result.plan (λ fault. StopsReading fault
        ⊎ (S.is_over result.source × RefusesPlan registry (map hook_fact hooks.now) (S.told result.source) fault)) }
    ensures front { IfOk result.plan (λ plan. HasFront (S.told result.source) plan.origin plan.prepared.front) }
{
    source.rewind();
    match read_whole(alloc, &mut source) {
        Ok(bytes) => Planned {
            source,
            plan: plan_in_memory(alloc, &bytes, registry, hooks),
        },
        Err(fault) => Planned {
            source,
            plan: Err(StateFault::from(fault)),
        },
    }
}

/// What a start makes of the bytes of a state file, with hooks, as they come. Only where the registry's rules are not taken they
/// are read once more, whole: where it is narrower than the rules that they tell, what goes beyond it ends.
pub fn plan_of<S: ByteSource + Drop>(
    alloc: Global,
    source: S,
    registry: Registry,
    hooks: &[KeptHook<'_>],
) -> Planned<S>
    requires begun { S.told source ≡ [] }
    ensures over { OnOk result.plan (S.is_over result.source) }
    ensures made { IfOk result.plan (IsPlanOf registry (map hook_fact hooks.now) (S.told result.source)) }
    ensures refused { IfErr result.plan (λ fault. StopsReading fault
        ⊎ (S.is_over result.source × RefusesPlan registry (map hook_fact hooks.now) (S.told result.source) fault)) }
    ensures front { IfOk result.plan (λ plan. HasFront (S.told result.source) plan.origin plan.prepared.front) }
{
    let Preparing { source, prepared } = prepare(alloc, source, registry, Chain::new(alloc), hooks);
    match prepared {
        Ok(prepared) => Planned {
            source,
            plan: plan_whole(alloc, prepared),
        },
        Err(not) => match refusal_of(not) {
            Refusal::Again(registry) => plan_again(alloc, source, registry, hooks),
            Refusal::Final(fault) => Planned {
                source,
                plan: Err(fault),
            },
        },
    }
}
