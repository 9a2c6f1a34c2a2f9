//! What is left of a state file under a registry.

ghost use Rattle.std.specs.Prelude.{◌≡◌, ◌↔◌, ◌⊎◌, IfOk, IfErr, IfSome, IsSome};
ghost use Rattle.batch_file.specs.Frames.{lists, recovered, torn_of};
ghost use Rattle.state_file.specs.Standing.{until_of};
ghost use Rattle.state_file.specs.Telling.{rules_of};
ghost use Rattle.narrowing.specs.Narrowing.{AreNarrower, HasLeftOfEach, IsNarrower, IsUnnarrowed, IsUnreadable, RefusesNarrowing};
ghost use Rattle.narrowing.specs.NarrowingParts.{LeavesOfRead};
ghost use Rattle.state_file.specs.declared.fault.StateFault.TheVariants.{Memory};

use crate::comparing::{is_narrower, last_told};
use crate::ending::ended_in;
use crate::retelling::frames_left;
use batch_file::frames::Frames;
use batch_file::framing::{Batches, read_batches};
use clients::Registry;
use hook_host::HookHost;
use rules_beside::OwnersBeside;
use state_file::StateFault;
use std::alloc::Global;

/// What is left of a state file under a registry.
#[derive(Drop)]
pub struct Narrowed {
    /// The batches of a file that stands for it.
    pub frames: Frames,
    /// How many codes and tokens ended.
    pub ended: usize,
    /// What an unfinished write left in the old file: it has no part in what is left.
    pub torn: Vec<u8>,
}

/// Reads the batches of a state file.
fn read(alloc: Global, bytes: &[u8]) -> Result<Batches, StateFault>
    ensures batches { IfOk result (λ read. lists read.batches.items ≡ recovered bytes.now) }
    ensures torn { IfOk result (λ read. read.torn.items ≡ torn_of bytes.now) }
    ensures refused { IfErr result (λ fault. (fault ≡ Memory) ⊎ IsUnreadable bytes.now fault) }
{
    let read = read_batches(alloc, bytes)?;
    Ok(read)
}

/// What is left of batches under the registry, and how many codes and tokens end. The host is one without hooks.
fn left_of<H: HookHost>(
    alloc: Global,
    found: &Batches,
    registry: &Registry,
    host: H,
) -> Result<(Frames, usize), StateFault>
    requires narrower { AreNarrower (lists found.now.batches.items) (rules_of registry.now) }
    ensures left { IfOk result (λ left. LeavesOfRead H.HookHost (lists found.now.batches.items) found.now.torn.items host registry.now left.0 left.1) }
    ensures refused { IfErr result RefusesNarrowing }
{
    let batches = found.batches.as_slice();
    let told = last_told(alloc, batches)?;
    let now = registry.bounds(alloc)?;
    let owners = OwnersBeside::new(alloc, &told, &now)?;
    let ended = ended_in(alloc, found, registry, &owners, host)?;
    let frames = frames_left(alloc, batches, registry, &owners)?;
    Ok((frames, ended))
}

/// Where the registry is narrower than the rules that a state file tells, what is left when all ends that goes beyond the
/// registry, and what former owners granted: a file that tells the registry's rules, what is left of the list, and the moment of the
/// horizons. Of any other file nothing. The host is one without hooks.
pub fn narrow<H: HookHost>(
    alloc: Global,
    bytes: &[u8],
    registry: &Registry,
    host: H,
) -> Result<Option<Narrowed>, StateFault>
    ensures exact { IfOk result (λ narrowed. IsSome narrowed ↔ IsNarrower bytes.now (rules_of registry.now)) }
    ensures left { IfOk result (λ narrowed. IfSome narrowed (HasLeftOfEach H.HookHost host bytes.now registry.now)) }
    // What was told by the clock stays told.
    ensures until { IfOk result (λ narrowed. IfSome narrowed (λ file. until_of file.frames ≡ until_of (recovered bytes.now))) }
    ensures torn { IfOk result (λ narrowed. IfSome narrowed (λ file. file.torn.items ≡ torn_of bytes.now)) }
    ensures refused { IfErr result (IsUnnarrowed bytes.now (rules_of registry.now)) }
{
    let found = read(alloc, bytes)?;
    let batches = found.batches.as_slice();
    if !is_narrower(alloc, batches, registry)? {
        return Ok(None);
    }
    let left = left_of(alloc, &found, registry, host)?;
    Ok(Some(Narrowed {
        frames: left.0,
        ended: left.1,
        torn: found.torn,
    }))
}
