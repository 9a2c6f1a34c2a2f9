//! Batches that tell what is left of a state file's list under a registry.

ghost use Rattle.std.specs.Prelude.{◌≡◌, ◌<◌, ◌^◌, length, IfOk, IfErr, OnOk};
ghost use Rattle.batch_file.specs.Frames.{lists};
ghost use Rattle.rules_codec.specs.Spelling.{RulesFit, rules_spelling};
ghost use Rattle.state_file.specs.Telling.{rules_of};
ghost use Rattle.narrowing.specs.Narrowing.{RefusesNarrowing};
ghost use Rattle.narrowing.specs.NarrowingParts.{TellLeft};

use crate::changes::changes_left;
use batch_file::frames::Frames;
use clients::Registry;
use rules_beside::OwnersBeside;
use state_file::{StateFault, changes_in, short_of, spell_rules, until_of};
use std::alloc::Global;

// The spelling of the registry's rules.
#[tactic(auto, using(state_file::specs::BoundsLaws::are_rules))]
fn spelled_rules(alloc: Global, registry: &Registry) -> Result<Vec<u8>, StateFault>
    ensures spelled { IfOk result (λ bytes. bytes.items ≡ rules_spelling (rules_of registry.now)) }
    ensures fit { OnOk result (RulesFit (rules_of registry.now)) }
    ensures few { IfOk result (λ bytes. length bytes.items < 2 ^ 32) }
    ensures refused { IfErr result RefusesNarrowing }
{
    let rules = registry.bounds(alloc)?;
    let bytes = spell_rules(alloc, &rules)?;
    Ok(bytes)
}

/// Batches that tell the registry's rules, what is left under these of the list that the batches tell, and the moment of the
/// batches' horizons.
pub(crate) fn frames_left(
    alloc: Global,
    batches: &[Vec<u8>],
    registry: &Registry,
    owners: &OwnersBeside<'_, '_>,
) -> Result<Frames, StateFault>
    ensures left { IfOk result (TellLeft (lists batches.now) (record { rules = registry.now; owners = owners.now })) }
    ensures refused { IfErr result RefusesNarrowing }
{
    let rules = spelled_rules(alloc, registry)?;
    let told = changes_in(alloc, batches)?;
    let left = changes_left(alloc, registry, owners, told)?;
    let short = short_of(alloc, &rules, &left, until_of(batches))?;
    Ok(short.frames)
}
