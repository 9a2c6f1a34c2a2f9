//! What rules a state file tells, and telling a registry's.

ghost use Rattle.std.specs.Prelude.{◌≡◌, ◌<◌, ◌^◌, ◌↔◌, Some, length, IsTrue, IfOk, IfErr, OnOk, option_copied};
ghost use Rattle.batch_file.specs.Frames.{lists};
ghost use Rattle.change_codec.specs.Rules.{RulesFact};
ghost use Rattle.rules_codec.specs.Facts.{rules_fact};
ghost use Rattle.rules_codec.specs.Spelling.{RulesCount, RulesFit, rules_spelling};
ghost use Rattle.state_file.specs.Comparing.{AreAsWide, IsUnread, IsUntold, RefuseBeside, RefuseRules, TakesRules};
ghost use Rattle.state_file.specs.Telling.{BeginWithRules, IsOfRules, Tell, last_rules, rules_in, rules_of};
ghost use Rattle.state_file.specs.declared.fault.StateFault.TheVariants.{Memory};

use crate::comparing::compare;
use crate::fault::StateFault;
use clients::{Bounds, Registry};
use rules_codec::{decode_rules, encode_rules};
use std::alloc::Global;
use wire::EncodeFault;

/// Rules as they are told.
#[derive(Drop)]
pub struct Spelled {
    /// Their spelling.
    pub bytes: Vec<u8>,
    /// Whether the batches told just these last.
    pub told: bool,
}

/// Whether a batch tells rules.
pub fn tells_rules(batch: &[u8]) -> bool
    ensures { IsTrue result ↔ rules_in batch.now ≡ Some batch.now }
{
    match batch {
        [0, ..] => true,
        _ => false,
    }
}

/// Whether the first batch, if there is one, tells rules.
fn begin_with_rules(batches: &[Vec<u8>]) -> bool
    ensures { IsTrue result ↔ BeginWithRules (lists batches.now) }
{
    match batches {
        [] => true,
        [first, ..] => tells_rules(first),
    }
}

/// The last batch that tells rules.
pub fn last_rules(batches: &[Vec<u8>]) -> Option<&[u8]>
    ensures { option_copied result ≡ last_rules (lists batches.now) }
{
    let mut last = None;
    for batch in batches {
        if tells_rules(batch) {
            last = Some(batch.as_slice());
        }
    }
    last
}

/// The rules that a batch tells.
pub fn told_rules(alloc: Global, batch: &[u8]) -> Result<Bounds<'_>, StateFault>
    ensures told { IfOk result (λ rules. IsOfRules batch.now (rules_fact rules)) }
    ensures one { IfOk result (λ rules. (others : RulesFact) → IsOfRules batch.now others → others ≡ rules_fact rules) }
    ensures fit { IfOk result (λ rules. RulesFit (rules_fact rules)) }
    ensures refused { IfErr result (IsUnread batch.now) }
{
    Ok(decode_rules(alloc, batch)?)
}

/// Whether the bytes spell the rules.
fn are_spelled(alloc: Global, rules: &Bounds<'_>, bytes: &[u8]) -> Result<bool, StateFault>
    requires counted { RulesCount (rules_fact rules.now) }
    ensures same { IfOk result (λ same. IsTrue same ↔ rules_spelling (rules_fact rules.now) ≡ bytes.now) }
    ensures refused { IfErr result (λ fault. fault ≡ Memory) }
{
    match encode_rules(alloc, rules) {
        Ok(again) => Ok(again.as_slice() == bytes),
        Err(EncodeFault::Memory) => Err(StateFault::Memory),
        Err(EncodeFault::TooLong) => unreachable!(),
    }
}

/// Tests whether rules are as wide as those that a batch tells, and says whether it tells just these.
#[tactic(auto, using(rules_codec::specs::SpellingLaws::fit_counts))]
fn tells_as(alloc: Global, batch: &[u8], now: &Bounds<'_>, bytes: &[u8]) -> Result<bool, StateFault>
    requires spelled { bytes.now ≡ rules_spelling (rules_fact now.now) }
    requires fit { RulesFit (rules_fact now.now) }
    ensures wide { OnOk result ((told : RulesFact) → IsOfRules batch.now told → AreAsWide told (rules_fact now.now)) }
    ensures told { IfOk result (λ told. IsTrue told ↔ IsOfRules batch.now (rules_fact now.now)) }
    ensures refused { IfErr result (RefuseBeside batch.now (rules_fact now.now)) }
{
    let told = told_rules(alloc, batch)?;
    compare(alloc, &told, now)?;
    let same = are_spelled(alloc, &told, bytes)?;
    Ok(same)
}

/// The spelling of rules, where they may be told.
pub fn spell_rules(alloc: Global, rules: &Bounds<'_>) -> Result<Vec<u8>, StateFault>
    ensures spelled { IfOk result (λ bytes. bytes.items ≡ rules_spelling (rules_fact rules.now)) }
    ensures fit { OnOk result (RulesFit (rules_fact rules.now)) }
    ensures few { IfOk result (λ bytes. length bytes.items < 2 ^ 32) }
    ensures refused { IfErr result (IsUntold (rules_fact rules.now)) }
{
    let bytes = encode_rules(alloc, rules)?;
    if bytes.len() > u32::MAX as usize {
        return Err(StateFault::TooLong);
    }
    Ok(bytes)
}

/// The spelling of the registry's rules, which are as wide as those that the batches told last.
#[tactic(auto, using(crate::specs::BoundsLaws::are_rules))]
pub fn rules_behind(
    alloc: Global,
    batches: &[Vec<u8>],
    registry: &Registry,
) -> Result<Spelled, StateFault>
    ensures spelled { IfOk result (λ rules. rules.bytes.items ≡ rules_spelling (rules_of registry.now)) }
    ensures fit { OnOk result (RulesFit (rules_of registry.now)) }
    ensures few { IfOk result (λ rules. length rules.bytes.items < 2 ^ 32) }
    ensures taken { OnOk result (TakesRules (lists batches.now) (rules_of registry.now)) }
    ensures told { IfOk result (λ rules. IsTrue rules.told ↔ Tell (lists batches.now) (rules_of registry.now)) }
    ensures refused { IfErr result (RefuseRules (lists batches.now) (rules_of registry.now)) }
{
    let rules = registry.bounds(alloc)?;
    let bytes = spell_rules(alloc, &rules)?;
    if !begin_with_rules(batches) {
        return Err(StateFault::NoRules);
    }
    let Some(batch) = last_rules(batches) else {
        let told = false;
        return Ok(Spelled { bytes, told });
    };
    let told = tells_as(alloc, batch, &rules, bytes.as_slice())?;
    Ok(Spelled { bytes, told })
}
