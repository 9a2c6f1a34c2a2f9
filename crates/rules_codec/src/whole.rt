//! Rules that are all of some bytes.

ghost use Rattle.std.specs.Prelude.{◌≡◌, ◌↔◌, Ok, IfOk, OnOk, IsErrOf};
ghost use Rattle.change_codec.specs.Rules.{RulesFact};
ghost use Rattle.rules_codec.specs.Facts.{rules_fact};
ghost use Rattle.rules_codec.specs.Spelling.{RulesCount, RulesFit, rules_reading, rules_spelling};
ghost use Rattle.wire.specs.Reading.{GivesReading};
ghost use Rattle.wire.specs.declared.fault.EncodeFault.TheVariants.{TooLong};

use crate::counting::rules_count;
use crate::spelled::SpelledRules;
use clients::Bounds;
use std::alloc::Global;
use wire::{DecodeFault, EncodeFault};

/// The one spelling of the rules.
pub fn encode_rules(alloc: Global, rules: &Bounds) -> Result<Vec<u8>, EncodeFault>
    ensures written { IfOk result (λ bytes. bytes.items ≡ rules_spelling (rules_fact rules.now)) }
    // What is written can be read again.
    ensures fits { OnOk result (RulesFit (rules_fact rules.now)) }
    ensures too_long { IsErrOf result TooLong ↔ ¬ (RulesCount (rules_fact rules.now)) }
{
    if !rules_count(rules) {
        return Err(EncodeFault::TooLong);
    }
    wire::encode(alloc, 0, &SpelledRules::new(alloc, rules)?)
}

/// The rules that all of the bytes spell. Their texts lie in the bytes.
pub fn decode_rules(alloc: Global, bytes: &[u8]) -> Result<Bounds, DecodeFault>
    // What is read is spelled so.
    ensures spelled { IfOk result (λ r. bytes.now ≡ rules_spelling (rules_fact r)) }
    ensures fits { IfOk result (λ r. RulesFit (rules_fact r)) }
    // What is spelled so is read, unless memory runs out.
    ensures again { (r : RulesFact) → RulesFit r → bytes.now ≡ rules_spelling r →
        GivesReading rules_fact result (Ok r) }
    // Which fault it is.
    ensures exact { GivesReading rules_fact result (rules_reading bytes.now) }
{
    match wire::decode::<SpelledRules>(alloc, 0, bytes) {
        Ok(spelled) => Ok(spelled.told(alloc)?),
        Err(fault) => Err(fault),
    }
}
