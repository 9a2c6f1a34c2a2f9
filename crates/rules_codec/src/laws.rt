//! A law of the spellings.

ghost use Rattle.std.specs.Prelude.{◌≡◌};
ghost use Rattle.change_codec.specs.Rules.{RulesFact};
ghost use Rattle.rules_codec.specs.Spelling.{RulesFit, rules_spelling};

/// No bytes tell two rules.
#[tactic(auto, using(crate::specs::SpellingLaws::one_rules))]
pub fn bytes_tell_one_rules()
    ensures { (some others : RulesFact) → RulesFit some → RulesFit others
        → rules_spelling some ≡ rules_spelling others → some ≡ others }
{}
