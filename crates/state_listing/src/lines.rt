//! All lines of a state file.

ghost use Rattle.std.specs.Prelude.{◌≡◌, ◌++◌, [], ◌∷◌, IfOk, OnOk, flat_map, map};
ghost use Rattle.consent.specs.RecordFacts.{record_fact};
ghost use Rattle.rules_codec.specs.Facts.{hook_fact, standing_fact, rules_fact};
ghost use Rattle.state_listing.specs.Lines.{consent_line, family_line, firsts, hook_line, listing_text, token_line};

use crate::facts::FileFacts;
use crate::rows::{push_consent, push_family, push_file, push_hook, push_token};
use clients::Bounds;
use consent::{KeptConsent, KeptRecord};
use rules_codec::{KeptHook, Standing};
use std::alloc::{AllocError, Global};
use std::collections::BTreeSet;

// A line for each consent.
fn push_consents(
    alloc: Global,
    lines: &mut Vec<u8>,
    rules: &Bounds<'_>,
    consents: &[KeptConsent],
) -> Result<(), AllocError>
    ensures { OnOk result (lines.new.items ≡ lines.old.items ++ flat_map (consent_line (rules_fact rules.now)) consents.now) }
{
    for consent in consents {
        push_consent(alloc, lines, rules, consent)?;
    }
    Ok(())
}

// A line for each family.
fn push_families(
    alloc: Global,
    lines: &mut Vec<u8>,
    rules: &Bounds<'_>,
    records: &[KeptRecord<'_>],
) -> Result<(), AllocError>
    ensures { OnOk result (lines.new.items ≡ lines.old.items
        ++ flat_map (family_line (rules_fact rules.now)) (firsts [] (map record_fact records.now))) }
{
    let mut families = BTreeSet::new(alloc);
    let mut rest = records;
    while let [kept, later @ ..] = rest {
        if families.insert(kept.family)? {
            push_family(alloc, lines, rules, kept)?;
        }
        rest = later;
    }
    Ok(())
}

// A line for each code and token.
fn push_tokens(
    alloc: Global,
    lines: &mut Vec<u8>,
    rules: &Bounds<'_>,
    records: &[KeptRecord<'_>],
) -> Result<(), AllocError>
    ensures { OnOk result (lines.new.items ≡ lines.old.items
        ++ flat_map (token_line (rules_fact rules.now)) (map record_fact records.now)) }
{
    for kept in records {
        push_token(alloc, lines, rules, kept)?;
    }
    Ok(())
}

// A line for each hook.
fn push_hooks(alloc: Global, lines: &mut Vec<u8>, hooks: &[KeptHook<'_>]) -> Result<(), AllocError>
    ensures { OnOk result (lines.new.items ≡ lines.old.items ++ flat_map hook_line (map hook_fact hooks.now)) }
{
    for hook in hooks {
        push_hook(alloc, lines, hook)?;
    }
    Ok(())
}

/// A line for each consent, family, code or token, and hook, and one for the file.
pub fn listing(
    alloc: Global,
    standing: &Standing<'_>,
    file: &FileFacts,
) -> Result<Vec<u8>, AllocError>
    ensures { IfOk result (λ text. text.items ≡ listing_text (standing_fact standing.now) file.now) }
{
    let mut lines = Vec::new(alloc);
    push_consents(alloc, &mut lines, &standing.rules, &standing.consents)?;
    push_families(alloc, &mut lines, &standing.rules, &standing.records)?;
    push_tokens(alloc, &mut lines, &standing.rules, &standing.records)?;
    push_hooks(alloc, &mut lines, &standing.hooks)?;
    push_file(alloc, &mut lines, standing.greatest, file)?;
    Ok(lines)
}
