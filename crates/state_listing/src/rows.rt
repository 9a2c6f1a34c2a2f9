//! A line for each thing that a server has.

ghost use Rattle.std.specs.Prelude.{◌≡◌, ◌<◌, ◌^◌, ◌++◌, ◌∷◌, [], OnOk, IfOk, map, option_copied};
ghost use Rattle.consent.specs.declared.kept_consent.KeptConsent.{KeptConsent};
ghost use Rattle.consent.specs.RecordFacts.{kind_fact, record_fact};
ghost use Rattle.rules_codec.specs.Facts.{hook_fact, rules_fact};
ghost use Rattle.params.specs.Scope.{names_in_mask};
ghost use Rattle.json.specs.Token.{key};
ghost use Rattle.state_listing.specs.Lines.{age_ahead, client_members, code_scope_members, consent_line, family_line, file_line, hook_line, kind_name, client_name, owner_members, age_members, scope_members, token_line};

use crate::facts::FileFacts;
use crate::line::{begin_line, end_line};
use clients::Bounds;
use consent::{ClientNo, KeptConsent, KeptKind, KeptRecord, Moment, ScopeSet, TokenKind};
use messages::Object;
use rules_codec::KeptHook;
use std::alloc::{AllocError, Global};

// The name of the client, if the rules have one.
fn client_name<'a>(rules: &Bounds<'a>, client: ClientNo) -> Option<&'a str>
    ensures { option_copied result ≡ client_name (rules_fact rules.now).clients client }
{
    let place = client.get() as usize - 1;
    if place < rules.clients.len() {
        return Some(rules.clients[place].name);
    }
    None
}

// The names of a scope, in the order of the rules.
fn names_of<'a>(
    alloc: Global,
    rules: &Bounds<'a>,
    scope: ScopeSet,
) -> Result<Vec<&'a str>, AllocError>
    ensures { IfOk result (λ names. map (λ s. s.now) names.items ≡ names_in_mask (rules_fact rules.now).scopes scope) }
{
    let mut names = Vec::new(alloc);
    let mut left = scope.bits();
    let mut rest = rules.scopes.as_slice();
    while let [name, others @ ..] = rest {
        if left % 2 == 1 {
            names.extend_from_slice(&[*name])?;
        }
        left /= 2;
        rest = others;
    }
    Ok(names)
}

// One more member: the client, by its name, or by its number where the rules have none.
fn push_client(line: &mut Object, rules: &Bounds<'_>, client: ClientNo) -> Result<(), AllocError>
    ensures { OnOk result (line.new.json.tokens ≡ line.old.json.tokens ++ client_members (rules_fact rules.now) client) }
{
    match client_name(rules, client) {
        Some(name) => line.text("client", name),
        None => line.number("client", u64::from(client.get())),
    }
}

// One more member: the names of a scope.
#[tactic(auto, using(crate::proofs::Names::strings_of))]
fn push_scope(
    alloc: Global,
    line: &mut Object,
    rules: &Bounds<'_>,
    scope: ScopeSet,
) -> Result<(), AllocError>
    ensures { OnOk result (line.new.json.tokens ≡ line.old.json.tokens ++ scope_members (rules_fact rules.now) scope) }
{
    let names = names_of(alloc, rules, scope)?;
    line.texts("scope", &names)
}

// What an owner has consented to.
pub(crate) fn push_consent(
    alloc: Global,
    lines: &mut Vec<u8>,
    rules: &Bounds<'_>,
    consent: &KeptConsent,
) -> Result<(), AllocError>
    ensures { OnOk result (lines.new.items ≡ lines.old.items ++ consent_line (rules_fact rules.now) consent.now) }
{
    let mut line = begin_line(alloc, "consent")?;
    line.number("owner", u64::from(consent.owner.get()))?;
    push_client(&mut line, rules, consent.client)?;
    push_scope(alloc, &mut line, rules, consent.mask)?;
    end_line(line, lines)
}

// One more member, if there is one: the owner. A family of the client's own has none.
fn push_owner(line: &mut Object, owner: u32) -> Result<(), AllocError>
    ensures { OnOk result (line.new.json.tokens ≡ line.old.json.tokens ++ owner_members owner) }
{
    if owner == 0 {
        return Ok(());
    }
    line.number("owner", u64::from(owner))
}

// One more member, if a code opened the family: the scope of that code.
fn push_code_scope(
    alloc: Global,
    line: &mut Object,
    rules: &Bounds<'_>,
    code_scope: Option<ScopeSet>,
) -> Result<(), AllocError>
    ensures { OnOk result (line.new.json.tokens ≡ line.old.json.tokens ++ code_scope_members (rules_fact rules.now) code_scope) }
{
    match code_scope {
        Some(scope) => push_scope(alloc, line, rules, scope),
        None => Ok(()),
    }
}

// The family of a code or token.
pub(crate) fn push_family(
    alloc: Global,
    lines: &mut Vec<u8>,
    rules: &Bounds<'_>,
    kept: &KeptRecord<'_>,
) -> Result<(), AllocError>
    ensures { OnOk result (lines.new.items ≡ lines.old.items ++ family_line (rules_fact rules.now) (record_fact kept.now)) }
{
    let mut line = begin_line(alloc, "family")?;
    line.number("family", kept.family)?;
    push_client(&mut line, rules, kept.client)?;
    push_owner(&mut line, kept.owner)?;
    push_code_scope(alloc, &mut line, rules, kept.code_scope)?;
    line.boolean("ended", kept.ended)?;
    end_line(line, lines)
}

// What a code or token is called.
fn kind_name(kind: &KeptKind<'_>) -> &'static str
    ensures { result.now ≡ kind_name (kind_fact kind.now) }
{
    match kind {
        KeptKind::Code { .. } => "code",
        KeptKind::Token(TokenKind::Access) => "access",
        KeptKind::Token(TokenKind::Refresh) => "refresh",
    }
}

// A code or token.
pub(crate) fn push_token(
    alloc: Global,
    lines: &mut Vec<u8>,
    rules: &Bounds<'_>,
    kept: &KeptRecord<'_>,
) -> Result<(), AllocError>
    ensures { OnOk result (lines.new.items ≡ lines.old.items ++ token_line (rules_fact rules.now) (record_fact kept.now)) }
{
    let mut line = begin_line(alloc, kind_name(&kept.kind))?;
    let digits = hex::encode(alloc, &kept.digest.bytes()[..4])?;
    line.text("digest", digits.as_str())?;
    line.number("family", kept.family)?;
    push_scope(alloc, &mut line, rules, kept.scope)?;
    line.number("moment", kept.moment.get())?;
    line.number("life", u64::from(kept.life))?;
    line.boolean("spent", kept.spent)?;
    end_line(line, lines)
}

// A hook.
pub(crate) fn push_hook(
    alloc: Global,
    lines: &mut Vec<u8>,
    hook: &KeptHook<'_>,
) -> Result<(), AllocError>
    ensures { OnOk result (lines.new.items ≡ lines.old.items ++ hook_line (hook_fact hook.now)) }
{
    let mut line = begin_line(alloc, "hook")?;
    line.text("name", hook.name)?;
    line.number("version", hook.version.number())?;
    line.number("bytes", hook.code.len() as u64)?;
    end_line(line, lines)
}

// One more member: how many seconds the last moment is ahead, as an age below 0.
fn push_ahead(line: &mut Object, seconds: u64) -> Result<(), AllocError>
    requires some { 0 < seconds }
    requires short { seconds < 2 ^ 63 }
    ensures { OnOk result (line.new.json.tokens ≡ line.old.json.tokens ++ age_ahead seconds) }
{
    line.json.key("age")?;
    line.json.i64(-(seconds as i64))
}

// One more member, where it is known: how many seconds lie between the two moments.
fn push_age(line: &mut Object, last: Moment, now: Option<Moment>) -> Result<(), AllocError>
    ensures { OnOk result (line.new.json.tokens ≡ line.old.json.tokens ++ age_members last now) }
{
    let Some(now) = now else {
        return Ok(());
    };
    let (last, now) = (last.get(), now.get());
    if now < last {
        push_ahead(line, last - now)
    } else {
        line.number("age", now - last)
    }
}

// The file as a whole. `last` is the greatest moment that it tells.
pub(crate) fn push_file(
    alloc: Global,
    lines: &mut Vec<u8>,
    last: Moment,
    file: &FileFacts,
) -> Result<(), AllocError>
    ensures { OnOk result (lines.new.items ≡ lines.old.items ++ file_line last file.now) }
{
    let mut line = begin_line(alloc, "file")?;
    line.number("bytes", file.bytes)?;
    line.number("batches", file.batches)?;
    line.number("torn", file.torn)?;
    line.number("last", last.get())?;
    push_age(&mut line, last, file.looked_at)?;
    end_line(line, lines)
}
