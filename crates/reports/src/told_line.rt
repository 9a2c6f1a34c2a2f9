//! What is told of a request, as a line of JSON.
ghost use Rattle.std.specs.Prelude.{◌≡◌, ◌++◌, ◌∷◌, [], IfOk, OnOk, map, option_map};
ghost use Rattle.std.specs.Option.{option_copied};
ghost use Rattle.answers.specs.Paths.{path_at};
ghost use Rattle.hook_host.specs.Verdicts.{verdict_in};
ghost use Rattle.json.specs.Print.{print};
ghost use Rattle.json.specs.Token.{key, null};
ghost use Rattle.messages.specs.Written.{error_text};
ghost use Rattle.reports.specs.ToldTokens.{answered_tokens, ask_tokens, client_id, did_name, given_tokens, grant_name, hooks_tokens, is_left, left_before, left_tokens, number_tokens, scope_tokens, text_in, text_tokens, told_tokens, verdict_tokens, verdicts_tokens};

use answers::Endpoint;
use clients::{GrantType, Registry};
use consent::{ClientNo, OwnerNo, ScopeSet};
use hook_host::{Entry, Verdicts};
use hook_record::{Ask, Narrowed};
use messages::{ErrorName, Object};
use std::alloc::{AllocError, Global};
use telling::Told;

// Room for a line with eight hooks and long names.
const ROOM: usize = 2048;

// A member that there is none of.
fn nothing(line: &mut Object, name: &str) -> Result<(), AllocError>
    ensures { OnOk result (line.new.json.tokens ≡ line.old.json.tokens ++ key name.now ∷ null ∷ []) }
{
    line.json.key(name)?;
    line.json.null()
}

fn text(line: &mut Object, name: &str, text: Option<&str>) -> Result<(), AllocError>
    ensures { OnOk result (line.new.json.tokens ≡ line.old.json.tokens ++ text_tokens name.now (option_copied text.entry)) }
{
    match text {
        Some(text) => line.text(name, text),
        None => nothing(line, name),
    }
}

fn number(line: &mut Object, name: &str, number: Option<u64>) -> Result<(), AllocError>
    ensures { OnOk result (line.new.json.tokens ≡ line.old.json.tokens ++ number_tokens name.now number) }
{
    match number {
        Some(number) => line.number(name, number),
        None => nothing(line, name),
    }
}

// A scope, by the names of the registry.
fn scope(
    line: &mut Object,
    alloc: Global,
    rules: &Registry,
    scope: Option<ScopeSet>,
) -> Result<(), AllocError>
    ensures { OnOk result (line.new.json.tokens ≡ line.old.json.tokens ++ scope_tokens rules.now scope) }
{
    let Some(scope) = scope else {
        return nothing(line, "scope");
    };
    let names = rules.catalogue().scope_text(alloc, scope)?;
    line.text("scope", &names)
}

// What hooks were asked: the life and the scope that the token would have.
fn asked(
    line: &mut Object,
    alloc: Global,
    rules: &Registry,
    ask: Option<Ask>,
) -> Result<(), AllocError>
    ensures { OnOk result (line.new.json.tokens ≡ line.old.json.tokens ++ ask_tokens rules.now ask) }
{
    let Some(ask) = ask else {
        return nothing(line, "asked");
    };
    line.begin("asked")?;
    line.number("life", u64::from(ask.life))?;
    scope(line, alloc, rules, Some(ScopeSet::new(ask.scope)))?;
    line.end()
}

// Whether so much was left before.
fn is_left(before: Narrowed, scope: u64, life: u32) -> bool
    ensures { result ≡ is_left before scope life }
{
    match before {
        Narrowed::Allowed {
            scope: was,
            life: span,
        } => was == scope && span == life,
        Narrowed::Denied | Narrowed::EmptyScope => false,
    }
}

// What a hook did that left this, behind what was left before it: whether it narrowed that, denied it, or left no scope.
fn did_name(before: Narrowed, left: Narrowed) -> &'static str
    ensures { result.now ≡ did_name before left }
{
    match left {
        Narrowed::Allowed { scope, life } => {
            if is_left(before, scope, life) {
                "allowed"
            } else {
                "narrowed"
            }
        }
        Narrowed::Denied => "denied",
        Narrowed::EmptyScope => "no_scope",
    }
}

// Bytes, where they are a text.
fn text_in(bytes: &[u8]) -> Option<&str>
    ensures { option_copied result ≡ text_in bytes.now }
{
    match str::from_utf8(bytes) {
        Ok(text) => Some(text),
        Err(_) => None,
    }
}

// What a hook left, where it allowed something.
fn left(
    line: &mut Object,
    alloc: Global,
    rules: &Registry,
    left: Narrowed,
) -> Result<(), AllocError>
    ensures { OnOk result (line.new.json.tokens ≡ line.old.json.tokens ++ left_tokens rules.now left) }
{
    let Narrowed::Allowed { scope: mask, life } = left else {
        return Ok(());
    };
    line.number("life", u64::from(life))?;
    scope(line, alloc, rules, Some(ScopeSet::new(mask)))
}

// What a hook left, behind what was left before it.
fn verdict(
    line: &mut Object,
    alloc: Global,
    rules: &Registry,
    before: Narrowed,
    kept: &Entry,
) -> Result<(), AllocError>
    ensures { OnOk result (line.new.json.tokens ≡ line.old.json.tokens ++ verdict_tokens rules.now before (verdict_in kept.now)) }
{
    line.json.begin_object()?;
    line.text("did", did_name(before, kept.left()))?;
    text(line, "hook", text_in(kept.name()))?;
    left(line, alloc, rules, kept.left())?;
    line.end()
}

// What each hook left, in its turn.
fn verdicts(
    line: &mut Object,
    alloc: Global,
    rules: &Registry,
    mut before: Narrowed,
    entries: &[Entry],
) -> Result<(), AllocError>
    ensures { OnOk result (line.new.json.tokens ≡ line.old.json.tokens ++ verdicts_tokens rules.now before (map verdict_in entries.now)) }
{
    for kept in entries {
        verdict(line, alloc, rules, before, kept)?;
        before = kept.left();
    }
    Ok(())
}

// What is left before the first hook.
fn left_before(ask: Option<Ask>) -> Narrowed
    ensures { result ≡ left_before ask }
{
    match ask {
        Some(ask) => Narrowed::Allowed {
            scope: ask.scope,
            life: ask.life,
        },
        None => Narrowed::EmptyScope,
    }
}

fn hooks(
    line: &mut Object,
    alloc: Global,
    rules: &Registry,
    ask: Option<Ask>,
    asked: &Verdicts,
) -> Result<(), AllocError>
    ensures { OnOk result (line.new.json.tokens ≡ line.old.json.tokens ++ hooks_tokens rules.now ask asked.now) }
{
    line.json.key("hooks")?;
    line.json.begin_array()?;
    verdicts(line, alloc, rules, left_before(ask), asked.entries())?;
    line.json.end_array()
}

fn client_id(rules: &Registry, client: Option<ClientNo>) -> Option<&str>
    ensures { option_copied result ≡ client_id rules.now client }
{
    match rules.client_numbered(client?) {
        Some(known) => Some(known.id()),
        None => None,
    }
}

fn grant_name(grant: GrantType) -> &'static str
    ensures { result.now ≡ grant_name grant }
{
    match grant {
        GrantType::AuthorizationCode => "authorization_code",
        GrantType::RefreshToken => "refresh_token",
        GrantType::ClientCredentials => "client_credentials",
    }
}

fn path_name(endpoint: Option<Endpoint>) -> Option<&'static str>
    ensures { option_copied result ≡ option_map path_at endpoint }
{
    match endpoint {
        Some(endpoint) => Some(endpoint.path()),
        None => None,
    }
}

fn error_name(error: Option<ErrorName>) -> Option<&'static str>
    ensures { option_copied result ≡ option_map error_text error }
{
    match error {
        Some(error) => Some(error.text()),
        None => None,
    }
}

fn grant_named(grant: Option<GrantType>) -> Option<&'static str>
    ensures { option_copied result ≡ option_map grant_name grant }
{
    match grant {
        Some(grant) => Some(grant_name(grant)),
        None => None,
    }
}

fn owner_number(owner: Option<OwnerNo>) -> Option<u64>
    ensures { result ≡ owner }
{
    match owner {
        Some(owner) => Some(u64::from(owner.get())),
        None => None,
    }
}

fn seconds(life: Option<u32>) -> Option<u64>
    ensures { result ≡ life }
{
    match life {
        Some(life) => Some(u64::from(life)),
        None => None,
    }
}

// Who asked, and what came of it.
fn answered(line: &mut Object, rules: &Registry, told: &Told) -> Result<(), AllocError>
    ensures { OnOk result (line.new.json.tokens ≡ line.old.json.tokens ++ answered_tokens rules.now told.now) }
{
    text(line, "client", client_id(rules, told.client))?;
    text(line, "error", error_name(told.error))?;
    number(line, "family", told.family)?;
    text(line, "grant", grant_named(told.grant))
}

// What was given to whom, when and at which path, and the status of the reply.
fn given(line: &mut Object, alloc: Global, rules: &Registry, told: &Told) -> Result<(), AllocError>
    ensures { OnOk result (line.new.json.tokens ≡ line.old.json.tokens ++ given_tokens rules.now told.now) }
{
    number(line, "life", seconds(told.life))?;
    line.number("moment", told.moment.get())?;
    number(line, "owner", owner_number(told.owner))?;
    text(line, "path", path_name(told.endpoint))?;
    scope(line, alloc, rules, told.scope)?;
    line.number("status", u64::from(told.status.as_u16()))
}

/// What is told of a request, as a line of JSON without its end. Each member is there, in the order of their names; what there is
/// none of is null, as a path that no endpoint has: that would be a text of the request.
pub fn told_text(alloc: Global, rules: &Registry, told: &Told) -> Result<Vec<u8>, AllocError>
    ensures { IfOk result (λ text. text.items ≡ print (told_tokens rules.now told.now)) }
{
    let mut line = Object::new(alloc, ROOM)?;
    asked(&mut line, alloc, rules, told.ask)?;
    answered(&mut line, rules, told)?;
    hooks(&mut line, alloc, rules, told.ask, &told.verdicts)?;
    given(&mut line, alloc, rules, told)?;
    line.finish()
}
