//! The one place that writes replies.
ghost use Rattle.std.specs.Prelude.{◌≡◌, ◌≤◌, [], ◌∷◌, IfOk, IsOk, IfSome, Some, codes, decimal, length, map, option_map, string_bytes, unwrap_or};
ghost use Rattle.std.specs.Option.{option_copied};
ghost use Rattle.clients.specs.Limits.{identifier_limit, key_limit};
ghost use Rattle.clients.specs.Owners.{sub_of, sub_text};
ghost use Rattle.consent.specs.Owners.{owner_number};
ghost use Rattle.hook_host.specs.Names.{AreHookNames};
ghost use Rattle.messages.specs.Members.Member.{Texts};
ghost use Rattle.messages.specs.Reply.{IsBare, consent_body, ended_body, plain, refused_body};
ghost use Rattle.messages.specs.Reply.Body.{Told};
ghost use Rattle.messages.specs.Written.{in_writing};
ghost use Rattle.pkce.specs.Token.{token_text};
ghost use Rattle.hook_host.specs.Faults.{hook_fault_text};
ghost use Rattle.params.specs.Scope.{scope_text};
ghost use Rattle.answers.specs.Replies.{access_reply, both_reply, code_reply, error_reply, id_of, reply_of};
ghost use Rattle.answers.specs.ToldParts.{live_body_of};
ghost use Rattle.answers.specs.Short.{IsShortReply, IsShortAnswer, IsShortReturn};

use crate::answer::Answer;
use crate::halt::status_of;
use clients::{OwnerSub, Registry};
use consent::{ClientNo, OwnerNo, ScopeSet, TokenKind};
use hook_host::{HookFault, HookHost};
use http::StatusCode;
use messages::{
    ActiveToken, Draws, ErrorName, Member, Response, active, failure, inactive, redirect, tokens,
    told,
};
use pkce::token_text;
use std::alloc::{AllocError, Global};

fn access(
    alloc: Global,
    rules: &Registry,
    draw: &[u8; 32],
    scope: ScopeSet,
    life: u32,
) -> Result<Response, AllocError>
    ensures value { IfOk result (λ reply. reply ≡ in_writing (access_reply rules.now draw.now scope life)) }
    ensures short { IfOk result IsShortReply }
{
    let token = token_text(alloc, draw)?;
    let scope = rules.catalogue().scope_text(alloc, scope)?;
    tokens(alloc, &token, life, None, &scope)
}

fn both(
    alloc: Global,
    rules: &Registry,
    draws: &Draws,
    scope: ScopeSet,
    life: u32,
) -> Result<Response, AllocError>
    ensures value { IfOk result (λ reply. reply ≡ in_writing (both_reply rules.now draws.now scope life)) }
    ensures short { IfOk result IsShortReply }
{
    let token = token_text(alloc, &draws.first)?;
    let refresh = token_text(alloc, &draws.second)?;
    let scope = rules.catalogue().scope_text(alloc, scope)?;
    tokens(alloc, &token, life, Some(&refresh), &scope)
}

fn consented(alloc: Global, rules: &Registry, mask: ScopeSet) -> Result<Response, AllocError>
    ensures value { IfOk result (λ reply. reply ≡ in_writing (plain 200 (consent_body (scope_text rules.now.scopes mask)))) }
    ensures short { IfOk result IsShortReply }
{
    let scope = rules.catalogue().scope_text(alloc, mask)?;
    told(alloc, StatusCode::OK, &[Member::Text("scope", &scope)])
}

fn fault(alloc: Global, fault: HookFault) -> Result<Response, AllocError>
    ensures value { IfOk result (λ reply. reply ≡ in_writing (plain 400 (refused_body (hook_fault_text fault)))) }
    ensures short { IfOk result IsShortReply }
{
    let detail = format!(in alloc; "{fault}")?;
    let members = [
        Member::Text("detail", &detail),
        Member::Text("error", "hook_refused"),
    ];
    told(alloc, StatusCode::BAD_REQUEST, &members)
}

// The id of the client of the number.
fn id_of(rules: &Registry, number: ClientNo) -> &str
    ensures value { result.now ≡ id_of rules.now number }
    ensures short { length result.now ≤ identifier_limit }
{
    match rules.client_numbered(number) {
        Some(client) => client.id(),
        None => "",
    }
}

// What the owner is called, if there is one and it is called anything.
fn sub_of(rules: &Registry, owner: Option<OwnerNo>) -> Option<OwnerSub<'_>>
    ensures value { option_map sub_text result ≡ sub_of (owner_number owner) rules.now }
    ensures short { IfSome result (λ sub. length (sub_text sub) ≤ key_limit) }
{
    rules.owner_sub(owner?)
}

// What is told of a live token beside what its owner is called.
#[derive(Clone, Copy)]
struct LiveToken {
    client: ClientNo,
    issued: u64,
    expires: u64,
    scope: ScopeSet,
    kind: TokenKind,
}

// A live token whose owner is called so, if it is called anything.
fn live(
    alloc: Global,
    rules: &Registry,
    token: LiveToken,
    sub: Option<&str>,
) -> Result<Response, AllocError>
    ensures value { IfOk result (λ reply. reply ≡ in_writing (plain 200 (live_body_of rules.now token (option_copied sub.entry)))) }
    ensures short { length (unwrap_or (option_copied sub.entry) []) ≤ key_limit → IfOk result IsShortReply }
{
    let scope = rules.catalogue().scope_text(alloc, token.scope)?;
    let told = ActiveToken {
        client: id_of(rules, token.client),
        issued: token.issued,
        expires: token.expires,
        scope: &scope,
        sub,
        kind: token.kind,
    };
    active(alloc, told)
}

// The number in decimal.
fn digits(alloc: Global, number: OwnerNo) -> Result<String, AllocError>
    ensures { IfOk result (λ text. string_bytes text ≡ decimal number) }
{
    let number = number.get();
    format!(in alloc; "{number}")
}

// A live token of an owner who is called so.
fn live_called(
    alloc: Global,
    rules: &Registry,
    token: LiveToken,
    sub: &OwnerSub<'_>,
) -> Result<Response, AllocError>
    ensures value { IfOk result (λ reply. reply ≡ in_writing
        (plain 200 (live_body_of rules.now token (Some (sub_text sub.now))))) }
    ensures short { length (sub_text sub.now) ≤ key_limit → IfOk result IsShortReply }
{
    match sub {
        OwnerSub::Called(text) => live(alloc, rules, token, Some(*text)),
        OwnerSub::Numbered(number) => {
            let text = digits(alloc, *number)?;
            live(alloc, rules, token, Some(&text))
        }
    }
}

// A live token of the owner, if it has one.
fn live_of(
    alloc: Global,
    rules: &Registry,
    token: LiveToken,
    owner: Option<OwnerNo>,
) -> Result<Response, AllocError>
    ensures value { IfOk result (λ reply. reply ≡ in_writing
        (plain 200 (live_body_of rules.now token (sub_of (owner_number owner) rules.now)))) }
    ensures short { IfOk result IsShortReply }
{
    match sub_of(rules, owner) {
        Some(sub) => live_called(alloc, rules, token, &sub),
        None => live(alloc, rules, token, None),
    }
}

// An owner left.
fn ended(alloc: Global, families: usize, consents: u32) -> Result<Response, AllocError>
    ensures value { IfOk result (λ reply. reply ≡ in_writing (plain 200 (ended_body families consents))) }
    ensures short { IfOk result IsShortReply }
{
    let members = [
        Member::Number("consents", u64::from(consents)),
        Member::Number("families", families as u64),
    ];
    told(alloc, StatusCode::OK, &members)
}

// The names of the host's hooks.
fn hook_names<H: HookHost>(alloc: Global, host: &H) -> Result<Vec<&str>, AllocError>
    ensures value { IfOk result (λ names. map (λ name. name.now) names.items ≡ H.names host.now) }
    ensures names { AreHookNames (H.names host.now) }
{
    let mut names = Vec::new(alloc);
    while let Some(name) = host.name_at(names.len()) {
        names.push(name)?;
    }
    Ok(names)
}

fn all_hooks<H: HookHost>(alloc: Global, host: &H) -> Result<Response, AllocError>
    ensures value { IfOk result (λ reply. reply ≡ in_writing (plain 200 (Told (Texts (codes "hooks") (H.names host.now) ∷ [])))) }
    ensures short { IfOk result IsShortReply }
{
    let names = hook_names(alloc, host)?;
    told(alloc, StatusCode::OK, &[Member::Texts("hooks", &names)])
}

// Sent back with a code.
fn sent(
    alloc: Global,
    uri: &str,
    draw: &[u8; 32],
    state: Option<&str>,
) -> Result<Response, AllocError>
    ensures value { IfOk result (λ reply. reply ≡ in_writing (code_reply uri.now draw.now (option_copied state.entry))) }
    ensures short { IsShortReturn uri.now (option_copied state.entry) → IfOk result IsShortReply }
{
    let text = token_text(alloc, draw)?;
    redirect(alloc, uri, "code", &text, state)
}

// Or with an error.
fn turned(
    alloc: Global,
    uri: &str,
    error: ErrorName,
    state: Option<&str>,
) -> Result<Response, AllocError>
    ensures value { IfOk result (λ reply. reply ≡ in_writing (error_reply uri.now error (option_copied state.entry))) }
    ensures short { IsShortReturn uri.now (option_copied state.entry) → IfOk result IsShortReply }
{
    redirect(alloc, uri, "error", error.text(), state)
}

/// The reply, written: of the hooks, the host's names are read. A status and nothing else takes no memory.
pub fn write<H: HookHost>(
    alloc: Global,
    rules: &Registry,
    host: &H,
    answer: &Answer<'_>,
) -> Result<Response, AllocError>
    ensures value { IfOk result (λ reply. reply ≡ in_writing (reply_of rules.now (H.names host.now) answer.entry.now)) }
    ensures short { IsShortAnswer answer.entry.now → IfOk result IsShortReply }
    ensures bare { IsBare (reply_of rules.now (H.names host.now) answer.entry.now) → IsOk result }
{
    match *answer {
        Answer::Done => Ok(Response::bare(StatusCode::OK)),
        Answer::Failure(error) => failure(alloc, status_of(error), error),
        Answer::Denied(error) => failure(alloc, status_of(error), error),
        Answer::Unavailable(_) => Ok(Response::bare(StatusCode::SERVICE_UNAVAILABLE)),
        Answer::Access { draw, scope, life } => access(alloc, rules, &draw, scope, life),
        Answer::Both { draws, scope, life } => both(alloc, rules, &draws, scope, life),
        Answer::Consented { mask } => consented(alloc, rules, mask),
        Answer::CodeSent { uri, draw, state } => sent(alloc, uri, &draw, state),
        Answer::TurnedBack { uri, error, state } => turned(alloc, uri, error, state),
        Answer::Active {
            client,
            issued,
            expires,
            scope,
            owner,
            kind,
        } => {
            let token = LiveToken {
                client,
                issued,
                expires,
                scope,
                kind,
            };
            live_of(alloc, rules, token, owner)
        }
        Answer::Inactive => inactive(alloc),
        Answer::HookDone { name } => told(alloc, StatusCode::OK, &[Member::Text("name", name)]),
        Answer::HookRefused(refused) => fault(alloc, refused),
        Answer::Hooks => all_hooks(alloc, host),
        Answer::Ended { families, consents } => ended(alloc, families, consents),
    }
}
