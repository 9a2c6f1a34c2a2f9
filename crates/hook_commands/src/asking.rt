//! `ask` and `ask2`: the record of an ask that is told by a few numbers, as hex for `run`.

ghost use Rattle.std.specs.Prelude.{◌≡◌, ◌^◌, ℕ, IfOk, IfSome, IfNone};
ghost use Rattle.std.specs.String.{string_bytes};
ghost use Rattle.hook_commands.specs.Asking.{record_hex, IsAskedAs, IsNumber, SayAsk};

use crate::answer::{HookAnswer, HookResult};
use crate::fault::HookCommandFault;
use hook_record::{Ask, Kind, write, write_v2};
use insn::layout::Layout;
use std::alloc::{AllocError, Global};

/// Six numbers as text, which tell an ask.
#[derive(Clone, Copy, Debug)]
pub struct AskWords<'w> {
    /// The number of the grant's kind.
    pub kind: &'w str,
    /// The moment, in seconds.
    pub now: &'w str,
    /// The client's number.
    pub client: &'w str,
    /// The owner's number.
    pub owner: &'w str,
    /// The mask of the scopes.
    pub scope: &'w str,
    /// The access token's lifetime, in seconds.
    pub life: &'w str,
}

/// The number that digits say, where it is below `2^64`.
fn number(text: &str) -> Option<u64>
    ensures some { IfSome result (IsNumber (2 ^ 64) text.now) }
    ensures none { IfNone result ((n : ℕ) → IsNumber (2 ^ 64) text.now n → ⊥) }
{
    if text.starts_with('+') {
        return None;
    }
    text.parse::<u64>().ok()
}

/// The ask that words tell.
fn told_ask(words: AskWords<'_>) -> Option<Ask>
    ensures some { IfSome result (SayAsk words.entry) }
    ensures none { IfNone result ((ask : Ask) → SayAsk words.entry ask → ⊥) }
{
    let kind = Kind::from_number(number(words.kind)?)?;
    let now = number(words.now)?;
    let client = number(words.client)?;
    let owner = number(words.owner)?;
    let scope = number(words.scope)?;
    let life = u32::try_from(number(words.life)?).ok()?;
    Some(Ask {
        kind,
        now,
        client,
        owner,
        asked: scope,
        scope,
        life,
        allowed: scope,
        consented: scope,
        access_limit: life,
        refresh_limit: life,
    })
}

/// The record of an ask, in the version of a layout, as hex.
fn hex_of(alloc: Global, layout: Layout, ask: &Ask) -> Result<String, AllocError>
    ensures { IfOk result (λ hex. string_bytes hex ≡ record_hex layout ask.entry.now) }
{
    match layout {
        Layout::V1 => hex::encode(alloc, write(ask)),
        Layout::V2 => hex::encode(alloc, write_v2(ask)),
    }
}

/// The hex of the record of the ask that words tell, in one version.
pub fn asked(alloc: Global, layout: Layout, words: AskWords<'_>) -> HookResult<'static>
    ensures { IsAskedAs layout words.entry result }
{
    let Some(ask) = told_ask(words) else {
        return Err(HookCommandFault::BadArguments);
    };
    let hex = hex_of(alloc, layout, &ask)?;
    Ok(HookAnswer::Code(hex))
}
