//! The operator's requests.
ghost use Rattle.std.specs.Prelude.{◌≡◌, IfOk, codes};
ghost use Rattle.params.specs.Form.{value_sent};
ghost use Rattle.consent.specs.History.{Change};
ghost use Rattle.answers.specs.Setting.{Setting};
ghost use Rattle.answers.specs.Short.{IsShortAnswer};
ghost use Rattle.endpoints.specs.HookAsking.{IsAskedFor};
ghost use Rattle.endpoints.specs.HookPaths.{hook_gone, hook_set_by, version_asked};
ghost use Rattle.endpoints.specs.RulingParts.{IsHookRefused, RulesHooks};

use crate::redo::layout_of;
use crate::ruling::{Checked, Ruling};
use answers::{Answer, Decision, Halt};
use consent::{Change, Changes, RecordVersion};
use hook_host::{HookFault, HookHost};
use messages::ErrorName;
use params::Params;

// A hook to be installed: its name, and the version of the record that it reads.
#[derive(Clone, Copy)]
struct HookAsked<'a> {
    name: &'a str,
    version: RecordVersion,
}

// The version of the record that the hook reads.
fn version_asked(params: &Params<'_>) -> Option<RecordVersion>
    ensures { result ≡ version_asked (value_sent (codes "record") params.now) }
{
    match params.get("record") {
        None | Some("1") => Some(RecordVersion::First),
        Some("2") => Some(RecordVersion::Second),
        Some(_) => None,
    }
}

// The hook that the parameters ask for.
fn hook_asked<'p>(params: &'p Params<'_>) -> Option<HookAsked<'p>>
    ensures { IsAskedFor params.now result }
{
    let name = params.get("name")?;
    let version = version_asked(params)?;
    Some(HookAsked { name, version })
}

// The host has that fault, with which nothing happens.
fn refused<'c, H>(fault: HookFault) -> Result<Ruling<'c, H>, Halt>
    ensures refused { IsHookRefused fault result }
    ensures short { IfOk result (λ ruling. IsShortAnswer ruling.decision.answer) }
{
    if fault == HookFault::Memory {
        return Err(Halt::NoMemory);
    }
    Ok(Ruling {
        decision: Decision {
            answer: Answer::HookRefused(fault),
            changes: Changes::Nothing,
        },
        checked: Checked::NoHook,
    })
}

/// Decides on the hook that the query names, with this code.
pub(crate) fn install<'c, H: HookHost>(
    host: &H,
    code: &'c [u8],
    params: &'c Params<'_>,
) -> Result<Ruling<'c, H>, Halt>
    ensures rules { (s : Setting) → RulesHooks H.HookHost host.now s (hook_set_by params.now code.now) result }
    ensures short { IfOk result (λ ruling. IsShortAnswer ruling.decision.answer) }
{
    let Some(asked) = hook_asked(params) else {
        return Err(Halt::Refuse(ErrorName::InvalidRequest));
    };
    match host.check(asked.name, layout_of(asked.version), code) {
        Ok(checked) => Ok(Ruling {
            decision: Decision {
                answer: Answer::HookDone { name: asked.name },
                changes: Changes::One(Change::HookSet {
                    name: asked.name,
                    version: asked.version,
                    code,
                }),
            },
            checked: Checked::Installs(checked),
        }),
        Err(fault) => refused(fault),
    }
}

/// Decides on the removal of the hook that the form names.
pub(crate) fn remove<'c, H: HookHost>(
    host: &H,
    params: &'c Params<'_>,
) -> Result<Ruling<'c, H>, Halt>
    ensures rules { (s : Setting) → RulesHooks H.HookHost host.now s (hook_gone params.now) result }
    ensures short { IfOk result (λ ruling. IsShortAnswer ruling.decision.answer) }
{
    let Some(name) = params.get("name") else {
        return Err(Halt::Refuse(ErrorName::InvalidRequest));
    };
    match host.check_removal(name) {
        Ok(()) => Ok(Ruling {
            decision: Decision {
                answer: Answer::HookDone { name },
                changes: Changes::One(Change::HookGone { name }),
            },
            checked: Checked::Removes,
        }),
        Err(fault) => refused(fault),
    }
}
