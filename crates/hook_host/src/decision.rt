//! What a host's answer leaves of a grant.

ghost use Rattle.std.specs.Prelude.{◌≡◌, ℕ};
ghost use Rattle.hook_record.specs.Narrowing.{IsNarrowing};
ghost use Rattle.hook_host.specs.Decisions.{met_with};

use crate::HookHost;
use hook_record::{Ask, Narrowed, meet};

/// What a host leaves of a grant: its answer, met with the ask.
pub fn decided<H: HookHost>(host: &H, ask: &Ask) -> Narrowed
    ensures { result ≡ met_with ask.entry.now (H.answer host.now ask.entry.now) }
{
    match host.decide(ask) {
        Narrowed::Allowed { scope, life } => meet(ask, scope, life),
        Narrowed::Denied => Narrowed::Denied,
        Narrowed::EmptyScope => Narrowed::EmptyScope,
    }
}

/// Whatever a host answers, a grant has at most the scopes and the lifetime that were asked, and some of both.
#[tactic(auto, using(crate::specs::DecisionLaws::met_with_narrows))]
pub fn no_answer_widens()
    ensures { (ask : Ask) (answer : Narrowed) (scope life : ℕ) →
        met_with ask answer ≡ Narrowed.Allowed scope life → IsNarrowing ask scope life }
{}
