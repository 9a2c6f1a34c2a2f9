//! What a hook's answer leaves of a grant.

ghost use Rattle.std.specs.Prelude.{◌≡◌, ℕ, List};
ghost use Rattle.hook_record.specs.Narrowing.{met, narrowed, IsNarrowing};

use crate::encoding::{LIFE_OFFSET, SCOPE_OFFSET};
use crate::numbers::{u32_at, u64_at};
use crate::{Ask, Narrowed};

/// What is left of a grant where a scope mask and a lifetime are allowed: the scopes of both, and the lesser lifetime.
pub fn meet(ask: &Ask, scope: u64, life: u32) -> Narrowed
    ensures { result ≡ met ask.entry.now scope life }
{
    let scope = ask.scope & scope;
    let life = ask.life.min(life);
    if scope == 0 {
        Narrowed::EmptyScope
    } else if life == 0 {
        Narrowed::Denied
    } else {
        Narrowed::Allowed { scope, life }
    }
}

/// What a hook leaves of a grant, by what it ended with in R0 and the first 64 bytes of its record, of either version.
pub fn narrow(ask: &Ask, r0: u64, bytes: &[u8; 64]) -> Narrowed
    ensures { result ≡ narrowed ask.entry.now r0 bytes.now }
{
    if r0 != 1 {
        return Narrowed::Denied;
    }
    meet(ask, u64_at(bytes, SCOPE_OFFSET), u32_at(bytes, LIFE_OFFSET))
}

/// Whatever is allowed, a grant has at most the scopes and the lifetime that were asked, and some of both.
pub fn narrowing_never_widens()
    ensures met { (ask : Ask) (s l scope life : ℕ) →
        met ask s l ≡ Narrowed.Allowed scope life → IsNarrowing ask scope life }
    ensures narrowed { (ask : Ask) (r0 : ℕ) (bytes : List ℕ) (scope life : ℕ) →
        narrowed ask r0 bytes ≡ Narrowed.Allowed scope life → IsNarrowing ask scope life }
{}
