//! How many hooks a host has.

ghost use Rattle.std.specs.Prelude.{◌≡◌, length};

use crate::HookHost;

/// How many hooks a host has.
pub fn hook_count<H: HookHost>(host: &H) -> usize
    ensures { result ≡ length (H.names host.now) }
{
    let mut count = 0;
    while let Some(_name) = host.name_at(count) {
        count += 1;
    }
    count
}
