//! Names of hooks.

ghost use Rattle.std.specs.Prelude.{◌↔◌, IsTrue};
ghost use Rattle.hook_host.specs.Names.{IsHookName, IsNameByte};

/// Of how many bytes a hook's name is at most.
const NAME_LIMIT: usize = 32;

/// Whether a name may be a hook's: 1 to 32 of `a-z`, `0-9` and `-`.
pub(crate) fn is_hook_name(name: &str) -> bool
    ensures { IsTrue result ↔ IsHookName name.now }
{
    (1..=NAME_LIMIT).contains(&name.len()) && name.as_bytes().iter().all(|&b| is_name_byte(b))
}

fn is_name_byte(b: u8) -> bool
    ensures { IsTrue result ↔ IsNameByte b }
{
    matches!(b, b'a'..=b'z' | b'0'..=b'9' | b'-')
}
