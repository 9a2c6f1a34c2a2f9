//! The path and the query of a target.
ghost use Rattle.std.specs.Prelude.{◌≡◌};
ghost use Rattle.messages.specs.Target.{path_of, query_of};

use crate::parts::{before, behind};

pub(crate) fn path(target: &[u8]) -> &[u8]
    ensures { result.now ≡ path_of target.now }
{
    before(target, b'?')
}

pub(crate) fn query(target: &[u8]) -> &[u8]
    ensures { result.now ≡ query_of target.now }
{
    behind(target, b'?')
}
