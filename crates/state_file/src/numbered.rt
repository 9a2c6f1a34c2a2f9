//! The last moment and the greatest number of a family that a list tells.

ghost use Rattle.std.specs.Prelude.{◌≡◌};
ghost use Rattle.change_codec.specs.Spelling.{dated_fact, dated_facts};
ghost use Rattle.state_file.specs.Renewing.{number_told};

use change_codec::DatedChange;
use shortening::LastTold;

/// What is told behind what is left of the changes: the greatest number of a family, at the last moment.
pub(crate) fn numbered_of(changes: &[DatedChange<'_>]) -> DatedChange<'static>
    ensures { dated_fact result ≡ number_told (dated_facts changes.now) }
{
    LastTold::of(changes).numbered()
}
