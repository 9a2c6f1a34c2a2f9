//! What happens is noted, for whoever keeps it.
ghost use Rattle.std.specs.Prelude.{◌≡◌, OnErr, OnOk};
ghost use Rattle.consent.specs.declared.change.Changes.{Changes};
ghost use Rattle.endpoints.specs.Noting.{NotesPrepared, ArePrepared, IsNothingPrepared, noted_in, prepared_in};

use change_codec::Batch;
use consent::{Changes, Moment};
use std::alloc::AllocError;

/// Makes the changes ready to be noted at the moment, where anything is noted. Where that fails, nothing is ready.
pub(crate) fn prepare(
    unkept: &mut Option<Batch>,
    moment: Moment,
    changes: &Changes<'_>,
) -> Result<(), AllocError>
    ensures same { noted_in unkept.new ≡ noted_in unkept.old }
    ensures prepared { OnOk result (ArePrepared (prepared_in unkept.new) moment changes.now) }
    ensures err { OnErr result (IsNothingPrepared (prepared_in unkept.new)) }
{
    match unkept {
        Some(batch) => batch.prepare(moment, changes),
        None => Ok(()),
    }
}

/// Notes the changes that are ready, where anything is noted.
pub(crate) fn note_prepared(unkept: &mut Option<Batch>)
    ensures { NotesPrepared unkept.old unkept.new }
{
    if let Some(batch) = unkept {
        batch.push();
    }
}
