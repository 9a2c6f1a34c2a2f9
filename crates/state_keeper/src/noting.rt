//! The second pass over a file that is shortened: what is unexpired at its last moment.

ghost use Rattle.std.specs.Prelude.{◌≢◌, ◌++◌, ℕ, List, IfOk, IfErr, OnOk};
ghost use Rattle.batch_file.specs.Frames.{IsOnDisk};
ghost use Rattle.change_codec.specs.declared.keeper.ShortenFault.TheVariants.{Failed};
ghost use Rattle.change_codec.specs.Spelling.{dated_facts};
ghost use Rattle.consent.specs.History.{Event};
ghost use Rattle.shortening.specs.Known.{NotesUnexpired};
ghost use Rattle.state_keeper.specs.Passing.{KeepsFile, StepsOn, hand};
ghost use Rattle.state_keeper.specs.declared.course.Stage.TheVariants as stage;

use crate::course::{Course, HEADER, Stage, changes_told, frame_at};
use batch_file::appending::BatchFile;
use batch_file::device::Device;
use change_codec::{DatedChange, ShortenFault};
use consent::Moment;
use shortening::{Listing, Unexpired};
use std::alloc::AllocError;

/// Notes what the changes give, which stand behind the others, and is unexpired at the moment.
fn note_changes(
    unexpired: &mut Unexpired,
    changes: &[DatedChange<'_>],
    moment: Moment,
) -> Result<(), AllocError>
    ensures { OnOk result ((events : List Event) → NotesUnexpired unexpired.old events moment →
        NotesUnexpired unexpired.new (events ++ dated_facts changes.now) moment) }
{
    for dated in changes {
        unexpired.note(dated, moment)?;
    }
    Ok(())
}

/// Goes over a frame more.
pub(crate) fn note<D: Device>(
    course: &mut Course,
    mut unexpired: Unexpired,
    file: &mut BatchFile<D>,
) -> Result<Stage, ShortenFault>
    requires { IsOnDisk D.seen D.may_leave D.faults file.old }
    ensures file { KeepsFile D.Device file.old file.new }
    ensures on { IfOk result (λ new. (rules : List ℕ) →
        StepsOn D.Device rules (hand file.old course.old (stage.Noting unexpired)) (hand file.new course.new new)) }
    ensures refused { IfErr result (λ fault. fault ≢ Failed) }
{
    if course.at == course.front_end {
        course.at = HEADER;
        let listing = Listing::of(course.alloc, unexpired);
        return Ok(Stage::Listing(listing));
    }
    let frame = frame_at(file, course.alloc, course.at, course.front_end)?;
    let changes = changes_told(course.alloc, &frame.bytes)?;
    note_changes(&mut unexpired, &changes, course.last.moment)?;
    course.at = frame.end;
    Ok(Stage::Noting(unexpired))
}
