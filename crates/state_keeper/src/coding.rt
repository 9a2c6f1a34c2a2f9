//! The third pass over a file that is shortened: the scopes of its codes.

ghost use Rattle.std.specs.Prelude.{◌≢◌, ◌++◌, ℕ, List, IfOk, IfErr, OnOk};
ghost use Rattle.batch_file.specs.Frames.{IsOnDisk};
ghost use Rattle.change_codec.specs.declared.keeper.ShortenFault.TheVariants.{Failed};
ghost use Rattle.change_codec.specs.Spelling.{dated_facts};
ghost use Rattle.consent.specs.History.{Event};
ghost use Rattle.shortening.specs.Steps.{IsListing};
ghost use Rattle.state_keeper.specs.Passing.{KeepsFile, StepsOn, hand};
ghost use Rattle.state_keeper.specs.declared.course.Stage.TheVariants as stage;

use crate::course::{Course, Stage, changes_told, frame_at};
use batch_file::appending::BatchFile;
use batch_file::device::Device;
use change_codec::{DatedChange, ShortenFault};
use shortening::{Deciding, Listing};
use std::alloc::AllocError;

/// Lists the scopes of the changes, which stand behind the others.
fn list_changes(listing: &mut Listing, changes: &[DatedChange<'_>]) -> Result<(), AllocError>
    ensures { OnOk result ((history events : List Event) (m : ℕ) → IsListing listing.old history m events →
        IsListing listing.new history m (events ++ dated_facts changes.now)) }
{
    for dated in changes {
        listing.list(dated)?;
    }
    Ok(())
}

/// Goes over a frame more. Behind the last one what is decided begins there.
pub(crate) fn list<D: Device>(
    course: &mut Course,
    mut listing: Listing,
    file: &mut BatchFile<D>,
) -> Result<Stage, ShortenFault>
    requires { IsOnDisk D.seen D.may_leave D.faults file.old }
    ensures file { KeepsFile D.Device file.old file.new }
    ensures on { IfOk result (λ new. (rules : List ℕ) →
        StepsOn D.Device rules (hand file.old course.old (stage.Listing listing)) (hand file.new course.new new)) }
    ensures refused { IfErr result (λ fault. fault ≢ Failed) }
{
    if course.at == course.front_end {
        let deciding = Deciding::of(course.alloc, listing.known(), course.last.moment);
        return Ok(Stage::Deciding(deciding));
    }
    let frame = frame_at(file, course.alloc, course.at, course.front_end)?;
    let changes = changes_told(course.alloc, &frame.bytes)?;
    list_changes(&mut listing, &changes)?;
    course.at = frame.end;
    Ok(Stage::Listing(listing))
}
