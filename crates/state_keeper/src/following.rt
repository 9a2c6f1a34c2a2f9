//! The last pass over a file that is shortened: what was added to it since is written as it is.

ghost use Rattle.std.specs.Prelude.{◌≢◌, ℕ, List, IfOk, IfErr};
ghost use Rattle.batch_file.specs.Frames.{IsOnDisk};
ghost use Rattle.change_codec.specs.declared.keeper.ShortenFault.TheVariants.{Failed};
ghost use Rattle.state_keeper.specs.Passing.{KeepsFile, StepsOn, hand};
ghost use Rattle.state_keeper.specs.declared.course.Stage.TheVariants as stage;

use crate::course::{Course, Draft, Stage, frame_at};
use batch_file::appending::BatchFile;
use batch_file::device::Device;
use change_codec::ShortenFault;

/// Writes a frame more.
pub(crate) fn follow<D: Device>(
    course: &mut Course,
    mut draft: Draft,
    file: &mut BatchFile<D>,
) -> Result<Stage, ShortenFault>
    requires { IsOnDisk D.seen D.may_leave D.faults file.old }
    ensures file { KeepsFile D.Device file.old file.new }
    ensures on { IfOk result (λ new. (rules : List ℕ) →
        StepsOn D.Device rules (hand file.old course.old (stage.Following draft)) (hand file.new course.new new)) }
    ensures refused { IfErr result (λ fault. fault ≢ Failed) }
{
    let end = file.end;
    let frame = frame_at(file, course.alloc, course.at, end)?;
    draft.add(file, &frame.bytes)?;
    course.at = frame.end;
    Ok(Stage::Following(draft))
}
