//! The first pass over a file that is shortened: where its frames begin, and the last moment and the greatest number of a family.

ghost use Rattle.std.specs.Prelude.{◌≡◌, ◌≢◌, ◌++◌, ◌∷◌, [], ℕ, List, IfOk, IfErr, OnOk};
ghost use Rattle.batch_file.specs.Frames.{IsOnDisk};
ghost use Rattle.change_codec.specs.declared.keeper.ShortenFault.TheVariants.{Failed};
ghost use Rattle.change_codec.specs.Spelling.{dated_facts};
ghost use Rattle.consent.specs.History.{Event};
ghost use Rattle.shortening.specs.Steps.{TellsLast};
ghost use Rattle.state_keeper.specs.Passing.{KeepsFile, StepsOn, hand};
ghost use Rattle.state_keeper.specs.declared.course.Stage.TheVariants as stage;

use crate::course::{Course, HEADER, Stage, changes_told, frame_at};
use batch_file::appending::BatchFile;
use batch_file::device::Device;
use change_codec::{DatedChange, ShortenFault};
use shortening::{LastTold, Unexpired};

/// Notes the changes, which stand behind the others.
fn tell_last(last: &mut LastTold, changes: &[DatedChange<'_>])
    ensures { (events : List Event) → TellsLast last.old events → TellsLast last.new (events ++ dated_facts changes.now) }
{
    for dated in changes {
        last.note(dated);
    }
}

/// One more begins there.
fn push_start(starts: &mut Vec<usize>, at: usize) -> Result<(), ShortenFault>
    ensures pushed { OnOk result (starts.new.items ≡ starts.old.items ++ at ∷ []) }
    ensures refused { IfErr result (λ fault. fault ≢ Failed) }
{
    match starts.push(at) {
        Ok(()) => Ok(()),
        Err(_) => Err(ShortenFault::Memory),
    }
}

/// Goes over a frame more.
pub(crate) fn count<D: Device>(
    course: &mut Course,
    file: &mut BatchFile<D>,
) -> Result<Stage, ShortenFault>
    requires { IsOnDisk D.seen D.may_leave D.faults file.old }
    ensures file { KeepsFile D.Device file.old file.new }
    ensures on { IfOk result (λ new. (rules : List ℕ) →
        StepsOn D.Device rules (hand file.old course.old stage.Counting) (hand file.new course.new new)) }
    ensures refused { IfErr result (λ fault. fault ≢ Failed) }
{
    if course.at == course.front_end {
        course.at = HEADER;
        let unexpired = Unexpired::new(course.alloc);
        return Ok(Stage::Noting(unexpired));
    }
    let frame = frame_at(file, course.alloc, course.at, course.front_end)?;
    let changes = changes_told(course.alloc, &frame.bytes)?;
    tell_last(&mut course.last, &changes);
    push_start(&mut course.starts, course.at)?;
    course.at = frame.end;
    Ok(Stage::Counting)
}
