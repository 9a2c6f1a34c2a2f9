//! The fourth pass over a file that is shortened, backwards: whether each of its changes stays.

ghost use Rattle.std.specs.Prelude.{◌≡◌, ◌≢◌, ◌++◌, ◌∷◌, [], ℕ, List, IfOk, IfErr, IfSome, IsTrue, OnOk};
ghost use Rattle.batch_file.specs.Frames.{IsOnDisk};
ghost use Rattle.change_codec.specs.declared.keeper.ShortenFault.TheVariants.{Failed};
ghost use Rattle.change_codec.specs.Spelling.{dated_facts};
ghost use Rattle.consent.specs.History.{Event};
ghost use Rattle.shortening.specs.Steps.{IsDeciding};
ghost use Rattle.state_keeper.specs.Passing.{KeepsFile, StepsOn, hand};
ghost use Rattle.state_keeper.specs.declared.course.Stage.TheVariants as stage;

use crate::course::{Course, Draft, HEADER, Stage, changes_told, frame_at};
use batch_file::appending::BatchFile;
use batch_file::device::Device;
use change_codec::{Batch, DatedChange, ShortenFault};
use shortening::Deciding;
use std::alloc::AllocError;

/// Decides of each of the changes, which stand before the others.
fn decide_changes(deciding: &mut Deciding, changes: &[DatedChange<'_>]) -> Result<(), AllocError>
    ensures { OnOk result ((history later : List Event) (m : ℕ) → IsDeciding deciding.old history m later →
        IsDeciding deciding.new history m (dated_facts changes.now ++ later)) }
{
    let mut at = changes.len();
    while at > 0 {
        at -= 1;
        deciding.decide(&changes[at])?;
    }
    Ok(())
}

/// Whether no frame is left.
fn has_none(starts: &[usize]) -> bool
    ensures { IsTrue result → starts.now ≡ [] }
{
    starts.is_empty()
}

/// Where the last frame begins that is left.
fn pop_start(starts: &mut Vec<usize>) -> Option<usize>
    ensures { IfSome result (λ start. starts.new.items ++ start ∷ [] ≡ starts.old.items) }
{
    starts.pop()
}

/// Goes over the frame before the last one that was gone over. Before the first one what stays is to be written, behind the
/// rules.
pub(crate) fn decide<D: Device>(
    course: &mut Course,
    mut deciding: Deciding,
    file: &mut BatchFile<D>,
    rules: &[u8],
) -> Result<Stage, ShortenFault>
    requires { IsOnDisk D.seen D.may_leave D.faults file.old }
    ensures file { KeepsFile D.Device file.old file.new }
    ensures on { IfOk result (λ new.
        StepsOn D.Device rules.now (hand file.old course.old (stage.Deciding deciding)) (hand file.new course.new new)) }
    ensures refused { IfErr result (λ fault. fault ≢ Failed) }
{
    if has_none(&course.starts) {
        course.at = HEADER;
        let draft = Draft::begin(file, rules)?;
        let batch = Batch::new(course.alloc)?;
        return Ok(Stage::Leaving(deciding.leaving(), batch, draft));
    }
    let Some(start) = pop_start(&mut course.starts) else {
        return Err(ShortenFault::Unwritten);
    };
    let frame = frame_at(file, course.alloc, start, course.at)?;
    let changes = changes_told(course.alloc, &frame.bytes)?;
    decide_changes(&mut deciding, &changes)?;
    course.at = start;
    Ok(Stage::Deciding(deciding))
}
