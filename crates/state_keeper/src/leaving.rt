//! The fifth pass over a file that is shortened: what stays of its changes is written, and then the greatest number of a family and
//! the horizon.

ghost use Rattle.std.specs.Prelude.{◌≡◌, ◌≢◌, [], ℕ, List, IfOk, IfErr, OnOk};
ghost use Rattle.batch_file.specs.Frames.{IsOnDisk};
ghost use Rattle.change_codec.specs.declared.keeper.ShortenFault.TheVariants.{Failed};
ghost use Rattle.change_codec.specs.Spelling.{dated_facts};
ghost use Rattle.state_keeper.specs.Passing.{AreWritten, KeepsFile, StepsOn, hand};
ghost use Rattle.state_keeper.specs.PassingParts.{Finishes, GoesPast, LeadsTo, Stay, StaysLeft, WritesHorizon};
ghost use Rattle.state_keeper.specs.declared.course.Stage.TheVariants as stage;

use crate::course::{Course, Draft, Stage, changes_told, frame_at};
use batch_file::appending::BatchFile;
use batch_file::device::Device;
use change_codec::{Batch, DatedChange, ShortenFault};
use consent::Moment;
use shortening::Leaving;
use state_file::{gather_changes, horizon};
use std::alloc::{AllocError, Global};

/// What is gathered is written once it has as many bytes.
const ENOUGH: usize = 1 << 15;

/// Those of the changes that stay.
fn staying<'a>(
    alloc: Global,
    leaving: &mut Leaving,
    changes: &[DatedChange<'a>],
) -> Result<Vec<DatedChange<'a>>, AllocError>
    ensures picked { IfOk result (λ stay. Stay leaving.old (dated_facts changes.now) (dated_facts stay.items)) }
    ensures rest { OnOk result (GoesPast (dated_facts changes.now) leaving.old leaving.new) }
{
    let mut stay = Vec::new(alloc);
    let mut at = 0;
    while at < changes.len() {
        if leaving.next() {
            stay.extend_from_slice(&changes[at..at + 1])?;
        }
        at += 1;
    }
    Ok(stay)
}

/// Writes what is gathered, if that is anything.
fn put_out<D: Device>(
    draft: &mut Draft,
    file: &mut BatchFile<D>,
    batch: &mut Batch,
) -> Result<(), ShortenFault>
    requires { IsOnDisk D.seen D.may_leave D.faults file.old }
    ensures file { KeepsFile D.Device file.old file.new }
    ensures put { OnOk result (LeadsTo (AreWritten D.Device file.old draft.old) (AreWritten D.Device file.new draft.new)
        (StaysLeft batch.old.facts [] [])) }
    ensures none { OnOk result (batch.new.facts ≡ []) }
    ensures refused { IfErr result (λ fault. fault ≢ Failed) }
{
    if batch.is_empty() {
        return Ok(());
    }
    draft.add(file, batch.bytes())?;
    batch.clear();
    Ok(())
}

/// Gathers the changes, and then writes what is gathered if it is enough.
fn gather_some<D: Device>(
    draft: &mut Draft,
    file: &mut BatchFile<D>,
    batch: &mut Batch,
    changes: &[DatedChange<'_>],
) -> Result<(), ShortenFault>
    requires { IsOnDisk D.seen D.may_leave D.faults file.old }
    ensures file { KeepsFile D.Device file.old file.new }
    ensures gathered { OnOk result (LeadsTo (AreWritten D.Device file.old draft.old) (AreWritten D.Device file.new draft.new)
        (StaysLeft batch.old.facts (dated_facts changes.now) batch.new.facts)) }
    ensures refused { IfErr result (λ fault. fault ≢ Failed) }
{
    gather_changes(batch, changes)?;
    if batch.bytes().len() < ENOUGH {
        return Ok(());
    }
    put_out(draft, file, batch)
}

/// Gathers the changes one by one, so that no more than enough is written at once.
fn gather<D: Device>(
    draft: &mut Draft,
    file: &mut BatchFile<D>,
    batch: &mut Batch,
    changes: &[DatedChange<'_>],
) -> Result<(), ShortenFault>
    requires { IsOnDisk D.seen D.may_leave D.faults file.old }
    ensures file { KeepsFile D.Device file.old file.new }
    ensures gathered { OnOk result (LeadsTo (AreWritten D.Device file.old draft.old) (AreWritten D.Device file.new draft.new)
        (StaysLeft batch.old.facts (dated_facts changes.now) batch.new.facts)) }
    ensures refused { IfErr result (λ fault. fault ≢ Failed) }
{
    let mut at = 0;
    while at < changes.len() {
        gather_some(draft, file, batch, &changes[at..at + 1])?;
        at += 1;
    }
    Ok(())
}

/// Writes the horizon of a moment, if that is any.
fn put_horizon<D: Device>(
    draft: &mut Draft,
    file: &mut BatchFile<D>,
    until: Moment,
) -> Result<(), ShortenFault>
    requires { IsOnDisk D.seen D.may_leave D.faults file.old }
    ensures file { KeepsFile D.Device file.old file.new }
    ensures put { OnOk result (LeadsTo (AreWritten D.Device file.old draft.old) (AreWritten D.Device file.new draft.new)
        (WritesHorizon until)) }
    ensures refused { IfErr result (λ fault. fault ≢ Failed) }
{
    if until.get() == 0 {
        return Ok(());
    }
    draft.add(file, &horizon(until))
}

/// All that stays is gathered: it is written, with the number and the horizon behind it.
fn finish<D: Device>(
    course: &Course,
    mut batch: Batch,
    mut draft: Draft,
    file: &mut BatchFile<D>,
) -> Result<Draft, ShortenFault>
    requires { IsOnDisk D.seen D.may_leave D.faults file.old }
    ensures file { KeepsFile D.Device file.old file.new }
    ensures finished { IfOk result (λ new. LeadsTo (AreWritten D.Device file.old draft) (AreWritten D.Device file.new new)
        (Finishes course.now batch.facts)) }
    ensures refused { IfErr result (λ fault. fault ≢ Failed) }
{
    put_out(&mut draft, file, &mut batch)?;
    let number = course.last.numbered();
    gather_some(&mut draft, file, &mut batch, &[number])?;
    put_out(&mut draft, file, &mut batch)?;
    put_horizon(&mut draft, file, course.until)?;
    Ok(draft)
}

/// Goes over a frame more.
pub(crate) fn leave<D: Device>(
    course: &mut Course,
    mut leaving: Leaving,
    mut batch: Batch,
    mut draft: Draft,
    file: &mut BatchFile<D>,
) -> Result<Stage, ShortenFault>
    requires { IsOnDisk D.seen D.may_leave D.faults file.old }
    ensures file { KeepsFile D.Device file.old file.new }
    ensures on { IfOk result (λ new. (rules : List ℕ) → StepsOn D.Device rules
        (hand file.old course.old (stage.Leaving leaving batch draft)) (hand file.new course.new new)) }
    ensures refused { IfErr result (λ fault. fault ≢ Failed) }
{
    if course.at == course.front_end {
        let done = finish(course, batch, draft, file)?;
        return Ok(Stage::Following(done));
    }
    let frame = frame_at(file, course.alloc, course.at, course.front_end)?;
    let changes = changes_told(course.alloc, &frame.bytes)?;
    let stay = staying(course.alloc, &mut leaving, &changes)?;
    gather(&mut draft, file, &mut batch, &stay)?;
    course.at = frame.end;
    Ok(Stage::Leaving(leaving, batch, draft))
}
