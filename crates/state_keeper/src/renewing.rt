//! What is left of a list in the place of all that a state file has, a slice at a time.

ghost use Rattle.std.specs.Prelude.{◌≡◌, ◌≢◌, IfOk, IfErr, OnOk};
ghost use Rattle.change_codec.specs.declared.keeper.Length.TheVariants.{Short, Long};
ghost use Rattle.change_codec.specs.declared.keeper.ShortenFault.TheVariants.{Failed};
ghost use Rattle.batch_file.specs.Frames.{IsOnDisk};
ghost use Rattle.state_file.specs.Knowing.{IsLong};
ghost use Rattle.state_keeper.specs.Passing.{IsDownIn, IsOnTheWay, IsReady, KeepsFile, written_in};
ghost use Rattle.state_keeper.specs.Slicing.{GivesUp, GoesOver, Puts, Slices, SlicesNot, Waits, is_portion};
ghost use Rattle.state_keeper.specs.declared.renewing.Came.TheVariants.{Refused};

use crate::course::{Stage, refusal};
use crate::keeper::StateKeeper;
use crate::passing::{Shortening, Step, begin, go_on, place};
use batch_file::appending::{BatchFault, BatchFile, RenewFault};
use batch_file::device::Device;
use change_codec::{Length, ShortenFault};
use state_file::is_short;

/// So many bytes beside the file are waited for at once.
const PORTION: usize = 1 << 20;

/// How many bytes of frames stand beside the file.
fn written(stage: &Stage) -> usize
    ensures { result ≡ written_in stage.now }
{
    match stage {
        Stage::Leaving(_, _, draft) | Stage::Following(draft) => draft.next.end,
        _ => 0,
    }
}

/// Whether a portion more was begun than when so many bytes were written.
fn is_portion(before: usize, written: usize) -> bool
    ensures { result ≡ is_portion before written }
{
    before / PORTION < written / PORTION
}

/// Whether batches that take so many bytes are long, beside what was left when they were shortened.
fn length_of(end: usize, shortened: usize) -> Length
    ensures short { result ≡ Short → ¬ (IsLong end shortened) }
    ensures long { result ≡ Long → IsLong end shortened }
{
    if is_short(end, shortened) {
        Length::Short
    } else {
        Length::Long
    }
}

/// What comes of a slice.
#[derive(Clone, Copy)]
enum Came {
    /// More is to be gone over.
    On,
    /// What is left stands in the file's place, with so many bytes of frames.
    Placed(usize),
    /// The file stands as it was, and none beside it.
    Refused(ShortenFault),
    /// It is not known which of the two stands, or the file was moved.
    Broken(BatchFault),
}

/// Waits until what was written so far is on the disk, so that there is little to wait for at the end.
fn put_down<D: Device>(stage: &Stage, file: &mut BatchFile<D>) -> Result<(), ShortenFault>
    requires { IsOnDisk D.seen D.may_leave D.faults file.old }
    ensures file { KeepsFile D.Device file.old file.new }
    ensures next { OnOk result (D.next file.new.device ≡ D.next file.old.device) }
    ensures down { OnOk result (IsDownIn D.Device file.new stage.now) }
    ensures refused { IfErr result (λ fault. fault ≢ Failed) }
{
    match stage {
        Stage::Leaving(..) | Stage::Following(_) => match file.device.sync_next() {
            Ok(()) => Ok(()),
            Err(fault) => Err(refusal(fault)),
        },
        _ => Ok(()),
    }
}

/// What was written beside the file is removed.
fn give_up<D: Device>(file: &mut BatchFile<D>, fault: ShortenFault) -> Came
    requires { IsOnDisk D.seen D.may_leave D.faults file.old }
    ensures is { result ≡ Refused fault }
    ensures gives_up { GivesUp D.Device file.old file.new }
{
    file.device.drop_next();
    Came::Refused(fault)
}

/// More is to be gone over: waits for what was written so far.
fn wait<D: Device>(stage: &Stage, file: &mut BatchFile<D>) -> Came
    requires { IsOnDisk D.seen D.may_leave D.faults file.old }
    ensures { Waits D.Device file.old stage.now file.new result }
{
    match put_down(stage, file) {
        Ok(()) => Came::On,
        Err(fault) => give_up(file, fault),
    }
}

/// Puts what was written in the place of the file.
fn put<D: Device>(shortening: &Shortening, file: &mut BatchFile<D>) -> Came
    requires on_disk { IsOnDisk D.seen D.may_leave D.faults file.old }
    requires ready { IsReady D.Device file.old shortening.now }
    ensures { Puts D.Device file.old shortening.now file.new result }
{
    match place(shortening, file) {
        Ok(()) => Came::Placed(shortening.shortened),
        Err(RenewFault::Memory) => give_up(file, ShortenFault::Memory),
        Err(RenewFault::Unplaced(_)) => give_up(file, ShortenFault::Unwritten),
        Err(RenewFault::Displaced) => Came::Broken(BatchFault::Displaced),
        Err(RenewFault::Failed(reason)) => Came::Broken(BatchFault::Failed(reason)),
    }
}

/// Goes over a slice, waits behind each portion until what was written is on the disk, and puts what was written in the place of the file once that is all.
fn go_over<D: Device>(shortening: &mut Shortening, file: &mut BatchFile<D>, rules: &[u8]) -> Came
    requires on_disk { IsOnDisk D.seen D.may_leave D.faults file.old }
    requires begun { IsOnTheWay D.Device file.old rules.now shortening.old }
    ensures { GoesOver D.Device file.old rules.now shortening.old file.new shortening.new result }
{
    let before = written(&shortening.stage);
    match go_on(shortening, file, rules) {
        Ok(Step::On) => {
            if is_portion(before, written(&shortening.stage)) {
                wait(&shortening.stage, file)
            } else {
                Came::On
            }
        }
        Ok(Step::Ready) => put(shortening, file),
        Err(fault) => give_up(file, fault),
    }
}

impl<D: Device> StateKeeper<D> {
    /// Where the file is longer than 1 MB, and than four times what was left when it was shortened, a shortening begins, or goes on
    /// by a slice; at its end what is left of the file's list takes the place of what the file had when it began. Where it is not
    /// known whether it stands there, or the file was moved, the keeper keeps nothing more; where it is refused else, it is given up, and
    /// nothing of it stays beside the file.
    pub(crate) fn shorten_slice(&mut self) -> Result<Length, ShortenFault>
        ensures slices { IfOk result (Slices D.Device self.old self.new) }
        ensures refused { IfErr result (SlicesNot D.Device self.old self.new) }
        ensures until { self.new.known.until ≡ self.old.known.until }
    {
        if self.fault.is_some() {
            return Err(ShortenFault::Failed);
        }
        if is_short(self.file.end, self.known.shortened) {
            return Ok(Length::Short);
        }
        let Some(shortening) = &mut self.shortening else {
            self.shortening = Some(begin(self.alloc, &self.file, &self.known));
            return Ok(Length::Long);
        };
        match go_over(shortening, &mut self.file, &self.known.rules) {
            Came::On => Ok(Length::Long),
            Came::Placed(size) => {
                self.shortening = None;
                self.known.shortened = size;
                Ok(length_of(self.file.end, size))
            }
            Came::Refused(fault) => {
                self.shortening = None;
                Err(fault)
            }
            Came::Broken(fault) => {
                self.shortening = None;
                self.fault = Some(fault);
                Err(ShortenFault::Failed)
            }
        }
    }
}
