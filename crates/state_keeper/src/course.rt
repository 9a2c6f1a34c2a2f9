//! A shortening that is on the way: what it has of the file that it goes over, and of the file that it writes.

ghost use Rattle.std.specs.Prelude.{◌≡◌, ◌≢◌, ◌≤◌, ◌+◌, ◌++◌, ◌∷◌, [], List, ℕ, length, IfOk, IfErr, OnOk};
ghost use Rattle.batch_file.specs.Frames.{IsOnDisk, recovered};
ghost use Rattle.change_codec.specs.declared.keeper.ShortenFault.TheVariants.{Failed};
ghost use Rattle.change_codec.specs.Spelling.{dated_facts};
ghost use Rattle.state_keeper.specs.Passing.{AreWritten, KeepsFile};
ghost use Rattle.state_keeper.specs.PassingParts.{IsFrameAt};
ghost use Rattle.state_file.specs.Standing.{AreTold};

use batch_file::appending::{BatchFile, RenewFault};
use batch_file::device::{Device, DeviceFault};
use batch_file::next::Next;
use change_codec::{Batch, DatedChange, ShortenFault};
use consent::Moment;
use shortening::{Deciding, LastTold, Leaving, Listing, Unexpired};
use state_file::{StateFault, changes_of, size_behind};
use std::alloc::Global;

/// So many bytes stand before the first frame of a file.
pub(crate) const HEADER: usize = 16;

/// What is written to the file that is to take the place of the one there.
#[derive(Drop)]
pub(crate) struct Draft {
    pub(crate) next: Next,
    /// How many bytes its frames have up to the last one that tells a number.
    pub(crate) shortened: usize,
}

/// What each stage goes over.
#[derive(Drop)]
pub(crate) struct Course {
    pub(crate) alloc: Global,
    /// Where the file ended when its shortening began.
    pub(crate) front_end: usize,
    /// Where the next frame to be gone over begins; backwards, where it ends.
    pub(crate) at: usize,
    /// Where each frame begins that was counted, and is not decided.
    pub(crate) starts: Vec<usize>,
    pub(crate) last: LastTold,
    /// The moment of the horizon of what the file had.
    pub(crate) until: Moment,
}

/// The passes, in their order.
#[derive(Drop)]
pub(crate) enum Stage {
    /// Where each frame begins, and the last moment and the greatest number of a family.
    Counting,
    /// What is unexpired at that moment.
    Noting(Unexpired),
    /// The scopes of codes.
    Listing(Listing),
    /// Whether each change stays, from the last one on.
    Deciding(Deciding),
    /// What stays is written, and is gathered before.
    Leaving(Leaving, Batch, Draft),
    /// What was added since is written as it is.
    Following(Draft),
}

/// A shortening that is on the way.
#[derive(Drop)]
pub(crate) struct Shortening {
    pub(crate) course: Course,
    pub(crate) stage: Stage,
    /// How many bytes of frames are left, once all is written.
    pub(crate) shortened: usize,
}

/// A batch, and where its frame ends.
#[derive(Drop)]
pub(crate) struct Frame {
    pub(crate) bytes: Vec<u8>,
    pub(crate) end: usize,
}

/// Why a file is not read, or what was written beside it is not known to be on the disk.
pub(crate) fn refusal(fault: DeviceFault) -> ShortenFault
    ensures { result ≢ Failed }
{
    match fault {
        DeviceFault::Memory => ShortenFault::Memory,
        DeviceFault::Failed(_) => ShortenFault::Unwritten,
    }
}

/// Why the file beside it is not written.
pub(crate) fn unwritten(fault: RenewFault) -> ShortenFault
    ensures { result ≢ Failed }
{
    match fault {
        RenewFault::Memory => ShortenFault::Memory,
        _ => ShortenFault::Unwritten,
    }
}

/// The dated changes of a batch.
pub(crate) fn changes_told(
    alloc: Global,
    batch: &[u8],
) -> Result<Vec<DatedChange<'_>>, ShortenFault>
    ensures told { IfOk result (λ list. AreTold (batch.now ∷ []) (dated_facts list.items)) }
    ensures refused { IfErr result (λ fault. fault ≢ Failed) }
{
    match changes_of(alloc, batch) {
        Ok(changes) => Ok(changes),
        Err(StateFault::Memory) => Err(ShortenFault::Memory),
        Err(_) => Err(ShortenFault::Unwritten),
    }
}

/// The frame that begins there, and ends no later than that.
pub(crate) fn frame_at<D: Device>(
    file: &mut BatchFile<D>,
    alloc: Global,
    at: usize,
    end: usize,
) -> Result<Frame, ShortenFault>
    requires { IsOnDisk D.seen D.may_leave D.faults file.old }
    ensures file { KeepsFile D.Device file.old file.new }
    ensures next { D.next file.new.device ≡ D.next file.old.device }
    ensures ends { IfOk result (λ frame. frame.end ≡ at + (21 + length frame.bytes.items)) }
    ensures within { IfOk result (λ frame. frame.end ≤ end) }
    ensures read { IfOk result (λ frame. D.reads_true file.new.device →
        IsFrameAt (recovered (D.seen file.old.device)) at frame.bytes.items) }
    ensures refused { IfErr result (λ fault. fault ≢ Failed) }
{
    let bytes = match file.read_batch(alloc, at) {
        Ok(bytes) => bytes,
        Err(fault) => return Err(refusal(fault)),
    };
    if at > end || end - at < 21 || end - at - 21 < bytes.len() {
        return Err(ShortenFault::Unwritten);
    }
    let end = at + 21 + bytes.len();
    Ok(Frame { bytes, end })
}

impl Draft {
    /// The rules alone.
    pub(crate) fn begin<D: Device>(
        file: &mut BatchFile<D>,
        rules: &[u8],
    ) -> Result<Draft, ShortenFault>
        requires { IsOnDisk D.seen D.may_leave D.faults file.old }
        ensures file { KeepsFile D.Device file.old file.new }
        ensures begun { IfOk result (λ draft. AreWritten D.Device file.new draft (rules.now ∷ [])) }
        ensures refused { IfErr result (λ fault. fault ≢ Failed) }
    {
        let next = match file.begin_next() {
            Ok(next) => next,
            Err(fault) => return Err(unwritten(fault)),
        };
        let mut draft = Draft { next, shortened: 0 };
        draft.add(file, rules)?;
        Ok(draft)
    }

    /// Writes a batch more.
    pub(crate) fn add<D: Device>(
        &mut self,
        file: &mut BatchFile<D>,
        batch: &[u8],
    ) -> Result<(), ShortenFault>
        requires { IsOnDisk D.seen D.may_leave D.faults file.old }
        ensures file { KeepsFile D.Device file.old file.new }
        ensures added { OnOk result ((batches : List (List ℕ)) → AreWritten D.Device file.old self.old batches →
            AreWritten D.Device file.new self.new (batches ++ batch.now ∷ [])) }
        ensures refused { IfErr result (λ fault. fault ≢ Failed) }
    {
        match file.add_to_next(&mut self.next, batch) {
            Ok(()) => {}
            Err(fault) => return Err(unwritten(fault)),
        }
        let size = self.next.end.saturating_sub(HEADER);
        self.shortened = size_behind(batch, size, self.shortened);
        Ok(())
    }
}
