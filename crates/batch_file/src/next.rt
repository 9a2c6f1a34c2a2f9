//! The batches of a file read one by one, and the next file, which is written beside it piece by piece and then takes its place.

ghost use Rattle.std.specs.Prelude.{◌≡◌, ◌<◌, ◌≤◌, ◌+◌, ◌++◌, [], ◌∷◌, true, false, IfOk, IfErr, OnOk, IsErrOf, List, ℕ, length, drop};
ghost use Rattle.batch_file.specs.Crashes.{LeavesOnly};
ghost use Rattle.batch_file.specs.Faults.{of_next};
ghost use Rattle.batch_file.specs.Frames.{frames_size, recovered, size_at, AreNext, IsOldOrNew, IsOnDisk, IsReadable, IsRenewFailure, IsUndisturbed, IsUnrenewed};

use crate::appending::{BatchFile, LIMIT, MAX_END, RenewFault};
use crate::device::{Device, DeviceFault};
use crate::framing::{HEADER, head_of};
use std::alloc::Global;
use system_faults::SystemFault;

impl From<DeviceFault> for RenewFault {
    ghost from_gives = { λ device fault. fault ≡ of_next device };

    fn from(device: DeviceFault) -> RenewFault {
        match device {
            DeviceFault::Memory => RenewFault::Memory,
            DeviceFault::Failed(reason) => RenewFault::Unplaced(reason),
        }
    }
}

/// The file ends before the place that was asked for.
const NOT_THERE: DeviceFault = DeviceFault::Failed(SystemFault::Other);

/// Where the next frame of a next file goes.
#[derive(Clone, Copy, Debug, PartialEq, Eq)]
pub struct Next {
    /// Behind so many bytes.
    pub end: usize,
    /// The digest of the last frame.
    pub last: [u8; 16],
}

impl<D: Device> BatchFile<D> {
    /// The batch whose frame begins at that place. Where it is not given, the file is as it was.
    pub fn read_batch(&mut self, alloc: Global, at: usize) -> Result<Vec<u8>, DeviceFault>
        requires { IsOnDisk D.seen D.may_leave D.faults self.old }
        ensures settled { IsOnDisk D.seen D.may_leave D.faults self.new }
        ensures same { IsUndisturbed D.seen D.moment D.left_since self.old self.new }
        ensures read { IfOk result (λ bytes. D.reads_true self.new.device → (before after : List (List ℕ)) (batch : List ℕ)
            → recovered (D.seen self.old.device) ≡ before ++ batch ∷ after → at ≡ 16 + frames_size before → bytes.items ≡ batch) }
        ensures next { D.next self.new.device ≡ D.next self.old.device }
        ensures truth { D.reads_true self.new.device → D.reads_true self.old.device }
        ensures true_before { LeavesOnly D.moment D.left_since self.old.device self.new.device (λ _. D.reads_true self.old.device) }
    {
        if self.end < 21 || at > self.end - 21 {
            return Err(NOT_THERE);
        }
        let head = self.device.read_at(alloc, at, 21)?;
        let size = size_told(&head);
        if size > self.end - 21 - at {
            return Err(NOT_THERE);
        }
        let bytes = self.device.read_at(alloc, at + 21, size)?;
        Ok(bytes)
    }

    /// Begins the next file, with no batch. The file itself stays as it is, whatever the answer.
    pub fn begin_next(&mut self) -> Result<Next, RenewFault>
        requires { IsOnDisk D.seen D.may_leave D.faults self.old }
        ensures settled { IsOnDisk D.seen D.may_leave D.faults self.new }
        ensures same { IsUndisturbed D.seen D.moment D.left_since self.old self.new }
        ensures begun { IfOk result (λ next. AreNext D.next self.new next []) }
        ensures truth { D.reads_true self.new.device → D.reads_true self.old.device }
        ensures true_before { LeavesOnly D.moment D.left_since self.old.device self.new.device (λ _. D.reads_true self.old.device) }
        ensures refused { IfErr result IsUnrenewed }
    {
        self.device.begin_next()?;
        self.device.add_to_next(&HEADER)?;
        Ok(Next {
            end: HEADER.len(),
            last: HEADER,
        })
    }

    /// Adds a batch to the next file. The file itself stays as it is, whatever the answer.
    pub fn add_to_next(&mut self, next: &mut Next, batch: &[u8]) -> Result<(), RenewFault>
        requires { IsOnDisk D.seen D.may_leave D.faults self.old }
        ensures settled { IsOnDisk D.seen D.may_leave D.faults self.new }
        ensures same { IsUndisturbed D.seen D.moment D.left_since self.old self.new }
        ensures added { OnOk result ((batches : List (List ℕ)) → AreNext D.next self.old next.old batches → AreNext D.next self.new next.new (batches ++ batch.now ∷ [])) }
        ensures truth { D.reads_true self.new.device → D.reads_true self.old.device }
        ensures true_before { LeavesOnly D.moment D.left_since self.old.device self.new.device (λ _. D.reads_true self.old.device) }
        ensures refused { IfErr result IsUnrenewed }
    {
        if batch.len() >= LIMIT || next.end >= MAX_END {
            return Err(RenewFault::Unplaced(SystemFault::FileTooLarge));
        }
        let head = head_of(&next.last, batch);
        self.device.add_to_next(&[255])?;
        self.device.add_to_next(&head.bytes)?;
        self.device.add_to_next(batch)?;
        next.end += 21 + batch.len();
        next.last = head.digest;
        Ok(())
    }

    /// Waits until what was written to the next file is on the disk, so that there is less to wait for later.
    pub fn sync_next(&mut self) -> Result<(), RenewFault>
        requires { IsOnDisk D.seen D.may_leave D.faults self.old }
        ensures settled { IsOnDisk D.seen D.may_leave D.faults self.new }
        ensures same { IsUndisturbed D.seen D.moment D.left_since self.old self.new }
        ensures next { OnOk result (D.next self.new.device ≡ D.next self.old.device) }
        ensures truth { D.reads_true self.new.device → D.reads_true self.old.device }
        ensures true_before { LeavesOnly D.moment D.left_since self.old.device self.new.device (λ _. D.reads_true self.old.device) }
        ensures refused { IfErr result IsUnrenewed }
    {
        Ok(self.device.sync_next()?)
    }

    /// Puts the next file in the place of this one. At `Ok` each crash leaves it and nothing else. At `Memory`, `Unplaced` and
    /// `Displaced` the file is as it was; at `Failed`, open the file again.
    pub fn place_next(&mut self, next: &Next) -> Result<(), RenewFault>
        requires stands { IsOnDisk D.seen D.may_leave D.faults self.old }
        requires written { (batches : List (List ℕ)) × AreNext D.next self.old next.now batches }
        ensures settled { OnOk result (IsOnDisk D.seen D.may_leave D.faults self.new) }
        ensures replaced { OnOk result ((batches : List (List ℕ)) → AreNext D.next self.old next.now batches → recovered (D.seen self.new.device) ≡ batches) }
        ensures end { OnOk result (self.new.end ≡ next.now.end) }
        // A crash at any moment of the call leaves the batches from before it, or those of the next file in their place.
        ensures any_moment { (batches : List (List ℕ)) → AreNext D.next self.old next.now batches
            → LeavesOnly D.moment D.left_since self.old.device self.new.device (IsOldOrNew (recovered (D.seen self.old.device)) batches) }
        ensures readable { LeavesOnly D.moment D.left_since self.old.device self.new.device IsReadable }
        ensures still { IfErr result (λ fault. IsUnrenewed fault → IsOnDisk D.seen D.may_leave D.faults self.new) }
        ensures same { IfErr result (λ fault. IsUnrenewed fault → IsUndisturbed D.seen D.moment D.left_since self.old self.new) }
        ensures truth { D.reads_true self.new.device → D.reads_true self.old.device }
        ensures true_before { LeavesOnly D.moment D.left_since self.old.device self.new.device (λ _. D.reads_true self.old.device) }
        ensures failed { IfErr result (λ fault. IsRenewFailure fault → D.faults self.old.device < D.faults self.new.device) }
        // It is put only in the place of a file that stands where it was opened.
        ensures in_place { OnOk result (D.tells_place self.old.device true) }
        ensures displaced { IsErrOf result RenewFault.Displaced → D.tells_place self.old.device false }
    {
        if !self.device.is_in_place() {
            return Err(RenewFault::Displaced);
        }
        self.device.add_to_next(&[0])?;
        self.device.sync_next()?;
        self.device.place_next()?;
        self.end = next.end;
        self.room = 1;
        self.last = next.last;
        Ok(())
    }
}

/// How long a batch is, by what stands before it in its frame.
fn size_told(head: &[u8]) -> usize
    requires { 5 ≤ length head.now }
    ensures { result ≡ size_at (drop 1 head.now) }
{
    u32::from_be_bytes([head[1], head[2], head[3], head[4]]) as usize
}
