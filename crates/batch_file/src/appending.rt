//! A file of batches: they are added one by one, or another file is put in the place of all.

ghost use Rattle.std.specs.Prelude.{◌≡◌, ◌⊎◌, ◌<◌, ◌≤◌, ◌^◌, ◌+◌, ◌-◌, ◌++◌, [], ◌∷◌, max, true, false, length, IfOk, IfErr, IfNone, IfSome, OnOk, IsErrOf, IsTrue, IsFalse, ℕ};
ghost use Rattle.batch_file.specs.Crashes.{HasCause, IsFailure, IsReplaceFailure, IsUnplaced, IsWrittenAt, LeavesOnly, Only};
ghost use Rattle.batch_file.specs.declared.device.DeviceFault.TheVariants.{Memory};
ghost use Rattle.batch_file.specs.Faults.{of_device, of_replacement, IsMadeRoom, IsOfRoom, TellsNoRoom};
ghost use Rattle.batch_file.specs.Frames.{file_size, limit, most_room, recovered, IsAsBefore, IsBeforeOrAfter, IsFileOf, IsOldOrNew, IsBatchFailure, IsOnDisk, IsUndisturbed, IsReadable, IsRenewFailure, IsUnrenewed};
ghost use Rattle.batch_file.specs.Tears.{Torn};

use crate::device::{Device, DeviceFault, ReplaceFault};
use crate::frames::Frames;
use crate::framing::head_of;
use std::alloc::Global;
use std::fmt::{self, Display, Formatter, Write};
use system_faults::SystemFault;

/// Behind this many bytes nothing is added.
pub const MAX_END: usize = 1 << 60;

/// An append of as many bytes or more is refused.
pub(crate) const LIMIT: usize = 1 << 23;

/// A file is made longer by so many zeros.
const RESERVE: usize = 1 << 20;

/// It is, where fewer would stay behind a batch.
pub const LOW: usize = 1 << 19;

/// So many stay behind each batch: a file that was cut off has none.
const CLOSING: usize = 16;

/// Why a batch was not added to a file.
#[derive(Clone, Copy, Debug, PartialEq, Eq)]
pub enum BatchFault {
    /// Memory was refused.
    Memory,
    /// The disk failed: open the file again.
    Failed(SystemFault),
    /// The file has `2^60` bytes or more.
    Full,
    /// The disk has no room for it.
    NoRoom(SystemFault),
    /// The batch has `2^23` bytes or more.
    TooLong,
    /// The file, or what locks it, was moved or removed.
    Displaced,
}

impl Display for BatchFault {
    fn fmt<W: Write>(&self, f: &mut Formatter<W>) -> fmt::Result {
        match self {
            BatchFault::Failed(SystemFault::Overtaken) => write!(f, "Overtaken"),
            BatchFault::Failed(SystemFault::Unclear) => write!(f, "Unclear"),
            BatchFault::Failed(reason) => write!(f, "Failed: {reason}"),
            BatchFault::NoRoom(reason) => write!(f, "NoRoom: {reason}"),
            _ => write!(f, "{self:?}"),
        }
    }
}

impl From<DeviceFault> for BatchFault {
    ghost from_gives = { λ device fault. fault ≡ of_device device };

    fn from(device: DeviceFault) -> BatchFault {
        match device {
            DeviceFault::Memory => BatchFault::Memory,
            DeviceFault::Failed(reason) => BatchFault::Failed(reason),
        }
    }
}

/// Why another file is not put in the place of a file of batches.
#[derive(Clone, Copy, Debug, PartialEq, Eq)]
pub enum RenewFault {
    /// Memory was refused: the old file stands.
    Memory,
    /// The other file could not be written, or not be put there: the old file stands.
    Unplaced(SystemFault),
    /// The disk failed: which of the two stands is not known.
    Failed(SystemFault),
    /// The old file, or what locks it, was moved or removed: nothing was done.
    Displaced,
}

impl From<ReplaceFault> for RenewFault {
    ghost from_gives = { λ replacing fault. fault ≡ of_replacement replacing };

    fn from(replacing: ReplaceFault) -> RenewFault {
        match replacing {
            ReplaceFault::Memory => RenewFault::Memory,
            ReplaceFault::Unplaced(reason) => RenewFault::Unplaced(reason),
            ReplaceFault::Failed(reason) => RenewFault::Failed(reason),
        }
    }
}

/// A file of frames, and the zeros behind them.
#[derive(Drop)]
pub struct BatchFile<D: Device> {
    /// The file.
    pub device: D,
    /// Where the frames end.
    pub end: usize,
    /// So many zeros stand behind them.
    pub room: usize,
    /// The digest of the last frame.
    pub last: [u8; 16],
    /// The file is made longer, where fewer zeros would stay behind a batch.
    pub low: usize,
    /// Why it was not made longer, where that was refused last.
    pub refused: Option<SystemFault>,
}

/// Why a file is not put in the place of what a device has, and the device.
#[derive(Drop)]
pub struct NotPlaced<D> {
    /// Why.
    pub fault: ReplaceFault,
    /// The device: where the old file stands, as it was.
    pub device: D,
}

impl<D: Device> BatchFile<D> {
    /// Puts a file in the place of all that a device has: what was read may stand in the system's memory alone, where an
    /// earlier sync has failed. It may crash too.
    pub fn place(mut device: D, frames: Frames) -> Result<BatchFile<D>, NotPlaced<D>>
        requires faultless { D.faults device ≡ 0 }
        ensures settled { IfOk result (λ file. IsOnDisk D.seen D.may_leave D.faults file) }
        ensures placed { IfOk result (λ file. recovered (D.seen file.device) ≡ frames) }
        ensures end { IfOk result (λ file. file.end + 1 ≡ file_size frames) }
        // A crash at any moment leaves what one before would have left, or the new file.
        ensures any_moment { IfOk result (λ file. LeavesOnly D.moment D.left_since device file.device (IsAsBefore (D.may_leave device) frames)) }
        ensures any_moment_lost { IfErr result (λ lost. LeavesOnly D.moment D.left_since device lost.device (IsAsBefore (D.may_leave device) frames)) }
        ensures truth { IfOk result (λ file. D.reads_true file.device → D.reads_true device) }
        ensures truth_lost { IfErr result (λ lost. D.reads_true lost.device → D.reads_true device) }
        ensures true_before { IfOk result (λ file. LeavesOnly D.moment D.left_since device file.device (λ _. D.reads_true device)) }
        ensures true_before_lost { IfErr result (λ lost. LeavesOnly D.moment D.left_since device lost.device (λ _. D.reads_true device)) }
        ensures untouched { IfErr result (λ lost. IsUnplaced lost.fault → lost.device ≡ device) }
        ensures failed { IfErr result (λ lost. IsReplaceFailure lost.fault → D.faults device < D.faults lost.device) }
    {
        let (bytes, last) = frames.into_parts();
        match device.replace(&bytes) {
            Ok(()) => Ok(BatchFile {
                device,
                end: bytes.len() - 1,
                room: 1,
                last,
                low: LOW,
                refused: None,
            }),
            Err(fault) => Err(NotPlaced { fault, device }),
        }
    }

    /// Adds a batch, by one write and one sync. At `Ok` it is acknowledged: from then on each crash leaves a file that has it.
    /// At `Failed`, open the file again.
    pub fn append(&mut self, alloc: Global, batch: &[u8]) -> Result<(), BatchFault>
        requires { IsOnDisk D.seen D.may_leave D.faults self.old }
        ensures settled { OnOk result (IsOnDisk D.seen D.may_leave D.faults self.new) }
        ensures added { OnOk result (recovered (D.seen self.new.device) ≡ recovered (D.seen self.old.device) ++ batch.now ∷ []) }
        // A crash at any moment of the call leaves the batches from before it, with the new one or without.
        ensures any_moment { LeavesOnly D.moment D.left_since self.old.device self.new.device (IsBeforeOrAfter (recovered (D.seen self.old.device)) batch.now) }
        // Each of these is a file that is not refused.
        ensures readable { LeavesOnly D.moment D.left_since self.old.device self.new.device IsReadable }
        // What a crash leaves is promised only where earlier reads told what was there.
        ensures truth { D.reads_true self.new.device → D.reads_true self.old.device }
        ensures true_before { LeavesOnly D.moment D.left_since self.old.device self.new.device (λ _. D.reads_true self.old.device) }
        ensures failed { IfErr result (λ fault. IsBatchFailure fault → D.faults self.old.device < D.faults self.new.device) }
        ensures full { IsErrOf result BatchFault.Full → 2 ^ 60 ≤ self.old.end }
        // It is told that there is no room only once the zeros are used up, and there is none for as many as are missing.
        ensures no_room { IfErr result (TellsNoRoom D.tells_full self.old.room (21 + length batch.now + 16)) }
        // Behind it there is a reserve, of a MB more each time that too little is left of it, unless the device has no room for that.
        ensures reserve { OnOk result (IsMadeRoom (21 + length batch.now + 16) self.old.room (self.new.room + (21 + length batch.now)) self.new.refused) }
        ensures refusal { OnOk result (IfSome self.new.refused (λ reason. (self.new.refused ≡ self.old.refused)
            ⊎ D.tells_full self.old.device ((21 + length batch.now + 16 - self.old.room) + 2 ^ 20) reason)) }
        ensures too_long { IsErrOf result BatchFault.TooLong → limit ≤ length batch.now }
        // It is added only where the file stands where it was opened.
        ensures in_place { OnOk result (D.tells_place self.old.device true) }
        ensures displaced { IsErrOf result BatchFault.Displaced → D.tells_place self.old.device false }
        // Where it is acknowledged, nobody else had begun when it was asked for.
        ensures sole { OnOk result ((t : ℕ) → t ≤ D.moment self.old.device → D.is_sole self.new.device t) }
        ensures next { D.next self.new.device ≡ D.next self.old.device }
    {
        if batch.len() >= LIMIT {
            return Err(BatchFault::TooLong);
        }
        if self.end >= MAX_END {
            return Err(BatchFault::Full);
        }
        if !self.device.is_in_place() {
            return Err(BatchFault::Displaced);
        }
        self.make_room(21 + batch.len() + CLOSING)?;
        let head = head_of(&self.last, batch);
        let frame = frame_of(alloc, &head.bytes, batch)?;
        let size = frame.len();
        write_down(&mut self.device, self.end, &frame)?;
        self.end += size;
        self.room -= size;
        self.last = head.digest;
        Ok(())
    }

    /// Sees to it that so many zeros stand behind the frames, and a reserve where the disk has room for one.
    fn make_room(&mut self, need: usize) -> Result<(), BatchFault>
        requires stands { IsOnDisk D.seen D.may_leave D.faults self.old }
        requires end { self.old.end < 2 ^ 60 }
        requires few { need < limit + 37 }
        ensures settled { OnOk result (IsOnDisk D.seen D.may_leave D.faults self.new) }
        ensures room { OnOk result (need ≤ self.new.room) }
        ensures reserve { OnOk result (IsMadeRoom need self.old.room self.new.room self.new.refused) }
        ensures refusal { OnOk result (IfSome self.new.refused (λ reason. (self.new.refused ≡ self.old.refused) ⊎ D.tells_full self.old.device ((need - self.old.room) + 2 ^ 20) reason)) }
        ensures same { (self.new.end ≡ self.old.end) × (self.new.last ≡ self.old.last) }
        ensures batches { OnOk result (recovered (D.seen self.new.device) ≡ recovered (D.seen self.old.device)) }
        ensures any_moment { LeavesOnly D.moment D.left_since self.old.device self.new.device (IsFileOf (recovered (D.seen self.old.device))) }
        ensures truth { D.reads_true self.new.device → D.reads_true self.old.device }
        ensures true_before { LeavesOnly D.moment D.left_since self.old.device self.new.device (λ _. D.reads_true self.old.device) }
        ensures failed { IfErr result (λ fault. IsBatchFailure fault → D.faults self.old.device < D.faults self.new.device) }
        ensures no_room { IfErr result (TellsNoRoom D.tells_full self.old.room need) }
        ensures other { IsErrOf result BatchFault.Full → ⊥ }
        ensures too_long { IsErrOf result BatchFault.TooLong → ⊥ }
        ensures displaced { IsErrOf result BatchFault.Displaced → ⊥ }
        ensures next { D.next self.new.device ≡ D.next self.old.device }
    {
        let low = low_of(&self.refused, self.low);
        if is_enough(self.room, need, low) {
            return Ok(());
        }
        let refused = self.grow(need.saturating_sub(self.room) + RESERVE)?;
        self.refused = refused;
        if refused.is_none() {
            self.low = LOW;
            return Ok(());
        }
        self.fill(need)?;
        self.low = (self.room - need) / 2;
        Ok(())
    }

    /// Sees to it that so many zeros stand behind the frames, and no more.
    fn fill(&mut self, need: usize) -> Result<(), BatchFault>
        requires stands { IsOnDisk D.seen D.may_leave D.faults self.old }
        requires end { self.old.end < 2 ^ 60 }
        requires few { need < limit + 37 }
        ensures settled { OnOk result (IsOnDisk D.seen D.may_leave D.faults self.new) }
        ensures room { OnOk result (self.new.room ≡ max self.old.room need) }
        ensures refused { self.new.refused ≡ self.old.refused }
        ensures same { (self.new.end ≡ self.old.end) × (self.new.last ≡ self.old.last) }
        ensures batches { OnOk result (recovered (D.seen self.new.device) ≡ recovered (D.seen self.old.device)) }
        ensures any_moment { LeavesOnly D.moment D.left_since self.old.device self.new.device (IsFileOf (recovered (D.seen self.old.device))) }
        ensures truth { D.reads_true self.new.device → D.reads_true self.old.device }
        ensures true_before { LeavesOnly D.moment D.left_since self.old.device self.new.device (λ _. D.reads_true self.old.device) }
        ensures failed { IfErr result (λ fault. IsBatchFailure fault → D.faults self.old.device < D.faults self.new.device) }
        ensures no_room { IfErr result (TellsNoRoom D.tells_full self.old.room need) }
        ensures other { IsErrOf result BatchFault.Full → ⊥ }
        ensures too_long { IsErrOf result BatchFault.TooLong → ⊥ }
        ensures displaced { IsErrOf result BatchFault.Displaced → ⊥ }
        ensures next { D.next self.new.device ≡ D.next self.old.device }
    {
        if self.room >= need {
            return Ok(());
        }
        match self.grow(need - self.room)? {
            None => Ok(()),
            Some(reason) => Err(BatchFault::NoRoom(reason)),
        }
    }

    /// Writes so many zeros behind the others, on the disk, or gives why that is refused.
    fn grow(&mut self, more: usize) -> Result<Option<SystemFault>, DeviceFault>
        requires stands { IsOnDisk D.seen D.may_leave D.faults self.old }
        requires end { self.old.end < 2 ^ 60 }
        requires few { self.old.room + more ≤ most_room }
        ensures settled { OnOk result (IsOnDisk D.seen D.may_leave D.faults self.new) }
        ensures longer { IfOk result (λ refused. IfNone refused (self.new.room ≡ self.old.room + more)) }
        ensures as_long { IfOk result (λ refused. IfSome refused (λ _. self.new.room ≡ self.old.room)) }
        ensures of_room { IfOk result (λ refused. IfSome refused IsOfRoom) }
        ensures told { IfOk result (λ refused. IfSome refused (D.tells_full self.old.device more)) }
        ensures same { (self.new.end ≡ self.old.end) × (self.new.last ≡ self.old.last) × (self.new.refused ≡ self.old.refused) }
        ensures batches { OnOk result (recovered (D.seen self.new.device) ≡ recovered (D.seen self.old.device)) }
        ensures any_moment { LeavesOnly D.moment D.left_since self.old.device self.new.device (IsFileOf (recovered (D.seen self.old.device))) }
        ensures truth { D.reads_true self.new.device → D.reads_true self.old.device }
        ensures true_before { LeavesOnly D.moment D.left_since self.old.device self.new.device (λ _. D.reads_true self.old.device) }
        ensures cause { HasCause IsFailure (D.faults self.old.device) (D.faults self.new.device) result }
        ensures next { D.next self.new.device ≡ D.next self.old.device }
    {
        let refused = self.device.grow(self.end + self.room, more)?;
        self.device.sync()?;
        let Some(reason) = refused else {
            self.room += more;
            return Ok(None);
        };
        Ok(Some(reason))
    }

    /// Asks whether nobody else has begun to write since. At an error the file is of no use any more.
    pub fn confirm(&mut self) -> Result<(), BatchFault>
        requires { IsOnDisk D.seen D.may_leave D.faults self.old }
        ensures settled { OnOk result (IsOnDisk D.seen D.may_leave D.faults self.new) }
        ensures sole { OnOk result ((t : ℕ) → t ≤ D.moment self.old.device → D.is_sole self.new.device t) }
        ensures same { OnOk result (IsUndisturbed D.seen D.moment D.left_since self.old self.new) }
        ensures any_moment { LeavesOnly D.moment D.left_since self.old.device self.new.device (λ file. file ≡ D.seen self.old.device) }
        ensures truth { D.reads_true self.new.device → D.reads_true self.old.device }
        ensures true_before { LeavesOnly D.moment D.left_since self.old.device self.new.device (λ _. D.reads_true self.old.device) }
        ensures failed { IfErr result (λ fault. IsBatchFailure fault → D.faults self.old.device < D.faults self.new.device) }
        ensures next { D.next self.new.device ≡ D.next self.old.device }
    {
        Ok(self.device.confirm()?)
    }

    /// Keeps the place of whoever writes, by a steady clock in milliseconds: the batches stay as they are. It says by when it wants to be
    /// called again, if it does. At an error the file is of no use any more.
    pub fn tend(&mut self, now: u64) -> Result<Option<u64>, BatchFault>
        requires { IsOnDisk D.seen D.may_leave D.faults self.old }
        ensures settled { OnOk result (IsOnDisk D.seen D.may_leave D.faults self.new) }
        ensures tended { IfOk result (λ due. D.tends self.old.device now due self.new.device) }
        ensures same { OnOk result (IsUndisturbed D.seen D.moment D.left_since self.old self.new) }
        ensures any_moment { LeavesOnly D.moment D.left_since self.old.device self.new.device (λ file. file ≡ D.seen self.old.device) }
        ensures truth { D.reads_true self.new.device → D.reads_true self.old.device }
        ensures true_before { LeavesOnly D.moment D.left_since self.old.device self.new.device (λ _. D.reads_true self.old.device) }
        ensures failed { IfErr result (λ fault. IsBatchFailure fault → D.faults self.old.device < D.faults self.new.device) }
        ensures next { D.next self.new.device ≡ D.next self.old.device }
    {
        Ok(self.device.tend(now)?)
    }

    /// Puts another file in the place of all that there is. At `Ok` each crash leaves it and nothing else. At `Memory`,
    /// `Unplaced` and `Displaced` it goes on as it was; at `Failed`, open the file again.
    pub fn replace(&mut self, frames: Frames) -> Result<(), RenewFault>
        requires { IsOnDisk D.seen D.may_leave D.faults self.old }
        ensures settled { OnOk result (IsOnDisk D.seen D.may_leave D.faults self.new) }
        ensures replaced { OnOk result (recovered (D.seen self.new.device) ≡ frames) }
        ensures end { OnOk result (self.new.end + 1 ≡ file_size frames) }
        // A crash at any moment of the call leaves the batches from before it, or the new ones in their place.
        ensures any_moment { LeavesOnly D.moment D.left_since self.old.device self.new.device (IsOldOrNew (recovered (D.seen self.old.device)) frames) }
        ensures readable { LeavesOnly D.moment D.left_since self.old.device self.new.device IsReadable }
        ensures untouched { IfErr result (λ fault. IsUnrenewed fault → self.new ≡ self.old) }
        ensures truth { D.reads_true self.new.device → D.reads_true self.old.device }
        ensures true_before { LeavesOnly D.moment D.left_since self.old.device self.new.device (λ _. D.reads_true self.old.device) }
        ensures failed { IfErr result (λ fault. IsRenewFailure fault → D.faults self.old.device < D.faults self.new.device) }
        // It is put only in the place of a file that stands where it was opened.
        ensures in_place { OnOk result (D.tells_place self.old.device true) }
        ensures displaced { IsErrOf result RenewFault.Displaced → D.tells_place self.old.device false }
    {
        if !self.device.is_in_place() {
            return Err(RenewFault::Displaced);
        }
        let (bytes, last) = frames.into_parts();
        self.device.replace(&bytes)?;
        self.end = bytes.len() - 1;
        self.room = 1;
        self.last = last;
        Ok(())
    }
}

/// How many zeros are to stay behind a batch: fewer, where more were refused last.
fn low_of(refused: &Option<SystemFault>, low: usize) -> usize
    ensures { IfNone refused.now (2 ^ 19 ≤ result) }
{
    match refused {
        Some(_) => low,
        None => LOW,
    }
}

/// Whether so many zeros are enough for a batch, and so many more.
fn is_enough(room: usize, need: usize, low: usize) -> bool
    ensures yes { IsTrue result → need ≤ room }
    ensures reserve { IsTrue result → 2 ^ 19 ≤ low → need + 2 ^ 19 ≤ room }
    ensures no { IsFalse result → room < need + 2 ^ 19 }
{
    if room < need {
        return false;
    }
    room - need >= low.min(LOW)
}

/// The frame of a batch.
fn frame_of(alloc: Global, head: &[u8; 20], batch: &[u8]) -> Result<Vec<u8>, DeviceFault>
    requires { length batch.now < limit }
    ensures made { IfOk result (λ frame. frame.items ≡ 255 ∷ (head.now ++ batch.now)) }
    ensures refused { IfErr result (λ fault. fault ≡ Memory) }
{
    let mut frame = Vec::with_capacity(alloc, 21 + batch.len())?;
    frame.extend_from_slice(&[255])?;
    frame.extend_from_slice(head)?;
    frame.extend_from_slice(batch)?;
    Ok(frame)
}

/// Writes, and waits until it is on the disk.
fn write_down<D: Device>(device: &mut D, at: usize, bytes: &[u8]) -> Result<(), DeviceFault>
    requires within { at ≤ length (D.seen device.old) }
    requires durable { Only (D.seen device.old) (D.may_leave device.old) }
    requires faultless { D.faults device.old ≡ 0 }
    ensures written { OnOk result (IsWrittenAt (D.seen device.old) at bytes.now (D.seen device.new)) }
    ensures durable { OnOk result (Only (D.seen device.new) (D.may_leave device.new)) }
    ensures any_moment { LeavesOnly D.moment D.left_since device.old device.new (Torn at bytes.now (D.seen device.old)) }
    ensures truth { D.reads_true device.new → D.reads_true device.old }
    ensures true_before { LeavesOnly D.moment D.left_since device.old device.new (λ _. D.reads_true device.old) }
    ensures cause { HasCause IsFailure (D.faults device.old) (D.faults device.new) result }
    ensures sole { OnOk result ((t : ℕ) → t ≤ D.moment device.old → D.is_sole device.new t) }
    ensures next { D.next device.new ≡ D.next device.old }
{
    device.write_at(at, bytes)?;
    device.sync()?;
    Ok(())
}
