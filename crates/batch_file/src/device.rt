//! A file as a `BatchFile` sees it: what a read would return, and what a crash may leave.

ghost use Rattle.std.specs.Prelude.{◌≡◌, ◌≤◌, ◌++◌, [], Bool, List, ℕ, length, take, drop, Option, Some, None, Ok, option_map, IfOk, OnOk, IfErr, IfSome, IfNone};
ghost use Rattle.batch_file.specs.declared.device.Beginning.TheVariants.{Copy, Settled};
ghost use Rattle.batch_file.specs.declared.device.DeviceFault.TheVariants.{Memory};
ghost use Rattle.batch_file.specs.declared.device.ReplaceFault.TheVariants as replacing;
ghost use Rattle.batch_file.specs.Crashes.{Elapses, ComesOfStep, HasCause, IsBeside, IsFailure, IsUnplaced, IsReplaceFailure, IsWrittenAt, Only, Swapped};
ghost use Rattle.batch_file.specs.Faults.{of_reading, of_replacing, IsOfRoom};
ghost use Rattle.batch_file.specs.Frames.{zeros};
ghost use Rattle.batch_file.specs.Tears.{Torn};
ghost use Rattle.system_faults.specs.declared.SystemFault.{SystemFault};

use std::alloc::{AllocError, Global};
use std::io::{self, ErrorKind};
use system_faults::SystemFault;

/// Why a device did not do what it was asked for.
#[derive(Clone, Copy, Debug, PartialEq, Eq)]
pub enum DeviceFault {
    /// Memory was refused.
    Memory,
    /// The disk failed.
    Failed(SystemFault),
}

impl From<AllocError> for DeviceFault {
    ghost from_gives = { λ _ fault. fault ≡ Memory };

    fn from(_: AllocError) -> DeviceFault {
        DeviceFault::Memory
    }
}

impl From<io::Error> for DeviceFault {
    ghost from_gives = { λ error fault. fault ≡ of_reading error };

    fn from(error: io::Error) -> DeviceFault {
        match error.kind() {
            ErrorKind::OutOfMemory => DeviceFault::Memory,
            _ => DeviceFault::Failed(SystemFault::of(&error)),
        }
    }
}

/// Why no other file was put in the place of one.
#[derive(Clone, Copy, Debug, PartialEq, Eq)]
pub enum ReplaceFault {
    /// Memory was refused: the old file stands.
    Memory,
    /// The other file could not be written, or not be put there: the old file stands.
    Unplaced(SystemFault),
    /// The disk failed: which of the two stands is not known.
    Failed(SystemFault),
}

impl From<AllocError> for ReplaceFault {
    ghost from_gives = { λ _ fault. fault ≡ replacing.Memory };

    fn from(_: AllocError) -> ReplaceFault {
        ReplaceFault::Memory
    }
}

impl From<DeviceFault> for ReplaceFault {
    ghost from_gives = { λ device fault. fault ≡ of_replacing device };

    fn from(device: DeviceFault) -> ReplaceFault {
        match device {
            DeviceFault::Memory => ReplaceFault::Memory,
            DeviceFault::Failed(reason) => ReplaceFault::Failed(reason),
        }
    }
}

/// How a device begins to be written.
#[derive(Clone, Copy, Debug, PartialEq, Eq)]
pub enum Beginning {
    /// What was to be written stands there, and a crash leaves what a read would return.
    Settled,
    /// Nothing was done: what a read returns may stand in the system's memory alone, so a copy has to take its place.
    Copy,
}

/// A file that outlives the program. Until a `sync` has succeeded, a crash may undo or tear what was done to it.
pub trait Device {
    /// The bytes that a read would return.
    ghost seen: { Self → List ℕ };

    /// What a crash at this moment may leave.
    ghost may_leave: { Self → List ℕ → Type 0 };

    /// The moment, as a number that doesn't fall.
    ghost moment: { Self → ℕ };

    /// What a crash at some moment from that one on might have left, during a call or between two.
    ghost left_since: { Self → ℕ → List ℕ → Type 0 };

    /// How often the disk has failed.
    ghost faults: { Self → ℕ };

    /// What reads told is what was there, as far as there were any. Where it was not, nothing is promised of what a crash leaves.
    ghost reads_true: { Self → Type 0 };

    /// What was written to the next file since it was begun, where no call on it was refused since.
    ghost next: { Self → Option (List ℕ) };

    /// What of it is known to be on the disk.
    ghost next_on_disk: { Self → Option (List ℕ) };

    /// By that moment nobody else had begun to write: of a file whatever was said, by its lock; of one in a cluster what that told.
    ghost is_sole: { Self → ℕ → Type 0 };

    /// It was tended at that time of the steady clock, and told by when it wants to be called again.
    ghost tends: { Self → ℕ → Option ℕ → Self → Type 0 };

    /// What it may tell of whether its file stands where it was opened.
    ghost tells_place: { Self → Bool → Type 0 };

    /// Why it may tell that it has no room for so many zeros more.
    ghost tells_full: { Self → ℕ → SystemFault → Type 0 };

    /// Whether the file, and what locks it, stand where they were opened: neither was moved or removed, as far as the system tells.
    fn is_in_place(&self) -> bool
        ensures { tells_place self.now result };

    /// Writes over what is there, and past the end. Until a sync, a crash may leave any bytes in the range.
    fn write_at(&mut self, at: usize, bytes: &[u8]) -> Result<(), DeviceFault>
        requires { at ≤ length (seen self.old) }
        ensures written { OnOk result (IsWrittenAt (seen self.old) at bytes.now (seen self.new)) }
        ensures crash { ComesOfStep (Torn at bytes.now) (may_leave self.old) (may_leave self.new) }
        ensures time { Elapses (moment self.old) (moment self.new) (left_since self.old) (left_since self.new) (may_leave self.new) }
        ensures cause { HasCause IsFailure (faults self.old) (faults self.new) result }
        ensures next { next self.new ≡ next self.old }
        ensures truth { reads_true self.new → reads_true self.old }
        ensures sole { OnOk result ((t : ℕ) → t ≤ moment self.old → is_sole self.new t) };

    /// Writes so many zeros behind the end of the file, which is there. Where there is no room for them, the file is left as it was,
    /// and it is told what said so. Until a sync, a crash may leave any bytes there.
    fn grow(&mut self, end: usize, size: usize) -> Result<Option<SystemFault>, DeviceFault>
        requires { end ≡ length (seen self.old) }
        ensures longer { IfOk result (λ refused. IfNone refused (seen self.new ≡ seen self.old ++ zeros size)) }
        ensures same { IfOk result (λ refused. IfSome refused (λ _. seen self.new ≡ seen self.old)) }
        ensures of_room { IfOk result (λ refused. IfSome refused IsOfRoom) }
        ensures told { IfOk result (λ refused. IfSome refused (tells_full self.old size)) }
        ensures crash { ComesOfStep (Torn end (zeros size)) (may_leave self.old) (may_leave self.new) }
        ensures time { Elapses (moment self.old) (moment self.new) (left_since self.old) (left_since self.new) (may_leave self.new) }
        ensures cause { HasCause IsFailure (faults self.old) (faults self.new) result }
        ensures next { next self.new ≡ next self.old }
        ensures truth { reads_true self.new → reads_true self.old };

    /// Waits until the file is on the disk: after it a crash leaves what a read would return, unless the disk has failed before.
    fn sync(&mut self) -> Result<(), DeviceFault>
        ensures durable { OnOk result (faults self.old ≡ 0 → Only (seen self.old) (may_leave self.new)) }
        ensures seen { seen self.new ≡ seen self.old }
        ensures crash { (left : List ℕ) → may_leave self.new left → may_leave self.old left }
        ensures time { Elapses (moment self.old) (moment self.new) (left_since self.old) (left_since self.new) (may_leave self.new) }
        ensures cause { HasCause IsFailure (faults self.old) (faults self.new) result }
        ensures next { next self.new ≡ next self.old }
        ensures truth { reads_true self.new → reads_true self.old }
        ensures sole { (t : ℕ) → is_sole self.old t → is_sole self.new t };

    /// Begins to write, with these bytes in the place of what stands behind that end: all at once, where it is done here.
    fn begin(&mut self, end: usize, bytes: &[u8]) -> Result<Beginning, ReplaceFault>
        requires { end ≤ length (seen self.old) }
        ensures settled { result ≡ Ok Settled → seen self.new ≡ take end (seen self.old) ++ bytes.now }
        ensures durable { result ≡ Ok Settled → Only (seen self.new) (may_leave self.new) }
        ensures copy { result ≡ Ok Copy → IsBeside seen may_leave faults self.old self.new }
        ensures unplaced { IfErr result (λ fault. IsUnplaced fault → IsBeside seen may_leave faults self.old self.new) }
        ensures crash { ComesOfStep (Swapped (take end (seen self.old) ++ bytes.now)) (may_leave self.old) (may_leave self.new) }
        ensures time { Elapses (moment self.old) (moment self.new) (left_since self.old) (left_since self.new) (may_leave self.new) }
        ensures cause { HasCause IsReplaceFailure (faults self.old) (faults self.new) result }
        ensures truth { reads_true self.new → reads_true self.old };

    /// Asks whether nobody else has begun to write since.
    fn confirm(&mut self) -> Result<(), DeviceFault>
        ensures sole { OnOk result ((t : ℕ) → t ≤ moment self.old → is_sole self.new t) }
        ensures beside { OnOk result (IsBeside seen may_leave faults self.old self.new) }
        ensures crash { (left : List ℕ) → may_leave self.new left → may_leave self.old left }
        ensures time { Elapses (moment self.old) (moment self.new) (left_since self.old) (left_since self.new) (may_leave self.new) }
        ensures cause { HasCause IsFailure (faults self.old) (faults self.new) result }
        ensures next { next self.new ≡ next self.old }
        ensures truth { reads_true self.new → reads_true self.old };

    /// Keeps the place of whoever writes, and the file in order, by a steady clock in milliseconds. It changes nothing that is seen, and
    /// says by when it wants to be called again, if it does.
    fn tend(&mut self, now: u64) -> Result<Option<u64>, DeviceFault>
        ensures tended { IfOk result (λ due. tends self.old now due self.new) }
        ensures beside { OnOk result (IsBeside seen may_leave faults self.old self.new) }
        ensures crash { (left : List ℕ) → may_leave self.new left → may_leave self.old left }
        ensures time { Elapses (moment self.old) (moment self.new) (left_since self.old) (left_since self.new) (may_leave self.new) }
        ensures cause { HasCause IsFailure (faults self.old) (faults self.new) result }
        ensures next { next self.new ≡ next self.old }
        ensures truth { reads_true self.new → reads_true self.old };

    /// Puts another file in the place of this one. A crash leaves the one or the other.
    fn replace(&mut self, bytes: &[u8]) -> Result<(), ReplaceFault>
        ensures replaced { OnOk result (seen self.new ≡ bytes.now) }
        ensures durable { OnOk result (Only bytes.now (may_leave self.new)) }
        ensures untouched { IfErr result (λ fault. IsUnplaced fault → self.new ≡ self.old) }
        ensures crash { ComesOfStep (Swapped bytes.now) (may_leave self.old) (may_leave self.new) }
        ensures time { Elapses (moment self.old) (moment self.new) (left_since self.old) (left_since self.new) (may_leave self.new) }
        ensures cause { HasCause IsReplaceFailure (faults self.old) (faults self.new) result }
        ensures truth { reads_true self.new → reads_true self.old };

    /// So many of its bytes, from that place on.
    fn read_at(&mut self, alloc: Global, at: usize, size: usize) -> Result<Vec<u8>, DeviceFault>
        ensures read { IfOk result (λ bytes. reads_true self.new → bytes.items ≡ take size (drop at (seen self.new))) }
        ensures size { IfOk result (λ bytes. length bytes.items ≡ size) }
        ensures beside { IsBeside seen may_leave faults self.old self.new }
        ensures time { Elapses (moment self.old) (moment self.new) (left_since self.old) (left_since self.new) (may_leave self.new) }
        ensures next { next self.new ≡ next self.old }
        ensures truth { reads_true self.new → reads_true self.old };

    /// Begins another file beside this one: what is refused of it is no fault of this one.
    fn begin_next(&mut self) -> Result<(), DeviceFault>
        ensures begun { OnOk result (next self.new ≡ Some []) }
        ensures beside { IsBeside seen may_leave faults self.old self.new }
        ensures time { Elapses (moment self.old) (moment self.new) (left_since self.old) (left_since self.new) (may_leave self.new) }
        ensures truth { reads_true self.new → reads_true self.old };

    /// Writes behind what was written to it.
    fn add_to_next(&mut self, bytes: &[u8]) -> Result<(), DeviceFault>
        ensures added { OnOk result (next self.new ≡ option_map (λ written. written ++ bytes.now) (next self.old)) }
        ensures beside { IsBeside seen may_leave faults self.old self.new }
        ensures time { Elapses (moment self.old) (moment self.new) (left_since self.old) (left_since self.new) (may_leave self.new) }
        ensures truth { reads_true self.new → reads_true self.old };

    /// Waits until all of it is on the disk.
    fn sync_next(&mut self) -> Result<(), DeviceFault>
        ensures durable { OnOk result (next_on_disk self.new ≡ next self.old) }
        ensures next { OnOk result (next self.new ≡ next self.old) }
        ensures beside { IsBeside seen may_leave faults self.old self.new }
        ensures time { Elapses (moment self.old) (moment self.new) (left_since self.old) (left_since self.new) (may_leave self.new) }
        ensures truth { reads_true self.new → reads_true self.old };

    /// Puts it in the place of this one. A crash leaves the one or the other, where the other is known to be on the disk.
    fn place_next(&mut self) -> Result<(), ReplaceFault>
        ensures replaced { OnOk result (IfSome (next_on_disk self.old) (λ bytes. seen self.new ≡ bytes)) }
        ensures durable { OnOk result (IfSome (next_on_disk self.old) (λ bytes. Only bytes (may_leave self.new))) }
        ensures unplaced { IfErr result (λ fault. IsUnplaced fault → IsBeside seen may_leave faults self.old self.new) }
        ensures crash { IfSome (next_on_disk self.old) (λ bytes. ComesOfStep (Swapped bytes) (may_leave self.old) (may_leave self.new)) }
        ensures time { Elapses (moment self.old) (moment self.new) (left_since self.old) (left_since self.new) (may_leave self.new) }
        ensures cause { HasCause IsReplaceFailure (faults self.old) (faults self.new) result }
        ensures truth { reads_true self.new → reads_true self.old };

    /// Removes what there is of a next file.
    fn drop_next(&mut self)
        ensures none { next self.new ≡ None }
        ensures beside { IsBeside seen may_leave faults self.old self.new }
        ensures time { Elapses (moment self.old) (moment self.new) (left_since self.old) (left_since self.new) (may_leave self.new) }
        ensures truth { reads_true self.new → reads_true self.old };

    /// Puts bytes aside, beside the file, which stays as it was.
    fn set_aside(&self, torn: &[u8]) -> Result<(), DeviceFault>;

    /// This moment is one of those since an earlier one.
    ghost counts_now: { (file : Self) (t : ℕ) (left : List ℕ) → t ≤ moment file → may_leave file left → left_since file t left };

    /// Since this moment there is no other.
    ghost only_now: { (file : Self) (left : List ℕ) → left_since file (moment file) left → may_leave file left };

    /// Something is promised only where reads told what was there.
    ghost only_true: { (file : Self) (left : List ℕ) → may_leave file left → reads_true file };
}
