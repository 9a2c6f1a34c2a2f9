//! A copy of a file, with batches behind those that it has, in its own place.

ghost use Rattle.std.specs.Prelude.{◌≡◌, ◌<◌, ◌+◌, ◌++◌, [], ◌∷◌, List, ℕ, Option, Some, IfOk, IfErr, OnOk};
ghost use Rattle.batch_file.specs.Crashes.{IsBeside, IsReplaceFailure, IsUnplaced, LeavesOnly};
ghost use Rattle.batch_file.specs.Faults.{of_copying};
ghost use Rattle.batch_file.specs.Frames.{digest, frames_size, header, last_of, lists, recovered, IsAsBefore, IsOnDisk, IsReadable};
ghost use Rattle.file_copy.specs.Copies.{AreBehind, AreGathered, AreGatheredWhole, HasCopied, HasSeen, IsCopied, KeepsAside};

use batch_file::appending::{BatchFile, LOW, MAX_END, NotPlaced};
use batch_file::device::{Beginning, Device, DeviceFault, ReplaceFault};
use batch_file::frames::MAX_BATCH;
use batch_file::framing::{HEADER, head_of};
use batch_file::next::Next;
use batch_file::source::PIECE;
use batch_file::walk::{TOO_LONG, Walk, is_decided};
use std::alloc::{AllocError, Global};
use system_faults::SystemFault;

/// What stands there is not what was read before.
const CHANGED: DeviceFault = DeviceFault::Failed(SystemFault::Other);

/// Begins to write what a device has, up to that end, with these batches behind it: there, where the device does that all at once;
/// else in a copy, which takes the place of all. It may crash too.
pub fn place_behind<D: Device>(
    alloc: Global,
    device: D,
    front: Next,
    behind: &[Vec<u8>],
) -> Result<BatchFile<D>, NotPlaced<D>>
    requires faultless { D.faults device ≡ 0 }
    requires readable { IsReadable (D.seen device) }
    requires end { front.end ≡ 16 + frames_size (recovered (D.seen device)) }
    requires last { front.last ≡ last_of header (recovered (D.seen device)) }
    ensures settled { IfOk result (λ file. IsOnDisk D.seen D.may_leave D.faults file) }
    ensures placed { IfOk result (λ file. D.reads_true file.device
        → recovered (D.seen file.device) ≡ recovered (D.seen device) ++ lists behind.now) }
    ensures end { IfOk result (λ file. file.end ≡ front.end + frames_size (lists behind.now)) }
    // A crash at any moment leaves what one before would have left, or the new file.
    ensures any_moment { IfOk result (λ file. LeavesOnly D.moment D.left_since device file.device
        (IsAsBefore (D.may_leave device) (recovered (D.seen device) ++ lists behind.now))) }
    ensures any_moment_lost { IfErr result (λ lost. LeavesOnly D.moment D.left_since device lost.device
        (IsAsBefore (D.may_leave device) (recovered (D.seen device) ++ lists behind.now))) }
    ensures truth { IfOk result (λ file. D.reads_true file.device → D.reads_true device) }
    ensures truth_lost { IfErr result (λ lost. D.reads_true lost.device → D.reads_true device) }
    ensures true_before { IfOk result (λ file. LeavesOnly D.moment D.left_since device file.device
        (λ _. D.reads_true device)) }
    ensures true_before_lost { IfErr result (λ lost. LeavesOnly D.moment D.left_since device lost.device
        (λ _. D.reads_true device)) }
    ensures unplaced { IfErr result (λ lost. IsUnplaced lost.fault → IsBeside D.seen D.may_leave D.faults device lost.device) }
    ensures failed { IfErr result (λ lost. IsReplaceFailure lost.fault → D.faults device < D.faults lost.device) }
{
    let mut device = device;
    let gathered = match gather_behind(alloc, front, behind) {
        Ok(gathered) => gathered,
        Err(fault) => {
            return Err(NotPlaced {
                fault: unplaced(fault),
                device,
            });
        }
    };
    match device.begin(front.end, &gathered.out) {
        Ok(Beginning::Settled) => {
            let Next { end, last } = gathered.next;
            Ok(BatchFile {
                device,
                end,
                room: 1,
                last,
                low: LOW,
                refused: None,
            })
        }
        Ok(Beginning::Copy) => place_copy(alloc, device, front.end, behind),
        Err(fault) => Err(NotPlaced { fault, device }),
    }
}

/// The frames of batches, and a zero: what is to stand behind that front.
fn gather_behind(alloc: Global, front: Next, behind: &[Vec<u8>]) -> Result<Gathered, DeviceFault>
    ensures gathered { IfOk result (λ made. (written : List ℕ) (batches : List (List ℕ)) → AreBehind written batches front
        → AreGatheredWhole written (batches ++ lists behind.now) made) }
{
    let mut whole = Gathered {
        out: Vec::new(alloc),
        next: front,
    };
    for batch in behind {
        let made = whole.digest(batch)?;
        whole.gather(batch, &made)?;
    }
    whole.out.extend_from_slice(&[0])?;
    Ok(whole)
}

/// Copies the frames of what a device has, up to that end, and these batches behind them, to a next file, and puts that in the
/// place of all: what was read may stand in the system's memory alone, where an earlier sync has failed. It may crash too.
fn place_copy<D: Device>(
    alloc: Global,
    device: D,
    end: usize,
    behind: &[Vec<u8>],
) -> Result<BatchFile<D>, NotPlaced<D>>
    requires faultless { D.faults device ≡ 0 }
    requires readable { IsReadable (D.seen device) }
    requires end { end ≡ 16 + frames_size (recovered (D.seen device)) }
    ensures settled { IfOk result (λ file. IsOnDisk D.seen D.may_leave D.faults file) }
    ensures placed { IfOk result (λ file. D.reads_true file.device
        → recovered (D.seen file.device) ≡ recovered (D.seen device) ++ lists behind.now) }
    ensures end { IfOk result (λ file. file.end ≡ end + frames_size (lists behind.now)) }
    // A crash at any moment leaves what one before would have left, or the new file.
    ensures any_moment { IfOk result (λ file. LeavesOnly D.moment D.left_since device file.device
        (IsAsBefore (D.may_leave device) (recovered (D.seen device) ++ lists behind.now))) }
    ensures any_moment_lost { IfErr result (λ lost. LeavesOnly D.moment D.left_since device lost.device
        (IsAsBefore (D.may_leave device) (recovered (D.seen device) ++ lists behind.now))) }
    ensures truth { IfOk result (λ file. D.reads_true file.device → D.reads_true device) }
    ensures truth_lost { IfErr result (λ lost. D.reads_true lost.device → D.reads_true device) }
    ensures true_before { IfOk result (λ file. LeavesOnly D.moment D.left_since device file.device
        (λ _. D.reads_true device)) }
    ensures true_before_lost { IfErr result (λ lost. LeavesOnly D.moment D.left_since device lost.device
        (λ _. D.reads_true device)) }
    ensures unplaced { IfErr result (λ lost. IsUnplaced lost.fault → IsBeside D.seen D.may_leave D.faults device lost.device) }
    ensures failed { IfErr result (λ lost. IsReplaceFailure lost.fault → D.faults device < D.faults lost.device) }
{
    let mut device = device;
    match copy(alloc, &mut device, end, behind) {
        Ok(next) => match device.place_next() {
            Ok(()) => {
                let last = next.last;
                Ok(BatchFile {
                    device,
                    end: next.end,
                    room: 1,
                    last,
                    low: LOW,
                    refused: None,
                })
            }
            Err(fault) => Err(NotPlaced { fault, device }),
        },
        Err(fault) => {
            device.drop_next();
            Err(NotPlaced {
                fault: unplaced(fault),
                device,
            })
        }
    }
}

/// A fault of a device on the next file, or where it is read, leaves the old file.
fn unplaced(fault: DeviceFault) -> ReplaceFault
    ensures { result ≡ of_copying fault }
{
    match fault {
        DeviceFault::Memory => ReplaceFault::Memory,
        DeviceFault::Failed(reason) => ReplaceFault::Unplaced(reason),
    }
}

/// Writes the next file of what a device has, up to that end, and these batches, and waits until it is on the disk.
fn copy<D: Device>(
    alloc: Global,
    device: &mut D,
    end: usize,
    behind: &[Vec<u8>],
) -> Result<Next, DeviceFault>
    requires readable { IsReadable (D.seen device.old) }
    requires end { end ≡ 16 + frames_size (recovered (D.seen device.old)) }
    ensures copied { IfOk result (λ next. IsCopied D.Device (D.seen device.old) (lists behind.now) device.new next) }
    ensures end { IfOk result (λ next. next.end ≡ end + frames_size (lists behind.now)) }
    ensures aside { KeepsAside D.Device device.old device.new }
{
    device.begin_next()?;
    let mut gathered = Gathered::begin(alloc)?;
    gathered.copy(alloc, device, end)?;
    gathered.put_all(device, behind)?;
    gathered.out.extend_from_slice(&[0])?;
    device.add_to_next(&gathered.out)?;
    device.sync_next()?;
    Ok(gathered.next)
}

/// What is to be written to the next file.
#[derive(Drop)]
struct Gathered {
    /// These bytes are not yet written.
    out: Vec<u8>,
    /// Where the next frame goes behind them.
    next: Next,
}

impl Gathered {
    /// The header.
    fn begin(alloc: Global) -> Result<Gathered, AllocError>
        ensures { IfOk result (λ gathered. AreGathered (Some []) [] gathered) }
    {
        let mut out = Vec::new(alloc);
        out.extend_from_slice(&HEADER)?;
        Ok(Gathered {
            out,
            next: Next {
                end: HEADER.len(),
                last: HEADER,
            },
        })
    }

    /// Adds the frames that a device has up to that end.
    fn copy<D: Device>(
        &mut self,
        alloc: Global,
        device: &mut D,
        end: usize,
    ) -> Result<(), DeviceFault>
        requires { AreGathered (D.next device.old) [] self.old }
        ensures copied { OnOk result (HasCopied D.Device (D.seen device.old) end device.new self.new) }
        ensures aside { KeepsAside D.Device device.old device.new }
    {
        let mut at = end.min(PIECE);
        let bytes = device.read_at(alloc, 0, at)?;
        if !bytes.starts_with(&HEADER) {
            return Err(CHANGED);
        }
        let mut walk = Walk::begin(bytes);
        'frames: loop {
            read_on(alloc, device, &mut walk, &mut at, end)?;
            let found = walk.next(alloc)?;
            let Some(batch) = found else {
                break;
            };
            self.put(device, &batch, &walk.last)?;
        }
        if walk.end != end {
            return Err(CHANGED);
        }
        Ok(())
    }

    /// Adds batches.
    fn put_all<D: Device>(&mut self, device: &mut D, batches: &[Vec<u8>]) -> Result<(), DeviceFault>
        ensures added { OnOk result ((front : List (List ℕ)) → AreGathered (D.next device.old) front self.old
            → AreGathered (D.next device.new) (front ++ lists batches.now) self.new) }
        ensures seen { D.seen device.new ≡ D.seen device.old }
        ensures aside { KeepsAside D.Device device.old device.new }
    {
        for batch in batches {
            let made = self.digest(batch)?;
            self.put(device, batch, &made)?;
        }
        Ok(())
    }

    /// The digest of a batch behind the last one.
    fn digest(&self, batch: &[u8]) -> Result<[u8; 16], DeviceFault>
        ensures { IfOk result (λ made. made ≡ digest self.now.next.last batch.now) }
    {
        if batch.len() >= MAX_BATCH {
            return Err(TOO_LONG);
        }
        Ok(head_of(&self.next.last, batch).digest)
    }

    /// Adds a batch with its digest, and writes what is gathered where that is much.
    fn put<D: Device>(
        &mut self,
        device: &mut D,
        batch: &[u8],
        made: &[u8; 16],
    ) -> Result<(), DeviceFault>
        requires { made.now ≡ digest self.old.next.last batch.now }
        ensures added { OnOk result ((front : List (List ℕ)) → AreGathered (D.next device.old) front self.old
            → AreGathered (D.next device.new) (front ++ batch.now ∷ []) self.new) }
        ensures last { OnOk result (self.new.next.last ≡ made.now) }
        ensures seen { D.seen device.new ≡ D.seen device.old }
        ensures aside { KeepsAside D.Device device.old device.new }
    {
        self.gather(batch, made)?;
        if self.out.len() < PIECE {
            return Ok(());
        }
        device.add_to_next(&self.out)?;
        self.out.clear();
        Ok(())
    }

    /// Adds a batch with its digest.
    fn gather(&mut self, batch: &[u8], made: &[u8; 16]) -> Result<(), DeviceFault>
        requires { made.now ≡ digest self.old.next.last batch.now }
        ensures added { OnOk result ((next : Option (List ℕ)) (front : List (List ℕ)) → AreGathered next front self.old
            → AreGathered next (front ++ batch.now ∷ []) self.new) }
        ensures last { OnOk result (self.new.next.last ≡ made.now) }
    {
        if batch.len() >= MAX_BATCH || self.next.end >= MAX_END {
            return Err(TOO_LONG);
        }
        let size = (batch.len() as u32).to_be_bytes();
        self.out.extend_from_slice(&[255])?;
        self.out.extend_from_slice(&size)?;
        self.out.extend_from_slice(made)?;
        self.out.extend_from_slice(batch)?;
        self.next.end += 21 + batch.len();
        self.next.last = *made;
        Ok(())
    }
}

/// Reads a device further, up to that end, until it is known whether a frame is ahead.
fn read_on<D: Device>(
    alloc: Global,
    device: &mut D,
    walk: &mut Walk,
    at: &mut usize,
    end: usize,
) -> Result<(), DeviceFault>
    ensures read { OnOk result ((batches : List (List ℕ)) → HasSeen D.Device (D.seen device.old) batches walk.old at.old end device.old
        → HasSeen D.Device (D.seen device.old) batches walk.new at.new end device.new) }
    ensures same { OnOk result ((walk.new.end ≡ walk.old.end) × (walk.new.last ≡ walk.old.last)) }
    ensures seen { D.seen device.new ≡ D.seen device.old }
    ensures next { D.next device.new ≡ D.next device.old }
    ensures aside { KeepsAside D.Device device.old device.new }
{
    'pieces: while *at < end && !is_decided(walk.ahead()) {
        let size = (end - *at).min(PIECE);
        let piece = device.read_at(alloc, *at, size)?;
        walk.add(alloc, &piece)?;
        *at += size;
    }
    Ok(())
}
