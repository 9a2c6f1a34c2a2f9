//! A file of the system as a device. No clause says that a method makes the calls that it notes: a body that notes a sync and
//! makes none would be proved as well. A test over another file system (`unit_tests`) compares the calls and their order.
//!
//! The lock is held on a file of its own beside it, since the file itself is another one after a replacement. All names of the
//! file lead to that lock: links to the file are refused, and one that is mounted by itself can't be replaced.

ghost use Rattle.std.specs.Prelude.{◌≡◌, [], ◌∷◌, ⊤, length, bit_and, IfOk, IfErr, OnOk, IfSome, IfNone, IsTrue, ◌↔◌, Some, None};
ghost use Rattle.std.specs.Fs.{file_type, metadata_mode, IsFile, IsSymlink};
ghost use Rattle.disk_file.specs.declared.faults.OpenFault.TheVariants as opening;
ghost use Rattle.disk_file.specs.Calls.{content, failures, next_content, next_on_disk, only_opened, LeftSince, MayLeave, ReadsTrue};
ghost use Rattle.batch_file.specs.Faults.{IsOfRoom};
ghost use Rattle.disk_file.specs.CallsParts.{logged, RenamesNothing};
ghost use Rattle.disk_file.specs.Moments.{counts_now_of, only_now_of, only_true_of};

use crate::before::{Before, Unknown};
use crate::call_log::{CallLog, DiskCall};
use crate::faults::OpenFault;
use crate::making::{folder_of, make_file, options};
use crate::source::DiskSource;
use batch_file::device::{Beginning, Device, DeviceFault, ReplaceFault};
use batch_file::source::ByteSource;
use std::alloc::Global;
use std::fs::{self, File, Metadata, OpenFile, TryLockError};
use std::io::{self, Read, Write};
use std::marker::PhantomData;
use std::os::unix::fs::{FileExt, MetadataExt, lchown};
use std::rt::Files;
use system_faults::SystemFault;

/// The bits by which a file's group and others may write it.
const OTHERS_WRITE: u32 = 0o022;

/// So many zeros are written at once.
const PIECE: usize = 1 << 16;

/// No next file was begun, or a call on it was refused since.
const NOT_BEGUN: DeviceFault = DeviceFault::Failed(SystemFault::NotFound);

/// An open file, as the calls here need one.
pub trait SystemFile: Read + Write + OpenFile + FileExt + Drop {
    /// Locks it until it is closed, or tells that another holds its lock.
    fn try_lock(&self) -> Result<(), TryLockError>;
}

impl SystemFile for File {
    fn try_lock(&self) -> Result<(), TryLockError> {
        File::try_lock(self)
    }
}

/// A file of the system, open for reading and writing and locked, and the paths of those beside it. `B` names what may have been
/// on its disk before.
#[derive(Drop)]
pub struct DiskFile<'r, R, F = File, B = Unknown> {
    rt: &'r R,
    pub(crate) file: F,
    folder: F,
    lock: F,
    path: String,
    lock_path: String,
    next_path: String,
    torn_path: String,
    /// The next file, where one was begun and no call on it was refused since.
    next: Option<F>,
    pub(crate) log: CallLog,
    before: PhantomData<B>,
}

/// The calls on a file that was opened, and of which nothing was read.
pub(crate) fn opened() -> CallLog
    ensures { result.calls ≡ only_opened [] }
{
    let mut log = CallLog::new();
    let _ = log.told(DiskCall::Opened(&[]), Ok(()));
    log
}

/// So many bytes of an open file, from that place on.
fn read_again<F: FileExt>(
    alloc: Global,
    file: &F,
    at: u64,
    size: usize,
) -> Result<Vec<u8>, DeviceFault>
    ensures { IfOk result (λ bytes. length bytes.items ≡ size) }
{
    let mut bytes = vec![in alloc; 0; size]?;
    file.read_exact_at(&mut bytes, at)?;
    Ok(bytes)
}

/// Writes so many zeros to an open file, from that place on.
fn write_zeros<F: FileExt>(alloc: Global, file: &F, at: u64, size: u64) -> io::Result<()> {
    let zeros = vec![in alloc; 0; PIECE]?;
    let mut at = at;
    let mut left = size;
    while left > PIECE as u64 {
        file.write_all_at(&zeros, at)?;
        at = at.wrapping_add(PIECE as u64);
        left -= PIECE as u64;
    }
    file.write_all_at(&zeros[..left as usize], at)
}

/// Whether the system says that there is no room for more.
fn is_of_room(reason: SystemFault) -> bool
    ensures { IsTrue result ↔ IsOfRoom reason }
{
    matches!(
        reason,
        SystemFault::StorageFull
            | SystemFault::QuotaExceeded
            | SystemFault::FileTooLarge
            | SystemFault::OutOfMemory
    )
}

/// Cuts a file off at that place, where it was not made longer for want of room, and gives what said so.
fn cut_off<F: OpenFile>(file: &F, at: u64, error: io::Error) -> io::Result<SystemFault>
    ensures { IfOk result IsOfRoom }
{
    let reason = SystemFault::of(&error);
    if !is_of_room(reason) {
        return Err(error);
    }
    file.set_len(at)?;
    Ok(reason)
}

/// Why a file of which the system tells this is not opened.
pub(crate) fn fault_of(found: &Metadata) -> Option<OpenFault>
    ensures link { IsSymlink (file_type found.now) → result ≡ Some opening.Link }
    ensures file { IfNone result (IsFile (file_type found.now)) }
    ensures owned { IfNone result (bit_and (metadata_mode found.now) 0o022 ≡ 0) }
{
    if found.is_symlink() {
        Some(OpenFault::Link)
    } else if !found.is_file() {
        Some(OpenFault::NotAFile)
    } else if found.nlink() > 1 {
        Some(OpenFault::SecondLink)
    } else if found.mode() & OTHERS_WRITE != 0 {
        Some(OpenFault::WritableByOthers)
    } else {
        None
    }
}

/// Whether a rename that the system refused for this reason has renamed nothing.
fn leaves_old(reason: SystemFault) -> bool
    ensures { IsTrue result ↔ RenamesNothing reason }
{
    matches!(
        reason,
        SystemFault::NotFound
            | SystemFault::PermissionDenied
            | SystemFault::NotADirectory
            | SystemFault::IsADirectory
            | SystemFault::ReadOnlyFilesystem
            | SystemFault::StorageFull
            | SystemFault::QuotaExceeded
            | SystemFault::ResourceBusy
            | SystemFault::CrossesDevices
    )
}

/// Opens the file of a path, where it is one file that no other may write. What the system tells of the path is asked first,
/// since to open a pipe would wait for another program.
fn open_checked<R: Files>(rt: &R, path: &str) -> Result<R::File, OpenFault> {
    let found = fs::symlink_metadata(rt, path)?;
    if let Some(fault) = fault_of(&found) {
        return Err(fault);
    }
    let file = options().open(rt, path)?;
    let opened = file.metadata()?;
    if (opened.dev(), opened.ino()) != (found.dev(), found.ino()) {
        return Err(OpenFault::InUse);
    }
    Ok(file)
}

/// Whether what the system tells of a path is told of this open file.
pub(crate) fn is_same<F: OpenFile>(found: io::Result<Metadata>, file: &F) -> bool {
    let (Ok(found), Ok(opened)) = (found, file.metadata()) else {
        return false;
    };
    (opened.dev(), opened.ino()) == (found.dev(), found.ino())
}

impl<'r, F: SystemFile, R: Files<File = F> + AllocGlobal, B: Before> DiskFile<'r, R, F, B> {
    /// The file as if it was opened now, and still locked. A next file that was begun is let go of.
    pub(crate) fn as_opened(self) -> DiskFile<'r, R, F, B>
        ensures { result.log.calls ≡ only_opened [] }
    {
        DiskFile {
            next: None,
            log: opened(),
            ..self
        }
    }

    /// Opens the file of a path and locks it: nothing is made but the file beside it that holds the lock. What is read of it
    /// may not be on the disk, where an earlier program could not write it.
    pub fn open(rt: &'r R, path: &str) -> Result<DiskSource<'r, R, F, B>, OpenFault>
        ensures begun { IfOk result (λ source. ⟦<DiskSource<'r, R, F, B> as ByteSource>⟧.told source ≡ []) }
    {
        let alloc = rt.alloc();
        let next_path = format!(in alloc; "{path}.next")?;
        let torn_path = format!(in alloc; "{path}.torn")?;
        let lock_path = format!(in alloc; "{path}.lock")?;
        let path = String::from_str(alloc, path)?;
        if let Some(fault) = fault_of(&fs::symlink_metadata(rt, path.as_str())?) {
            return Err(fault);
        }
        let folder = File::open(rt, folder_of(path.as_str()))?;
        let lock = options().create(true).open(rt, lock_path.as_str())?;
        lock.try_lock()?;
        let file = open_checked(rt, path.as_str())?;
        Ok(DiskSource::new(DiskFile {
            rt,
            file,
            folder,
            lock,
            path,
            lock_path,
            next_path,
            torn_path,
            next: None,
            log: opened(),
            before: PhantomData,
        }))
    }

    /// Makes another file beside this one, with its owner, group and mode.
    fn make_next(&self) -> io::Result<F> {
        let next_path = self.next_path.as_str();
        let _ = fs::remove_file(self.rt, next_path);
        let next = options().create_new(true).open(self.rt, next_path)?;
        let there = self.file.metadata()?;
        let made = next.metadata()?;
        if (made.uid(), made.gid()) != (there.uid(), there.gid()) {
            lchown(self.rt, next_path, Some(there.uid()), Some(there.gid()))?;
        }
        next.set_permissions(there.permissions())?;
        Ok(next)
    }

    /// Writes another file with these bytes beside this one.
    fn write_next(&self, bytes: &[u8]) -> io::Result<F> {
        let mut next = self.make_next()?;
        next.write_all(bytes)?;
        next.sync_all()?;
        Ok(next)
    }

    /// Notes a call on the next file, which is kept where the system took it, and removed where not.
    fn keep_next(
        &mut self,
        next: F,
        call: DiskCall<'_>,
        answer: io::Result<()>,
    ) -> Result<(), DeviceFault>
        ensures { self.new.log.calls ≡ logged call.entry result ∷ self.old.log.calls }
    {
        if answer.is_ok() {
            self.next = Some(next);
        } else {
            self.remove_next();
        }
        self.log.told(call, answer)
    }

    /// Removes what there is of a next file, and notes nothing.
    fn remove_next(&mut self)
        ensures { self.new.log ≡ self.old.log }
    {
        self.next = None;
        let _ = fs::remove_file(self.rt, self.next_path.as_str());
    }

    /// Puts the file that was written beside this one in its place. The inner result tells whether it is there on the disk.
    fn put_next(&mut self, next: F) -> Result<io::Result<()>, SystemFault>
        ensures log { self.new.log ≡ self.old.log }
        ensures untouched { IfErr result (λ _. self.new ≡ self.old) }
        ensures refused { IfErr result RenamesNothing }
    {
        if let Err(error) = fs::rename(self.rt, self.next_path.as_str(), self.path.as_str()) {
            let reason = SystemFault::of(&error);
            if leaves_old(reason) {
                return Err(reason);
            }
            return Ok(Err(error));
        }
        self.file = next;
        Ok(self.folder.sync_all())
    }
}

impl<'r, F: SystemFile, R: Files<File = F> + AllocGlobal, B: Before> Device
    for DiskFile<'r, R, F, B> {
    ghost seen = { λ device. content device.log.calls };

    ghost may_leave = { λ device left. MayLeave B.left device.log.calls left };

    ghost moment = { λ device. length device.log.calls };

    ghost left_since = { λ device t left. LeftSince B.left device.log.calls t left };

    ghost faults = { λ device. failures device.log.calls };

    ghost reads_true = { λ device. ReadsTrue device.log.calls };

    ghost next = { λ device. next_content device.log.calls };

    ghost next_on_disk = { λ device. next_on_disk device.log.calls };

    ghost counts_now = { λ device t left le now. counts_now_of B.left device.log.calls t left le now };

    ghost only_now = { λ device left since. only_now_of B.left device.log.calls left since };

    ghost only_true = { λ device left now. only_true_of B.left device.log.calls left now };

    // The system promises nothing of what it tells of a path.
    ghost tells_place = { λ _ _. ⊤ };

    // Nor of what it tells of room.
    ghost tells_full = { λ _ _ _. ⊤ };

    // Its lock keeps others away.
    ghost is_sole = { λ _ _. ⊤ };

    // It wants nothing.
    ghost tends = { λ _ _ due _. due ≡ None };

    fn is_in_place(&self) -> bool {
        is_same(
            fs::symlink_metadata(self.rt, self.path.as_str()),
            &self.file,
        ) && is_same(fs::metadata(self.rt, self.lock_path.as_str()), &self.lock)
    }

    fn write_at(&mut self, at: usize, bytes: &[u8]) -> Result<(), DeviceFault> {
        let at = at as u64;
        let answer = self.file.write_all_at(bytes, at);
        self.log.told(DiskCall::Wrote { at, bytes }, answer)
    }

    fn grow(&mut self, end: usize, size: usize) -> Result<Option<SystemFault>, DeviceFault> {
        let at = end as u64;
        let size = size as u64;
        let Err(error) = write_zeros(self.rt.alloc(), &self.file, at, size) else {
            let _ = self.log.told(DiskCall::Grew { at, size }, Ok(()));
            return Ok(None);
        };
        match cut_off(&self.file, at, error) {
            Ok(reason) => {
                let _ = self.log.told(DiskCall::Refused { at, size }, Ok(()));
                Ok(Some(reason))
            }
            Err(failed) => {
                self.log.told(DiskCall::Grew { at, size }, Err(failed))?;
                Ok(None)
            }
        }
    }

    fn sync(&mut self) -> Result<(), DeviceFault> {
        let answer = self.file.sync_data();
        self.log.told(DiskCall::Synced, answer)
    }

    // What was read may stand in the system's memory alone.
    fn begin(&mut self, _end: usize, _bytes: &[u8]) -> Result<Beginning, ReplaceFault> {
        Ok(Beginning::Copy)
    }

    fn confirm(&mut self) -> Result<(), DeviceFault> {
        Ok(())
    }

    fn tend(&mut self, _now: u64) -> Result<Option<u64>, DeviceFault> {
        Ok(None)
    }

    fn replace(&mut self, bytes: &[u8]) -> Result<(), ReplaceFault> {
        let put = match self.write_next(bytes) {
            Ok(next) => self.put_next(next),
            Err(error) => Err(SystemFault::of(&error)),
        };
        match put {
            Ok(answer) => Ok(self.log.told(DiskCall::Replaced(bytes), answer)?),
            Err(reason) => {
                let _ = fs::remove_file(self.rt, self.next_path.as_str());
                Err(ReplaceFault::Unplaced(reason))
            }
        }
    }

    fn read_at(&mut self, alloc: Global, at: usize, size: usize) -> Result<Vec<u8>, DeviceFault> {
        let at = at as u64;
        let bytes = read_again(alloc, &self.file, at, size)?;
        let _ = self.log.told(DiskCall::Read { at, bytes: &bytes }, Ok(()));
        Ok(bytes)
    }

    fn begin_next(&mut self) -> Result<(), DeviceFault> {
        self.next = None;
        match self.make_next() {
            Ok(next) => self.keep_next(next, DiskCall::Began, Ok(())),
            Err(error) => {
                self.remove_next();
                self.log.told(DiskCall::Began, Err(error))
            }
        }
    }

    fn add_to_next(&mut self, bytes: &[u8]) -> Result<(), DeviceFault> {
        let Some(mut next) = self.next.take() else {
            return Err(NOT_BEGUN);
        };
        let answer = next.write_all(bytes);
        self.keep_next(next, DiskCall::Added(bytes), answer)
    }

    fn sync_next(&mut self) -> Result<(), DeviceFault> {
        let Some(next) = self.next.take() else {
            return Err(NOT_BEGUN);
        };
        let answer = next.sync_all();
        self.keep_next(next, DiskCall::NextSynced, answer)
    }

    fn place_next(&mut self) -> Result<(), ReplaceFault> {
        let Some(next) = self.next.take() else {
            return Err(ReplaceFault::Unplaced(SystemFault::NotFound));
        };
        // Another file may have that name by now.
        let found = fs::symlink_metadata(self.rt, self.next_path.as_str());
        if !is_same(found, &next) {
            return Err(ReplaceFault::Unplaced(SystemFault::NotFound));
        }
        match self.put_next(next) {
            Ok(answer) => Ok(self.log.told(DiskCall::Placed, answer)?),
            Err(reason) => {
                self.remove_next();
                Err(ReplaceFault::Unplaced(reason))
            }
        }
    }

    fn drop_next(&mut self) {
        self.remove_next();
        let _ = self.log.told(DiskCall::Dropped, Ok(()));
    }

    fn set_aside(&self, torn: &[u8]) -> Result<(), DeviceFault> {
        let torn_path = self.torn_path.as_str();
        let _ = fs::remove_file(self.rt, torn_path);
        match make_file(self.rt, &self.folder, torn_path, torn) {
            Ok(()) => Ok(()),
            Err(error) => Err(DeviceFault::Failed(SystemFault::of(&error))),
        }
    }
}
