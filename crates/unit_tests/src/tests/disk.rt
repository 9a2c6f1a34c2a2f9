//! A file of batches over files without a system: which calls are made of them, and in which order.

ghost use Rattle.std.specs.Prelude.{◌≡◌, IfOk};
ghost use Rattle.batch_file.specs.Frames.{IsOnDisk};

use batch_file::appending::BatchFile;
use batch_file::device::{Device, ReplaceFault};
use batch_file::device_source::DeviceSource;
use batch_file::frames::Frames;
use batch_file::source::read_whole;
use disk_file::{DiskFile, SystemFile, Unknown, make};
use std::alloc::{AllocError, Allocator, Global};
use std::cell::{Cell, RefCell};
use std::fmt::Debug;
use std::fs::{Metadata, OpenFile, OpenOptions, Permissions, TryLockError};
use std::io::{self, ErrorKind, Read, Seek, SeekFrom, Write};
use std::os::unix::fs::FileExt;
use std::process::Abort;
use std::rt::Files;
use std::test::Fail;

/// The calls that were made, a row each, and how many syncs and reads are to succeed before one is refused. Zeros that are written
/// one behind the other are two rows, where they begin and where they end.
#[derive(Drop)]
struct Calls {
    rows: RefCell<String>,
    successes: Cell<usize>,
    /// Where zeros end that were written just now.
    zeros: Cell<u64>,
    /// Zeros have no room beyond it.
    most: Cell<u64>,
    /// Whether it says so: else it fails there.
    is_full: Cell<bool>,
}

/// A machine on whose disk there is an empty file at each path.
#[derive(Clone, Copy)]
struct Machine<'c> {
    alloc: Global,
    calls: &'c Calls,
}

impl Machine<'_> {
    /// Notes a call on a path, with the bytes that it was given.
    fn note(&self, call: &str, path: &str, bytes: &[u8]) -> io::Result<()> {
        let bytes = hex::encode(self.alloc, bytes)?;
        let row = format!(in self.alloc; "{call} {path} {bytes}")?;
        let Ok(mut rows) = self.calls.rows.try_borrow_mut() else {
            return Err(io::Error::from(ErrorKind::Other));
        };
        rows.push_str(row.trim_end())?;
        rows.push('\n')?;
        Ok(())
    }

    /// Notes a sync or a read, and refuses it where it is that one's turn.
    fn try_call(&self, call: &str, path: &str) -> io::Result<()> {
        self.note(call, path, b"")?;
        let successes = self.calls.successes.get();
        self.calls.successes.set(successes.saturating_sub(1));
        if successes == 0 {
            return Err(io::Error::from_raw_os_error(5));
        }
        Ok(())
    }
}

impl Alloc for Machine<'_> {
    type A = Global;

    fn alloc(&self) -> Global {
        self.alloc
    }
}

/// What a file has for one who reads at a place: a file of the batch `abc`.
const THERE: [u8; 41] = *b"oauthd state v3\n\xff\0\0\0\x03UpJO_\x04\xac\xab`6\xb0\x84}f*\xbaabc\0";

/// An open file or folder. It goes by the name under which it was opened, also once it was renamed.
#[derive(Drop)]
struct Open<'c> {
    machine: Machine<'c>,
    path: String,
}

impl Read for Open<'_> {
    fn read(&mut self, _buf: &mut [u8]) -> io::Result<usize> {
        Ok(0)
    }
}

impl Write for Open<'_> {
    fn write(&mut self, buf: &[u8]) -> io::Result<usize> {
        self.machine.note("write", &self.path, buf)?;
        Ok(buf.len())
    }

    fn flush(&mut self) -> io::Result<()> {
        Ok(())
    }
}

impl Seek for Open<'_> {
    fn seek(&mut self, _to: SeekFrom) -> io::Result<u64> {
        Err(io::Error::from(ErrorKind::Unsupported))
    }
}

impl OpenFile for Open<'_> {
    fn metadata(&self) -> io::Result<Metadata> {
        Ok(Metadata::of_file(THERE.len() as u64))
    }

    fn set_len(&self, size: u64) -> io::Result<()> {
        let call = format!(in self.machine.alloc; "cut to {size}")?;
        self.machine.try_call(&call, &self.path)
    }

    fn sync_all(&self) -> io::Result<()> {
        self.machine.try_call("sync_all", &self.path)
    }

    fn sync_data(&self) -> io::Result<()> {
        let end = self.machine.calls.zeros.get();
        if end > 0 {
            let call = format!(in self.machine.alloc; "zeros to {end}")?;
            self.machine.note(&call, &self.path, b"")?;
            self.machine.calls.zeros.set(0);
        }
        self.machine.try_call("sync_data", &self.path)
    }

    fn set_permissions(&self, _perm: Permissions) -> io::Result<()> {
        self.machine.note("set_permissions", &self.path, b"")
    }
}

impl FileExt for Open<'_> {
    fn read_at(&self, buf: &mut [u8], offset: u64) -> io::Result<usize> {
        let call = format!(in self.machine.alloc; "read at {offset}")?;
        self.machine.try_call(&call, &self.path)?;
        let at = (offset as usize).min(THERE.len());
        let size = buf.len().min(THERE.len() - at);
        buf[..size].copy_from_slice(&THERE[at..at + size]);
        Ok(size)
    }

    fn write_at(&self, buf: &[u8], offset: u64) -> io::Result<usize> {
        if buf.iter().all(|byte| *byte == 0) {
            return self.write_zeros(buf.len(), offset);
        }
        let call = format!(in self.machine.alloc; "write at {offset}")?;
        self.machine.note(&call, &self.path, buf)?;
        Ok(buf.len())
    }
}

impl Open<'_> {
    /// Notes zeros, or refuses them where they would reach too far.
    fn write_zeros(&self, size: usize, offset: u64) -> io::Result<usize>
        ensures { IfOk result (λ count. count ≡ size) }
    {
        let calls = self.machine.calls;
        if calls.zeros.get() != offset {
            let call = format!(in self.machine.alloc; "zeros from {offset}")?;
            self.machine.note(&call, &self.path, b"")?;
        }
        let end = offset.saturating_add(size as u64);
        if end > calls.most.get() {
            let number = if calls.is_full.get() { 28 } else { 5 };
            return Err(io::Error::from_raw_os_error(number));
        }
        calls.zeros.set(end);
        Ok(size)
    }
}

impl SystemFile for Open<'_> {
    fn try_lock(&self) -> Result<(), TryLockError> {
        match self.machine.note("lock", &self.path, b"") {
            Ok(()) => Ok(()),
            Err(error) => Err(TryLockError::Error(error)),
        }
    }
}

impl<'c> Files for Machine<'c> {
    type File = Open<'c>;

    type Dir = Open<'c>;

    fn open_file(&self, how: &OpenOptions, path: &str) -> io::Result<Open<'c>> {
        let call = if how.asks_create_new() {
            "make"
        } else {
            "open"
        };
        self.note(call, path, b"")?;
        let path = String::from_str(self.alloc, path)?;
        Ok(Open {
            machine: *self,
            path,
        })
    }

    fn open_dir(&self, _path: &str) -> io::Result<Open<'c>> {
        Err(io::Error::from(ErrorKind::Unsupported))
    }

    fn metadata(&self, _path: &str) -> io::Result<Metadata> {
        Ok(Metadata::of_file(0))
    }

    fn symlink_metadata(&self, _path: &str) -> io::Result<Metadata> {
        Ok(Metadata::of_file(0))
    }

    fn copy(&self, _from: &str, _to: &str) -> io::Result<u64> {
        Err(io::Error::from(ErrorKind::Unsupported))
    }

    fn rename(&self, from: &str, to: &str) -> io::Result<()> {
        let call = format!(in self.alloc; "rename {from} to")?;
        self.note(&call, to, b"")
    }

    fn remove_file(&self, path: &str) -> io::Result<()> {
        self.note("remove", path, b"")
    }

    fn create_dir(&self, _path: &str) -> io::Result<()> {
        Err(io::Error::from(ErrorKind::Unsupported))
    }

    fn remove_dir(&self, _path: &str) -> io::Result<()> {
        Err(io::Error::from(ErrorKind::Unsupported))
    }

    fn remove_dir_all<B: Allocator>(&self, _alloc: B, _path: &str) -> io::Result<()> {
        Err(io::Error::from(ErrorKind::Unsupported))
    }
}

/// What is done with a file of batches.
#[derive(Clone, Copy, Debug)]
enum Call {
    Open,
    Append,
    AppendMore,
    AppendWithin(u64),
    AppendBroken,
    AppendAsked,
    Read,
    Replace,
    PutNext,
    ReadAll,
    SetAside,
    Make,
}

/// How a call ended.
fn told<E: Debug + Drop>(alloc: Global, answer: Result<(), E>) -> Result<String, AllocError> {
    match answer {
        Ok(()) => String::from_str(alloc, "done"),
        Err(fault) => format!(in alloc; "{fault:?}"),
    }
}

/// What was read, or why nothing was.
fn told_bytes<E: Debug + Drop>(
    alloc: Global,
    answer: Result<Vec<u8>, E>,
) -> Result<String, AllocError> {
    match answer {
        Ok(bytes) => hex::encode(alloc, &bytes),
        Err(fault) => format!(in alloc; "{fault:?}"),
    }
}

/// Writes a next file in two pieces, each on the disk before what follows, and puts it in the place of a file.
fn put_next<D: Device>(device: &mut D) -> Result<(), ReplaceFault> {
    device.begin_next()?;
    device.add_to_next(b"ab")?;
    device.sync_next()?;
    device.add_to_next(b"c")?;
    device.sync_next()?;
    device.place_next()
}

/// Forgets the calls that were made, and lets so many succeed.
fn begin_anew(calls: &Calls, successes: usize) {
    if let Ok(mut rows) = calls.rows.try_borrow_mut() {
        rows.clear();
    }
    calls.successes.set(successes);
}

/// Adds a batch, over a disk that takes no zeros beyond that place, and says that it has no room for them, or else fails.
fn append_within<D: Device>(
    alloc: Global,
    file: &mut BatchFile<D>,
    calls: &Calls,
    most: u64,
    is_full: bool,
) -> Result<String, AllocError>
    requires { IsOnDisk D.seen D.may_leave D.faults file.old }
{
    calls.most.set(most);
    calls.is_full.set(is_full);
    told(alloc, file.append(alloc, b"abc"))
}

/// Asks whether nobody else writes, and keeps the place of whoever does: for a file no call is made. Then it adds a batch.
fn append_asked<D: Device>(alloc: Global, file: &mut BatchFile<D>) -> Result<String, AllocError>
    requires { IsOnDisk D.seen D.may_leave D.faults file.old }
{
    let Ok(()) = file.confirm() else {
        return String::from_str(alloc, "not confirmed");
    };
    let Ok(None) = file.tend(1) else {
        return String::from_str(alloc, "not tended");
    };
    told(alloc, file.append(alloc, b"abc"))
}

/// Opens a file. For another call it then reads it to its end, puts one in its place, of a batch where that is to be read, else of
/// none, and does that, over a disk that refuses a sync or a read once so many have succeeded. It gives how the call ended.
fn ended(machine: Machine<'_>, call: Call, successes: usize) -> Result<String, Fail> {
    let Machine { alloc, calls } = machine;
    let mut source = DiskFile::<_, _, Unknown>::open(&machine, "state")?;
    if let Call::Open = call {
        return Ok(String::from_str(alloc, "done")?);
    }
    if let Call::ReadAll = call {
        begin_anew(calls, successes);
        return Ok(told_bytes(alloc, read_whole(alloc, &mut source))?);
    }
    if read_whole(alloc, &mut source)?.as_slice() != THERE.as_slice() {
        return Err(Fail::from("other bytes are read"));
    }
    let device = source.into_device();
    let mut frames = Frames::new(alloc)?;
    if let Call::Read = call {
        frames.add(b"abc")?;
    }
    let Ok(mut file) = BatchFile::place(device, frames) else {
        return Err(Fail::from("no file is put there"));
    };
    begin_anew(calls, successes);
    Ok(match call {
        Call::Open | Call::ReadAll => String::new(alloc),
        Call::Append => told(alloc, file.append(alloc, b"abc"))?,
        Call::AppendMore => {
            begin_anew(calls, 9);
            let Ok(()) = file.append(alloc, b"abc") else {
                return Err(Fail::from("no batch is added"));
            };
            begin_anew(calls, successes);
            append_within(alloc, &mut file, calls, 0, true)?
        }
        Call::AppendWithin(most) => append_within(alloc, &mut file, calls, most, true)?,
        Call::AppendBroken => append_within(alloc, &mut file, calls, 0, false)?,
        Call::AppendAsked => append_asked(alloc, &mut file)?,
        Call::Read => told_bytes(alloc, file.read_batch(alloc, 16))?,
        Call::Replace => told(alloc, file.replace(Frames::new(alloc)?))?,
        Call::PutNext => told(alloc, put_next(&mut file.device))?,
        Call::SetAside => told(alloc, file.device.set_aside(b"abc"))?,
        Call::Make => told(alloc, make(&machine, "other", b"abc"))?,
    })
}

/// The lock is held before the file is opened, and nothing is written.
const OPENED: [&str; 4] = ["open .", "open state.lock", "lock state.lock", "open state"];

/// Where the file has no zeros, they are on the disk first. Then comes, behind the header of 16 bytes, a byte 255, the batch's length,
/// the first 16 bytes of the SHA-256 of header, length and batch, and the batch, by one write, and one sync.
const APPENDED: [&str; 5] = [
    "zeros from 17 state.next",
    "zeros to 1048632 state.next",
    "sync_data state.next",
    "write at 16 state.next ff0000000355704a4f5f04acab6036b0847d662aba616263",
    "sync_data state.next",
];

/// What was written of the zeros is cut off again, and that is on the disk. Then as many are tried as the batch needs, before it is
/// told that there is no room.
const NO_ROOM: [&str; 6] = [
    "zeros from 17 state.next",
    "cut to 17 state.next",
    "sync_data state.next",
    "zeros from 17 state.next",
    "cut to 17 state.next",
    "sync_data state.next",
];

/// Where these have room, the batch is written over them.
const JUST_ROOM: [&str; 8] = [
    "zeros from 17 state.next",
    "cut to 17 state.next",
    "sync_data state.next",
    "zeros from 17 state.next",
    "zeros to 56 state.next",
    "sync_data state.next",
    "write at 16 state.next ff0000000355704a4f5f04acab6036b0847d662aba616263",
    "sync_data state.next",
];

/// Where it has zeros, one batch more takes one write and one sync, though there is no room for others.
const MORE: [&str; 2] = [
    "write at 40 state.next ff00000003e802f6e781d48b4d8c5064851968f5bc616263",
    "sync_data state.next",
];

/// A file is read until nothing more comes: what the system refuses to read is no end.
const ALL_READ: [&str; 2] = ["read at 0 state", "read at 41 state"];

/// What stands before the batch, and the batch.
const READ: [&str; 2] = ["read at 16 state.next", "read at 37 state.next"];

/// The next file is on the disk before it has the name, and the name before it is acknowledged.
const REPLACED: [&str; 7] = [
    "remove state.next",
    "make state.next",
    "set_permissions state.next",
    "write state.next 6f61757468642073746174652076330a00",
    "sync_all state.next",
    "rename state.next to state",
    "sync_all .",
];

/// All of the next file is on the disk before it has the name, and the name before it is acknowledged.
const NEXT_PUT: [&str; 9] = [
    "remove state.next",
    "make state.next",
    "set_permissions state.next",
    "write state.next 6162",
    "sync_all state.next",
    "write state.next 63",
    "sync_all state.next",
    "rename state.next to state",
    "sync_all .",
];

const SET_ASIDE: [&str; 5] = [
    "remove state.torn",
    "make state.torn",
    "write state.torn 616263",
    "sync_all state.torn",
    "sync_all .",
];

const MADE: [&str; 5] = [
    "open .",
    "make other",
    "write other 616263",
    "sync_all other",
    "sync_all .",
];

const FAILED: &str = "Failed(InputOutput)";

const UNPLACED: &str = "remove state.next\nUnplaced(InputOutput)";

const NOT_KEPT: &str = "remove state.next\nFailed(InputOutput)";

const UNREAD: &str = "Unread(InputOutput)";

/// All bytes of `THERE`.
const WHOLE: &str = "6f61757468642073746174652076330a\
    ff0000000355704a4f5f04acab6036b0847d662aba61626300";

const NOT_ASIDE: &str = "remove state.torn\nFailed(InputOutput)";

const UNMADE: &str = "remove other\nMake(InputOutput)";

#[test]
fn what_is_acknowledged_is_on_the_disk(rt: HostRuntime) -> Result<(), Fail> {
    let alloc = rt.alloc();
    let cases: [(Call, usize, &[&str], &str); 33] = [
        (Call::Open, 9, &OPENED, "done"),
        (Call::Append, 9, &APPENDED, "done"),
        (Call::Append, 0, &APPENDED[..3], FAILED),
        (Call::Append, 1, &APPENDED, FAILED),
        (Call::AppendMore, 9, &MORE, "done"),
        (Call::AppendMore, 0, &MORE, FAILED),
        (Call::AppendWithin(55), 9, &NO_ROOM, "NoRoom(StorageFull)"),
        (Call::AppendWithin(55), 0, &NO_ROOM[..2], FAILED),
        (Call::AppendWithin(55), 1, &NO_ROOM[..3], FAILED),
        (Call::AppendWithin(55), 3, &NO_ROOM, FAILED),
        (Call::AppendWithin(56), 9, &JUST_ROOM, "done"),
        (Call::AppendWithin(56), 2, &JUST_ROOM[..6], FAILED),
        (Call::AppendBroken, 9, &NO_ROOM[..1], FAILED),
        (Call::AppendAsked, 9, &APPENDED, "done"),
        (Call::Read, 9, &READ, "616263"),
        (Call::Read, 0, &READ[..1], FAILED),
        (Call::Read, 1, &READ, FAILED),
        (Call::Replace, 9, &REPLACED, "done"),
        (Call::Replace, 0, &REPLACED[..5], UNPLACED),
        (Call::Replace, 1, &REPLACED, FAILED),
        (Call::PutNext, 9, &NEXT_PUT, "done"),
        (Call::PutNext, 0, &NEXT_PUT[..5], NOT_KEPT),
        (Call::PutNext, 1, &NEXT_PUT[..7], NOT_KEPT),
        (Call::PutNext, 2, &NEXT_PUT, FAILED),
        (Call::ReadAll, 9, &ALL_READ, WHOLE),
        (Call::ReadAll, 0, &ALL_READ[..1], UNREAD),
        (Call::ReadAll, 1, &ALL_READ, UNREAD),
        (Call::SetAside, 9, &SET_ASIDE, "done"),
        (Call::SetAside, 0, &SET_ASIDE[..4], NOT_ASIDE),
        (Call::SetAside, 1, &SET_ASIDE, NOT_ASIDE),
        (Call::Make, 9, &MADE, "done"),
        (Call::Make, 0, &MADE[..4], UNMADE),
        (Call::Make, 1, &MADE, UNMADE),
    ];
    for (call, successes, rows, end) in cases {
        let calls = Calls {
            rows: RefCell::new(String::new(alloc)),
            successes: Cell::new(9),
            zeros: Cell::new(0),
            most: Cell::new(u64::MAX),
            is_full: Cell::new(true),
        };
        let machine = Machine {
            alloc,
            calls: &calls,
        };
        let ended = ended(machine, call, successes)?;
        let made = calls.rows.into_inner();
        let mut wanted = rows.join(alloc, "\n")?;
        wanted.push('\n')?;
        wanted.push_str(end)?;
        let found = format!(in alloc; "{made}{ended}")?;
        assert_eq!(rt; found.as_str(), wanted.as_str(), "{call:?} {successes}");
    }
    Ok(())
}
