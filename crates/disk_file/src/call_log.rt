//! The calls that were made of the system on a file, as a list that only clauses read and that takes no memory.

ghost use Rattle.std.specs.Prelude.{◌≡◌, List, [], ◌∷◌, is_ok, IsErrOf};
ghost use Rattle.std.specs.Borrow.{ftrue};
ghost use Rattle.batch_file.specs.declared.device.DeviceFault.TheVariants.{Memory};
ghost use Rattle.disk_file.specs.Calls.{Logged};
ghost use Rattle.disk_file.specs.CallsParts.{logged, with_more, with_note};

use batch_file::device::DeviceFault;
use std::io;
use std::marker::{Model, PhantomData};
use system_faults::SystemFault;

/// A call of the system on the file.
#[derive(Clone, Copy)]
pub enum DiskCall<'b> {
    /// The file was opened, and had these bytes.
    Opened(&'b [u8]),
    /// These bytes were written at this place.
    Wrote { at: u64, bytes: &'b [u8] },
    /// So many zeros were written behind its end.
    Grew { at: u64, size: u64 },
    /// There was no room for so many, and what was written of them was cut off again.
    Refused { at: u64, size: u64 },
    /// What was done is on the disk (`fdatasync`).
    Synced,
    /// Another file with these bytes was renamed over it, and the folder synced.
    Replaced(&'b [u8]),
    /// The file was read at this place, and told these bytes.
    Read { at: u64, bytes: &'b [u8] },
    /// The next file was made beside it, without a byte.
    Began,
    /// These bytes were written behind what was written to the next file.
    Added(&'b [u8]),
    /// What was written to the next file is on the disk (`fsync`).
    NextSynced,
    /// The next file was renamed over it, and the folder synced.
    Placed,
    /// What there was of the next file was removed.
    Dropped,
}

/// The calls, the last one first.
#[derive(Drop)]
pub struct CallLog {
    marker: PhantomData<u8>,
    pub ghost calls: { List Logged },
}

impl Model for CallLog {
    ghost also_owns = { λ _. ftrue };
}

impl CallLog {
    /// No call.
    pub(crate) fn new() -> CallLog
        ensures { result.calls ≡ [] }
    {
        CallLog {
            marker: PhantomData,
        }
    }

    /// Notes a call by numbers: its kind, its place, 1 where it succeeded, and its size, if it has one.
    fn note(&mut self, _numbers: &[u64], _bytes: &[u8])
        ensures { self.new.calls ≡ with_note _numbers.now _bytes.now self.old.calls }
    {}

    /// Notes that the file that was opened had these bytes, too, behind those that are noted.
    pub(crate) fn more(&mut self, bytes: &[u8])
        ensures { self.new.calls ≡ with_more bytes.now self.old.calls }
    {
        self.note(&[9, 0, 1], bytes);
    }

    /// Notes a call with what the system answered, which it gives as that of a device.
    pub(crate) fn told(
        &mut self,
        call: DiskCall<'_>,
        answer: io::Result<()>,
    ) -> Result<(), DeviceFault>
        ensures noted { self.new.calls ≡ logged call.entry result ∷ self.old.calls }
        ensures answered { is_ok result ≡ is_ok answer }
        ensures failed { IsErrOf result Memory → ⊥ }
    {
        let succeeded = u64::from(answer.is_ok());
        match call {
            DiskCall::Opened(bytes) => self.note(&[0, 0, succeeded], bytes),
            DiskCall::Wrote { at, bytes } => self.note(&[1, at, succeeded], bytes),
            DiskCall::Grew { at, size } => self.note(&[10, at, succeeded, size], &[]),
            DiskCall::Refused { at, size } => self.note(&[11, at, succeeded, size], &[]),
            DiskCall::Synced => self.note(&[2, 0, succeeded], &[]),
            DiskCall::Replaced(bytes) => self.note(&[3, 0, succeeded], bytes),
            DiskCall::Read { at, bytes } => self.note(&[4, at, succeeded], bytes),
            DiskCall::Began => self.note(&[5, 0, succeeded], &[]),
            DiskCall::Added(bytes) => self.note(&[6, 0, succeeded], bytes),
            DiskCall::NextSynced => self.note(&[7, 0, succeeded], &[]),
            DiskCall::Placed => self.note(&[8, 0, succeeded], &[]),
            DiskCall::Dropped => self.note(&[12, 0, succeeded], &[]),
        }
        match answer {
            Ok(()) => Ok(()),
            Err(error) => Err(DeviceFault::Failed(SystemFault::of(&error))),
        }
    }
}
