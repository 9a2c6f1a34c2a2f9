//! A file of the system that was opened, and is read in pieces before it is a device.

ghost use Rattle.std.specs.Prelude.{◌≡◌, ◌≤◌, ◌↔◌, [], List, ℕ, length, IfOk, IsTrue};
ghost use Rattle.disk_file.specs.Calls.{content, failures, only_opened};

use crate::before::{Before, Unknown};
use crate::file::{DiskFile, SystemFile, opened};
use batch_file::device::{Device, DeviceFault};
use batch_file::device_source::DeviceSource;
use batch_file::source::ByteSource;
use std::alloc::Global;
use std::fs::File;
use std::io::{self, ErrorKind};
use std::os::unix::fs::FileExt;
use std::rt::Files;

/// How often a read is tried that a signal interrupts.
const TRIES: usize = 1000;

/// A file that was opened and locked, and how far it was read.
#[derive(Drop)]
pub struct DiskSource<'r, R, F = File, B = Unknown> {
    device: DiskFile<'r, R, F, B>,
    /// So many of its bytes were read.
    at: u64,
    /// Its end was reached.
    over: bool,
    ghost opened: { device.log.calls ≡ only_opened (content device.log.calls) },
}

impl<'r, F: SystemFile, R: Files<File = F> + AllocGlobal, B: Before> DiskSource<'r, R, F, B> {
    /// Nothing was read of it.
    pub(crate) fn new(device: DiskFile<'r, R, F, B>) -> DiskSource<'r, R, F, B>
        requires { device.log.calls ≡ only_opened [] }
        ensures { ⟦<DiskSource<'r, R, F, B> as ByteSource>⟧.told result ≡ [] }
    {
        DiskSource {
            device,
            at: 0,
            over: false,
        }
    }

    /// What a crash may leave of the file is what may have stood on the disk before.
    pub fn into_file(self) -> DiskFile<'r, R, F, B>
        ensures opened { result.log.calls ≡ only_opened (content self.entry.device.log.calls) }
        ensures before { (c : List ℕ) → ⟦<DiskFile<'r, R, F, B> as Device>⟧.may_leave result c ↔ B.left c }
    {
        self.device
    }
}

impl<'r, F: SystemFile, R: Files<File = F> + AllocGlobal, B: Before> ByteSource
    for DiskSource<'r, R, F, B> {
    ghost told = { λ source. content source.device.log.calls };

    ghost is_over = { λ source. IsTrue source.over };

    ghost whole = { λ _ _. ⊥ };

    fn read_some(&mut self, alloc: Global, most: usize) -> Result<Vec<u8>, DeviceFault> {
        if self.over {
            return Ok(Vec::new(alloc));
        }
        let mut bytes = vec![in alloc; 0; most]?;
        let size = read_once(&self.device.file, &mut bytes, self.at)?;
        bytes.truncate(size);
        self.at = self.at.wrapping_add(size as u64);
        self.over = size == 0 && most > 0;
        self.device.log.more(&bytes);
        Ok(bytes)
    }

    fn rewind(&mut self) {
        self.at = 0;
        self.over = false;
        self.device.log = opened();
    }

    ghost told_whole = { λ source all has over. absurd has };
}

impl<'r, F: SystemFile, R: Files<File = F> + AllocGlobal, B: Before> DeviceSource
    for DiskSource<'r, R, F, B> {
    type File = DiskFile<'r, R, F, B>;

    ghost is_opened = { λ device bytes. device.log.calls ≡ only_opened bytes };

    fn into_device(self) -> DiskFile<'r, R, F, B> {
        self.device
    }

    fn again(device: DiskFile<'r, R, F, B>) -> DiskSource<'r, R, F, B> {
        DiskSource::new(device.as_opened())
    }
}

/// Reads what the system gives at once: nothing at the end of the file.
fn read_once<F: FileExt>(file: &F, bytes: &mut [u8], at: u64) -> io::Result<usize>
    ensures { IfOk result (λ size. size ≤ length bytes.old) }
{
    for _ in 0..TRIES {
        match file.read_at(bytes, at) {
            Err(error) if error.kind() == ErrorKind::Interrupted => {}
            answer => return answer,
        }
    }
    Err(io::Error::from(ErrorKind::Interrupted))
}
