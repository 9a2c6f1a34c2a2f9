//! Files that are made.

ghost use Rattle.std.specs.Prelude.{◌≡◌};
ghost use Rattle.std.specs.Path.{path_bytes};
ghost use Rattle.disk_file.specs.Folders.{folder_of};

use crate::faults::MakeFault;
use std::fs::{self, File, OpenFile, OpenOptions};
use std::io::{self, Write};
use std::os::unix::fs::OpenOptionsExt;
use std::path::Path;
use std::rt::Files;

/// A new file may be read and written by its owner alone.
const OWNER_ONLY: u32 = 0o600;

/// How a file is opened that is there, or is made.
pub(crate) fn options() -> OpenOptions {
    let mut options = OpenOptions::new();
    options.read(true).write(true).mode(OWNER_ONLY);
    options
}

/// The folder in which the file of a path lies.
pub(crate) fn folder_of(path: &str) -> Path<'_>
    ensures { path_bytes result ≡ folder_of path.now }
{
    match Path::new(path).parent() {
        None => Path::new("/"),
        Some(folder) if folder.as_os_str().is_empty() => Path::new("."),
        Some(folder) => folder,
    }
}

/// Makes a new file with these bytes in a folder, on the disk, or none.
pub(crate) fn make_file<R: Files>(
    rt: &R,
    folder: &R::File,
    path: &str,
    bytes: &[u8],
) -> io::Result<()> {
    let mut file = options().create_new(true).open(rt, path)?;
    let written = write_whole(&mut file, folder, bytes);
    if written.is_err() {
        let _ = fs::remove_file(rt, path);
    }
    written
}

/// Writes a new file of a folder, and waits until both are on the disk.
fn write_whole<F: OpenFile + Write>(file: &mut F, folder: &F, bytes: &[u8]) -> io::Result<()> {
    file.write_all(bytes)?;
    file.sync_all()?;
    folder.sync_all()
}

/// Makes a new file with these bytes, and waits until it is on the disk. Where something is there, it stays as it is.
pub fn make<R: Files + AllocGlobal>(rt: &R, path: &str, bytes: &[u8]) -> Result<(), MakeFault> {
    let folder = File::open(rt, folder_of(path))?;
    make_file(rt, &folder, path, bytes)?;
    Ok(())
}
