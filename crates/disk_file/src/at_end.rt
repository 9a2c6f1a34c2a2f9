//! A file that is written at its end alone.

use crate::faults::OpenFault;
use crate::file::{fault_of, is_same};
use std::fs::{self, OpenFile, OpenOptions};
use std::io::ErrorKind;
use std::os::unix::fs::OpenOptionsExt;
use std::rt::Files;

/// A new file may be written by its owner alone, and read by its group.
const GROUP_READS: u32 = 0o640;

/// Why a path does not lead to one file that no other may write, where something is there. What the system tells of the path is
/// asked first, since to open a pipe would wait for another program.
fn refused<R: Files>(rt: &R, path: &str) -> Result<(), OpenFault> {
    match fs::symlink_metadata(rt, path) {
        Ok(found) => match fault_of(&found) {
            Some(fault) => Err(fault),
            None => Ok(()),
        },
        Err(error) if error.kind() == ErrorKind::NotFound => Ok(()),
        Err(error) => Err(OpenFault::from(error)),
    }
}

/// Opens a file to write at its end, where that is one file that no other may write, and makes it where there is none.
pub fn open_at_end<R: Files>(rt: &R, path: &str) -> Result<R::File, OpenFault> {
    refused(rt, path)?;
    let mut options = OpenOptions::new();
    options.append(true).create(true).mode(GROUP_READS);
    let file = options.open(rt, path)?;
    if !is_same(fs::symlink_metadata(rt, path), &file) {
        return Err(OpenFault::InUse);
    }
    match fault_of(&file.metadata()?) {
        Some(fault) => Err(fault),
        None => Ok(file),
    }
}
