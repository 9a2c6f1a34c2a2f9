//! Why the system refused a call on a file.
#![tactic(auto)]

ghost use Rattle.std.specs.Prelude.{◌≡◌, Some};
ghost use Rattle.system_faults.specs.Faults.{fault_of_kind, system_fault};

use std::fmt::{self, Display, Formatter, Write};
use std::io::{self, ErrorKind};

/// The number of the error that Linux gives where a disk does not answer as it should (`EIO`).
const INPUT_OUTPUT: i32 = 5;

/// Why the system refused a call on a file.
#[derive(Clone, Copy, Debug, PartialEq, Eq)]
pub enum SystemFault {
    /// The path, or a folder of it, is not there.
    NotFound,
    /// The program may not do it.
    PermissionDenied,
    /// Something is there already.
    AlreadyExists,
    /// What should be a folder is none.
    NotADirectory,
    /// The path is that of a folder.
    IsADirectory,
    /// Nothing can be written on the disk.
    ReadOnlyFilesystem,
    /// Symbolic links lead in a circle.
    FilesystemLoop,
    /// The disk is full.
    StorageFull,
    /// The program's owner has no more room on the disk.
    QuotaExceeded,
    /// The file would be longer than a file may be.
    FileTooLarge,
    /// The file is in use, as one that is mounted by itself.
    ResourceBusy,
    /// The two paths are not of one file system.
    CrossesDevices,
    /// A name in the path is too long.
    InvalidFilename,
    /// The disk did not answer as it should.
    InputOutput,
    /// Memory was refused.
    OutOfMemory,
    /// Another server has begun to write.
    Overtaken,
    /// Nothing was told in time: it may be done, or not.
    Unclear,
    /// Some other fault.
    Other,
}

impl SystemFault {
    /// What an error of the system tells.
    pub fn of(error: &io::Error) -> SystemFault
        ensures { result ≡ system_fault error.now }
    {
        match error.raw_os_error() {
            Some(INPUT_OUTPUT) => SystemFault::InputOutput,
            _ => SystemFault::of_kind(error.kind()),
        }
    }

    /// The fault of a kind of error.
    fn of_kind(kind: ErrorKind) -> SystemFault
        ensures { result ≡ fault_of_kind kind }
    {
        match kind {
            ErrorKind::NotFound => SystemFault::NotFound,
            ErrorKind::PermissionDenied => SystemFault::PermissionDenied,
            ErrorKind::AlreadyExists => SystemFault::AlreadyExists,
            ErrorKind::NotADirectory => SystemFault::NotADirectory,
            ErrorKind::IsADirectory => SystemFault::IsADirectory,
            ErrorKind::ReadOnlyFilesystem => SystemFault::ReadOnlyFilesystem,
            ErrorKind::FilesystemLoop => SystemFault::FilesystemLoop,
            ErrorKind::StorageFull => SystemFault::StorageFull,
            ErrorKind::QuotaExceeded => SystemFault::QuotaExceeded,
            ErrorKind::FileTooLarge => SystemFault::FileTooLarge,
            ErrorKind::ResourceBusy => SystemFault::ResourceBusy,
            ErrorKind::CrossesDevices => SystemFault::CrossesDevices,
            ErrorKind::InvalidFilename => SystemFault::InvalidFilename,
            ErrorKind::OutOfMemory => SystemFault::OutOfMemory,
            _ => SystemFault::Other,
        }
    }
}

impl Display for SystemFault {
    fn fmt<W: Write>(&self, f: &mut Formatter<W>) -> fmt::Result {
        match self {
            SystemFault::NotFound => write!(f, "not found"),
            SystemFault::PermissionDenied => write!(f, "permission denied"),
            SystemFault::AlreadyExists => write!(f, "already exists"),
            SystemFault::NotADirectory => write!(f, "not a directory"),
            SystemFault::IsADirectory => write!(f, "is a directory"),
            SystemFault::ReadOnlyFilesystem => write!(f, "read-only filesystem"),
            SystemFault::FilesystemLoop => write!(f, "filesystem loop"),
            SystemFault::StorageFull => write!(f, "no storage space"),
            SystemFault::QuotaExceeded => write!(f, "quota exceeded"),
            SystemFault::FileTooLarge => write!(f, "file too large"),
            SystemFault::ResourceBusy => write!(f, "resource busy"),
            SystemFault::CrossesDevices => write!(f, "cross-device rename"),
            SystemFault::InvalidFilename => write!(f, "invalid filename"),
            SystemFault::InputOutput => write!(f, "input/output error"),
            SystemFault::OutOfMemory => write!(f, "out of memory"),
            SystemFault::Overtaken => write!(f, "overtaken by another server"),
            SystemFault::Unclear => write!(f, "no answer"),
            SystemFault::Other => write!(f, "other error"),
        }
    }
}
