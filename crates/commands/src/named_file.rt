//! The files that a command line names.

ghost use Rattle.std.specs.Prelude.{◌≡◌, Ok, Some, IfErr, MatchResult};
ghost use Rattle.std.specs.IoError.{error_kind};
ghost use Rattle.std.specs.Option.{option_copied};
ghost use Rattle.commands.specs.NamedFiles.{bytes_in, readers_by};
ghost use Rattle.commands.specs.StatusesParts.{unread};
ghost use Rattle.commands.specs.declared.fault.CommandFault.TheVariants.{OutOfMemory};

use crate::fault::CommandFault;
use std::fs;
use std::io::{self, ErrorKind};
use std::os::unix::fs::PermissionsExt;
use std::rt::Files;

/// Who may read a file.
#[derive(Clone, Copy, Debug, PartialEq, Eq)]
pub enum Readers {
    /// Its owner and its group at most; or it is no file on a disk, and that is not known.
    Chosen,
    /// Everybody on the machine.
    Everybody,
}

/// A file that a command line names.
#[derive(Drop)]
pub struct NamedFile {
    /// What stands in it.
    pub bytes: Vec<u8>,
    /// Who may read it.
    pub readers: Readers,
}

/// What stands in a file, if there is one.
pub fn bytes_in(file: Option<&NamedFile>) -> Option<&[u8]>
    ensures { option_copied result ≡ bytes_in (option_copied file.entry) }
{
    match file {
        Some(file) => Some(&file.bytes),
        None => None,
    }
}

/// Who may read a file of this mode.
fn readers_by(mode: u32) -> Readers
    ensures { result ≡ readers_by mode }
{
    if mode & 0o004 == 0 {
        Readers::Chosen
    } else {
        Readers::Everybody
    }
}

/// Who may read the file of a path.
fn readers_of(rt: &impl Files, path: &str) -> Readers {
    match fs::metadata(rt, path) {
        Ok(found) if found.is_file() => readers_by(found.permissions().mode()),
        _ => Readers::Chosen,
    }
}

/// What comes of reading a file: `None` where it cannot be read, unless memory was refused.
fn outcome_of(read: io::Result<Vec<u8>>) -> Result<Option<Vec<u8>>, CommandFault<'static>>
    ensures outcome { MatchResult read (λ bytes. result ≡ Ok (Some bytes)) (λ error. result ≡ unread (error_kind error)) }
    ensures memory { IfErr result (λ fault. fault ≡ OutOfMemory) }
{
    match read {
        Ok(bytes) => Ok(Some(bytes)),
        Err(error) => match error.kind() {
            ErrorKind::OutOfMemory => Err(CommandFault::OutOfMemory),
            _ => Ok(None),
        },
    }
}

/// What stands in the file of a path: `None` where it cannot be read.
pub fn bytes_at(
    rt: &(impl Files + AllocGlobal),
    path: &str,
) -> Result<Option<Vec<u8>>, CommandFault<'static>>
    ensures { IfErr result (λ fault. fault ≡ OutOfMemory) }
{
    outcome_of(fs::read(rt, path))
}

/// The file of a path: `None` where there is no path, or the file cannot be read.
pub fn file_at(
    rt: &(impl Files + AllocGlobal),
    path: Option<&str>,
) -> Result<Option<NamedFile>, CommandFault<'static>>
    ensures { IfErr result (λ fault. fault ≡ OutOfMemory) }
{
    let Some(path) = path else {
        return Ok(None);
    };
    match bytes_at(rt, path)? {
        Some(bytes) => {
            let readers = readers_of(rt, path);
            Ok(Some(NamedFile { bytes, readers }))
        }
        None => Ok(None),
    }
}
