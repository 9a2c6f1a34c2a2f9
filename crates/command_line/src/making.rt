//! State files that are made: of no batch.

ghost use Rattle.std.specs.Prelude.{◌≡◌, [], IfOk, IfErr};
ghost use Rattle.batch_file.specs.Frames.{IsReadable, recovered};
ghost use Rattle.command_line.specs.Makings.{FailsMaking};

use batch_file::frames::Frames;
use commands::CommandFault;
use disk_file::{MakeFault, make};
use std::fs::File;
use std::rt::Files;

/// Makes a file of a path, with these bytes, and gives them back.
pub(crate) fn write_new<'w, R: Files<File = File> + AllocGlobal>(
    rt: &R,
    path: &'w str,
    bytes: Vec<u8>,
) -> Result<Vec<u8>, CommandFault<'w>>
    ensures written { IfOk result (λ written. written ≡ bytes) }
    ensures refused { IfErr result (FailsMaking path.now) }
{
    match make(rt, path, &bytes) {
        Ok(()) => Ok(bytes),
        Err(MakeFault::Memory) => Err(CommandFault::OutOfMemory),
        Err(fault) => Err(CommandFault::Unmade(path, fault)),
    }
}

/// Makes a state file of no batch. It gives what is written there.
pub fn make_new<'w, R: Files<File = File> + AllocGlobal>(
    rt: &R,
    path: &'w str,
) -> Result<Vec<u8>, CommandFault<'w>>
    ensures written { IfOk result (λ written. IsReadable written.items) }
    ensures none { IfOk result (λ written. recovered written.items ≡ []) }
    ensures refused { IfErr result (FailsMaking path.now) }
{
    let frames = Frames::new(rt.alloc())?;
    let written = write_new(rt, path, frames.into_bytes())?;
    Ok(written)
}
