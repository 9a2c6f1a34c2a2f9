//! Files in which a registry stands.

ghost use Rattle.std.specs.Prelude.{◌≡◌, IfOk, IfErr, option_map};
ghost use Rattle.commands.specs.Config.{HoldsNoRegistry, HoldsRegistry};
ghost use Rattle.commands.specs.NamedFiles.{bytes_in};
ghost use Rattle.desk.specs.Candidates.{text_of};

use crate::fault::CommandFault;
use crate::named_file::NamedFile;
use clients::Registry;
use desk::{Candidate, ReloadFault, candidate_of};
use std::alloc::Global;

/// The registry in a file, whose bytes are let go of then. First the file has to be read, and then to hold one.
pub fn registry_of<'w>(
    alloc: Global,
    path: &'w str,
    file: Option<NamedFile>,
) -> Result<Registry, CommandFault<'w>>
    ensures found { IfOk result (HoldsRegistry (bytes_in file)) }
    ensures none { IfErr result (HoldsNoRegistry path.now (bytes_in file)) }
{
    let candidate = candidate_in(alloc, path, file)?;
    Ok(candidate.registry)
}

/// What stands in a file, if there is one.
fn text_in(file: Option<NamedFile>) -> Option<Vec<u8>>
    ensures { option_map text_of result ≡ bytes_in file }
{
    match file {
        Some(file) => Some(file.bytes),
        None => None,
    }
}

/// The registry in a file, with its text. First the file has to be read, and then to hold one.
pub fn candidate_in<'w>(
    alloc: Global,
    path: &'w str,
    file: Option<NamedFile>,
) -> Result<Candidate, CommandFault<'w>>
    ensures found { IfOk result (λ candidate. HoldsRegistry (bytes_in file) candidate.registry) }
    ensures none { IfErr result (HoldsNoRegistry path.now (bytes_in file)) }
{
    match candidate_of(alloc, text_in(file)) {
        Ok(candidate) => Ok(candidate),
        Err(ReloadFault::CannotRead) => Err(CommandFault::CannotRead(path)),
        Err(ReloadFault::Config(fault, _spot)) => Err(CommandFault::Config(fault)),
        Err(ReloadFault::Memory) => Err(CommandFault::OutOfMemory),
    }
}
