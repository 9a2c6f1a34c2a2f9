//! The files that a call names.

ghost use Rattle.std.specs.Prelude.{◌≡◌, IfOk, IfErr};
ghost use Rattle.command_line.specs.Calls.{hooks_named_by};
ghost use Rattle.command_line.specs.Hooks.{said_of};
ghost use Rattle.command_line.specs.Listening.{files_in};
ghost use Rattle.commands.specs.declared.fault.CommandFault.TheVariants.{OutOfMemory};

use crate::call::Call;
use crate::hook_files::{HookRead, read_hooks};
use commands::{CommandFault, NamedFile, file_at};
use std::rt::Files;

/// The files that a call names.
#[derive(Drop)]
pub struct CallFiles<'w> {
    /// The file that it is about: `None` where it names none, or that cannot be read.
    pub named: Option<NamedFile>,
    /// That of a password: `None` where it names none, or that cannot be read.
    pub password: Option<NamedFile>,
    /// What stands in those of its hooks.
    pub hooks: Vec<HookRead<'w>>,
}

/// Reads the files that a call names.
pub fn read_files<'w>(
    rt: &(impl Files + AllocGlobal),
    call: &Call<'w>,
) -> Result<CallFiles<'w>, CommandFault<'static>>
    ensures hooks { IfOk result (λ files. said_of (files_in files).hooks ≡ hooks_named_by call.now) }
    ensures memory { IfErr result (λ fault. fault ≡ OutOfMemory) }
{
    let named = file_at(rt, call.file())?;
    let password = file_at(rt, call.password())?;
    let hooks = read_hooks(rt, call.hooks())?;
    Ok(CallFiles {
        named,
        password,
        hooks,
    })
}
