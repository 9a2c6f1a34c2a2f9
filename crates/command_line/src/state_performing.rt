//! The commands on a state file, from their words' meaning to what is written and how the program then ends.

ghost use Rattle.std.specs.Prelude.{◌≡◌, ◌⊎◌, ◌↔◌, ℕ, List, IfOk, IfErr, IsTrue};
ghost use Rattle.commands.specs.Faults.{IsOfState};
ghost use Rattle.commands.specs.NamedFiles.{bytes_in};
ghost use Rattle.commands.specs.Outputs.{output, outputs, IsUntouched, Prints};
ghost use Rattle.commands.specs.Performed.{IsUnwritten};
ghost use Rattle.command_line.specs.StateEndings.{would_end, EndsStateCommand, FailsTrial, IsCannotRead, IsTrial, IsUnread, RefusesTrial, WouldEndSo};

use crate::making::make_new;
use crate::state_command::StateCommand;
use batch_file::source::Bytes;
use clients::Registry;
use commands::{CommandFault, NamedFile, Printer, Status, bytes_at, registry_of, told};
use lifetime::plan_of;
use state_file::StateFault;
use std::alloc::Global;
use std::fmt::{self, Display, Formatter, Write};
use std::fs::File;
use std::rt::Files;

/// How many codes and tokens a start would end.
#[derive(Clone, Copy)]
pub struct WouldEnd {
    pub ended: usize,
}

impl Display for WouldEnd {
    fn fmt<W: Write>(&self, f: &mut Formatter<W>) -> fmt::Result {
        let ended = self.ended;
        write!(
            f,
            "{ended} codes and tokens would end, beyond the registry\n"
        )
    }
}

/// Whether a state file is refused since it could not be read to its end.
fn is_unread(fault: &StateFault) -> bool
    ensures { IsTrue result ↔ IsUnread fault.now }
{
    matches!(fault, StateFault::Device(_))
}

/// What it is to a command that a start on the state file of a path is refused.
fn untried<'w>(path: &'w str, fault: StateFault) -> CommandFault<'w>
    ensures unread { IsUnread fault → IsCannotRead path.now result }
    ensures read { (IsUnread fault → ⊥) → IsOfState path.now fault result }
{
    if is_unread(&fault) {
        return CommandFault::CannotRead(path);
    }
    CommandFault::of_state(path, fault)
}

/// How many codes and tokens a start would end on these bytes, which stand at a path.
pub(crate) fn tried<'w>(
    alloc: Global,
    bytes: &[u8],
    registry: Registry,
    path: &'w str,
) -> Result<usize, CommandFault<'w>>
    ensures done { IfOk result (λ ended. (read : List ℕ) × WouldEndSo registry read ended) }
    ensures refused { IfErr result (RefusesTrial registry path.now) }
{
    let plan = plan_of(alloc, Bytes::new(bytes), registry, &[]).plan;
    match plan {
        Ok(plan) => Ok(plan.ended.unwrap_or(0)),
        Err(fault) => Err(untried(path, fault)),
    }
}

/// How many codes and tokens a start on the state file of a path would end, under the registry of a file. Nothing is written.
fn ended_by<'w, R: Files<File = File> + AllocGlobal>(
    rt: &R,
    config: &'w str,
    file: Option<NamedFile>,
    path: &'w str,
) -> Result<usize, CommandFault<'w>>
    ensures done { IfOk result (IsTrial (bytes_in file)) }
    ensures refused { IfErr result (FailsTrial config.now (bytes_in file) path.now) }
{
    let alloc = rt.alloc();
    let registry = registry_of(alloc, config, file)?;
    let Some(bytes) = bytes_at(rt, path)? else {
        return Err(CommandFault::CannotRead(path));
    };
    tried(alloc, &bytes, registry, path)
}

/// Tells how many codes and tokens a start would end, and says how the program then ends. A write that fails is bad use.
pub(crate) fn told_trial<W: Printer, E: Printer>(ended: usize, out: &mut W, err: &mut E) -> Status
    ensures { let to = outputs (output W.contents W.writes out.old out.new) (output E.contents E.writes err.old err.new) in
        IsUnwritten result to ⊎ ((result ≡ Status.Done) × IsUntouched to.err × Prints to.out (would_end ended)) }
{
    match out.print(&WouldEnd { ended }) {
        Ok(()) => Status::Done,
        Err(_) => told(CommandFault::CannotWrite, err),
    }
}

/// Carries out a command on a state file, and says how the program then ends. `file` is the registry's, where the command names
/// one, and `None` where that cannot be read.
pub fn perform_state<R: Files<File = File> + AllocGlobal, W: Printer, E: Printer>(
    rt: &R,
    command: StateCommand<'_>,
    file: Option<NamedFile>,
    out: &mut W,
    err: &mut E,
) -> Status
    ensures { let to = outputs (output W.contents W.writes out.old out.new) (output E.contents E.writes err.old err.new) in
        IsUnwritten result to ⊎ EndsStateCommand command.entry (bytes_in file) result to }
{
    match command {
        StateCommand::New { path } => match make_new(rt, path) {
            Ok(_written) => Status::Done,
            Err(fault) => told(fault, err),
        },
        StateCommand::Trial { config, path } => match ended_by(rt, config, file, path) {
            Ok(ended) => told_trial(ended, out, err),
            Err(fault) => told(fault, err),
        },
    }
}
