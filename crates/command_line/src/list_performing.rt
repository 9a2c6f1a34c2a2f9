//! The commands on a list in etcd, from their words' meaning to what is written and how the program then ends.

ghost use Rattle.std.specs.Prelude.{◌≡◌, ◌⊎◌, [], ℕ, List, IfErr, IfOk, OnOk};
ghost use Rattle.commands.specs.NamedFiles.{bytes_in};
ghost use Rattle.commands.specs.Outputs.{IsUntouched, output, outputs};
ghost use Rattle.commands.specs.Performed.{IsPrinted, IsTold, IsUntold, IsUnwritten};
ghost use Rattle.commands.specs.declared.status.Status.TheVariants.{Done};
ghost use Rattle.command_line.specs.ListCommands.{list_of};
ghost use Rattle.command_line.specs.ListEndings.{AreLines, EndsListCommand, FailsTrialOn, Holds, IsCopyOf, IsListShown, IsNoState, IsNoStateFile};
ghost use Rattle.command_line.specs.ListFaults.{FailsSo};
ghost use Rattle.command_line.specs.Makings.{FailsMaking};
ghost use Rattle.command_line.specs.StateEndings.{IsTrial};
ghost use Rattle.standby.specs.Copied.{IsNotPut, IsPut, IsUntaken};
ghost use Rattle.standby.specs.Listed.{IsListOf};

use crate::call_files::CallFiles;
use crate::list_command::ListCommand;
use crate::list_keys::{ListKeys, of_list};
use crate::making::write_new;
use crate::state_performing::{told_trial, tried};
use batch_file::device::Device;
use batch_file::frames::Frames;
use batch_file::framing::read_batches;
use commands::{
    Answer, CommandFault, NamedFile, Printer, Status, moment_now, registry_of, told, told_state,
};
use standby::{ListFile, ListTerms, TakenList, put_list, take_list};
use state_file::StateFault;
use std::alloc::Global;
use std::fs::File;
use std::net::Net;
use std::rt::{Clock, Files};

/// So many seconds who makes a list leads, and one more for so many bytes.
const LEASE: u64 = 5;

const BYTES_A_SECOND: u64 = 1_000_000;

/// For how many seconds who makes a list of what stands in a file leads.
fn lease_for(file: &Option<NamedFile>) -> u64 {
    match file {
        Some(file) => LEASE + file.bytes.len() as u64 / BYTES_A_SECOND,
        None => LEASE,
    }
}

/// Puts a list of these bytes there, where there is none.
fn list_put<'r, 'w, R: Net + Clock + AllocGlobal>(
    rt: &'r R,
    terms: ListTerms<'w>,
    bytes: &[u8],
) -> Result<ListFile<'r, R>, CommandFault<'w>>
    ensures put { IfOk result (IsPut ⟦<ListFile<'r, R> as Device>⟧ bytes.now) }
    ensures refused { IfErr result (FailsSo IsNotPut terms.entry.prefix.now) }
{
    match put_list(rt, rt.alloc(), terms, bytes) {
        Ok(list) => Ok(list),
        Err(fault) => Err(of_list(terms.prefix, fault)),
    }
}

/// Takes the bytes of a list.
fn list_taken<'r, 'w, R: Net + Clock + AllocGlobal>(
    rt: &'r R,
    terms: ListTerms<'w>,
) -> Result<TakenList<'r, R>, CommandFault<'w>>
    ensures list { IfOk result (λ taken. IsListOf terms.entry.prefix.now taken.bytes.items) }
    ensures refused { IfErr result (FailsSo IsUntaken terms.entry.prefix.now) }
{
    match take_list(rt, rt.alloc(), terms) {
        Ok(taken) => Ok(taken),
        Err(fault) => Err(of_list(terms.prefix, fault)),
    }
}

/// Makes a list of no batch.
fn make_list<'r, 'w, R: Net + Clock + AllocGlobal>(
    rt: &'r R,
    terms: ListTerms<'w>,
) -> Result<ListFile<'r, R>, CommandFault<'w>>
    ensures put { IfOk result (λ list. (bytes : List ℕ) × Holds [] bytes × IsPut ⟦<ListFile<'r, R> as Device>⟧ bytes list) }
    ensures refused { IfErr result (FailsSo IsNotPut terms.entry.prefix.now) }
{
    match Frames::new(rt.alloc()) {
        Ok(frames) => list_put(rt, terms, frames.as_bytes()),
        Err(_) => Err(CommandFault::OutOfMemory),
    }
}

/// The bytes of a list of what stands in the state file of a path, which has to be right to its end.
fn copy_of<'w>(
    alloc: Global,
    path: &'w str,
    file: Option<NamedFile>,
) -> Result<Frames, CommandFault<'w>>
    ensures copied { IfOk result (IsCopyOf (bytes_in file)) }
    ensures refused { IfErr result (IsNoStateFile path.now (bytes_in file)) }
{
    let Some(file) = file else {
        return Err(CommandFault::CannotRead(path));
    };
    let _listing = told_state(alloc, path, Some(&file.bytes), None)?;
    match read_batches(alloc, &file.bytes) {
        Ok(read) => Ok(read.frames),
        Err(fault) => Err(CommandFault::of_state(path, StateFault::from(fault))),
    }
}

/// Makes a list of what stands in the state file of a path.
fn put_file<'r, 'w, R: Net + Clock + AllocGlobal>(
    rt: &'r R,
    path: &'w str,
    file: Option<NamedFile>,
    terms: ListTerms<'w>,
) -> Result<ListFile<'r, R>, CommandFault<'w>>
    ensures put { IfOk result (λ list. (batches : List (List ℕ)) × IsCopyOf (bytes_in file) batches
        × (bytes : List ℕ) × Holds batches bytes × IsPut ⟦<ListFile<'r, R> as Device>⟧ bytes list) }
    ensures refused { IfErr result (λ fault. FailsSo IsNotPut terms.entry.prefix.now fault ⊎ IsNoStateFile path.now (bytes_in file) fault) }
{
    let frames = copy_of(rt.alloc(), path, file)?;
    list_put(rt, terms, frames.as_bytes())
}

/// Makes a file at a path of what stands in a list.
fn take_file<'r, 'w, R: Files<File = File> + Net + Clock + AllocGlobal>(
    rt: &'r R,
    path: &'w str,
    terms: ListTerms<'w>,
) -> Result<(), CommandFault<'w>>
    ensures { IfErr result (λ fault. FailsSo IsUntaken terms.entry.prefix.now fault ⊎ FailsMaking path.now fault) }
{
    let taken = list_taken(rt, terms)?;
    let _written = write_new(rt, path, taken.bytes)?;
    Ok(())
}

/// What a list stands for.
fn shown<'w, R: Net + Clock + AllocGlobal>(
    rt: &R,
    terms: ListTerms<'w>,
) -> Result<Answer, CommandFault<'w>>
    ensures shown { IfOk result (IsListShown terms.entry.prefix.now) }
    ensures refused { IfErr result (λ fault. FailsSo IsUntaken terms.entry.prefix.now fault ⊎ IsNoState terms.entry.prefix.now fault) }
{
    let taken = list_taken(rt, terms)?;
    told_state(rt.alloc(), terms.prefix, Some(&taken.bytes), moment_now(rt))
}

/// How many codes and tokens a start on a list would end, under the registry of a file.
fn ended_by<'w, R: Net + Clock + AllocGlobal>(
    rt: &R,
    config: &'w str,
    file: Option<NamedFile>,
    terms: ListTerms<'w>,
) -> Result<usize, CommandFault<'w>>
    ensures done { IfOk result (IsTrial (bytes_in file)) }
    ensures refused { IfErr result (λ fault. FailsSo IsUntaken terms.entry.prefix.now fault ⊎ FailsTrialOn config.now (bytes_in file) terms.entry.prefix.now fault) }
{
    let registry = registry_of(rt.alloc(), config, file)?;
    let taken = list_taken(rt, terms)?;
    tried(rt.alloc(), &taken.bytes, registry, terms.prefix)
}

/// Prints an answer, and says how the program then ends. A write that fails is bad use.
fn print_answer<W: Printer, E: Printer>(answer: &Answer, out: &mut W, err: &mut E) -> Status
    requires { AreLines answer.now }
    ensures { let to = outputs (output W.contents W.writes out.old out.new) (output E.contents E.writes err.old err.new) in
        IsUnwritten result to ⊎ ((result ≡ Done) × IsUntouched to.err × IsPrinted answer.now to.out) }
{
    match answer.write_to(out) {
        Ok(()) => answer.status(),
        Err(_) => told(CommandFault::CannotWrite, err),
    }
}

/// What came of a command that prints nothing.
fn ended<T: Drop, E: Printer>(outcome: Result<T, CommandFault<'_>>, err: &mut E) -> Status
    ensures done { OnOk outcome.entry ((result ≡ Done) × (err.new ≡ err.old)) }
    ensures failed { IfErr outcome.entry (λ fault. IsUntold result (output E.contents E.writes err.old err.new)
        ⊎ IsTold fault result (output E.contents E.writes err.old err.new)) }
{
    match outcome {
        Ok(_done) => Status::Done,
        Err(fault) => told(fault, err),
    }
}

/// Carries out a command on a list, once it is known how that is asked.
fn perform_on<R: Files<File = File> + Net + Clock + AllocGlobal, W: Printer, E: Printer>(
    rt: &R,
    command: ListCommand<'_>,
    terms: ListTerms<'_>,
    file: Option<NamedFile>,
    out: &mut W,
    err: &mut E,
) -> Status
    requires { terms.prefix.now ≡ (list_of command).prefix.now }
    ensures { let to = outputs (output W.contents W.writes out.old out.new) (output E.contents E.writes err.old err.new) in
        IsUnwritten result to ⊎ EndsListCommand command.entry (bytes_in file) result to }
{
    match command {
        ListCommand::Show { .. } => match shown(rt, terms) {
            Ok(answer) => print_answer(&answer, out, err),
            Err(fault) => told(fault, err),
        },
        ListCommand::New { .. } => ended(make_list(rt, terms), err),
        ListCommand::From { path, .. } => ended(put_file(rt, path, file, terms), err),
        ListCommand::To { path, .. } => ended(take_file(rt, path, terms), err),
        ListCommand::Trial { config, .. } => match ended_by(rt, config, file, terms) {
            Ok(ended) => told_trial(ended, out, err),
            Err(fault) => told(fault, err),
        },
    }
}

/// Carries out a command on a list in etcd, and says how the program then ends. `files` are what stands in the file that it names, and
/// in that of the password.
pub fn perform_list<R: Files<File = File> + Net + Clock + AllocGlobal, W: Printer, E: Printer>(
    rt: &R,
    command: ListCommand<'_>,
    files: CallFiles<'_>,
    out: &mut W,
    err: &mut E,
) -> Status
    ensures { let to = outputs (output W.contents W.writes out.old out.new) (output E.contents E.writes err.old err.new) in
        IsUnwritten result to ⊎ EndsListCommand command.entry (bytes_in files.entry.named) result to }
{
    let CallFiles {
        named,
        password,
        ..
    } = files;
    let list = command.list();
    let keys = match ListKeys::of(rt, rt.alloc(), list, password) {
        Ok(keys) => keys,
        Err(fault) => return told(of_list(list.prefix, fault), err),
    };
    match keys.terms(list, lease_for(&named)) {
        Ok(terms) => perform_on(rt, command, terms, named, out, err),
        Err(fault) => told(of_list(list.prefix, fault), err),
    }
}
