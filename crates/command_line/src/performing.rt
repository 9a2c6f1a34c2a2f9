//! The program without its surroundings: words in, lines and a status out.

ghost use Rattle.std.specs.Prelude.{◌≡◌, ◌⊎◌, ℕ, List, Some, OnOk, IfErr, IfOk, is_some};
ghost use Rattle.daemon.specs.ByCount.{ServesCount, handed_count};
ghost use Rattle.command_line.specs.Endings.{EndsCall, EndsWords};
ghost use Rattle.command_line.specs.Faults.{IsOfServing, IsUnaudited};
ghost use Rattle.ports.specs.Listening.{Announces};
ghost use Rattle.command_line.specs.Listening.{EndsService, FailsService, files_in, ServeEnded};
ghost use Rattle.commands.specs.Outputs.{output, outputs};
ghost use Rattle.commands.specs.Performed.{IsUnwritten};

use crate::call::Call;
use crate::call_files::{CallFiles, read_files};
use crate::hook_files::take_hooks;
use crate::list_performing::perform_list;
use crate::service::{ServeWords, Service};
use crate::starting::{All, Machine, Starts, registry_alone, start_where};
use crate::state_performing::perform_state;
use crate::stopping::unheard;
use clients::Registry;
use commands::{CommandFault, Printer, Status, candidate_in, moment_now, perform_command, told};
use daemon::{AuditLog, ListenFault, MachineClock, serve};
use disk_file::{Before, OpenFault};
use serving::Stream;
use start_words::Options;
use std::fs::File;
use std::io::Stdout;
use std::net::Net;
use std::random::RandomSource;
use std::rt::{Clock, Files};

/// Serves so many connections.
fn serve_count<'r, 'w, R: Net + Clock + AllocGlobal, W: Printer>(
    rt: &'r R,
    given: &ServeWords<'w>,
    registry: Registry,
    out: &mut W,
) -> Result<(), CommandFault<'w>>
    ensures done { OnOk result (Announces (W.contents out.old) (W.contents out.new)) }
    ensures served { OnOk result (ServesCount ⟦<R::Stream as Stream>⟧ ⟦<MachineClock<'r, R> as serving::Clock>⟧
        (handed_count registry given.now.seed given.now.count)) }
    ensures refused { IfErr result (λ fault. (cause : ListenFault) × IsOfServing cause fault) }
{
    match serve(rt, given.address, registry, given.seed, given.count, out) {
        Ok(()) => Ok(()),
        Err(fault) => Err(unheard(fault)),
    }
}

/// Where it is told of each request, where options name a file or standard output.
fn audit_of<'w, R: Files<File = File> + Net + AllocGlobal>(
    rt: &R,
    options: &Options<'w>,
    stdout: Stdout,
) -> Result<Option<AuditLog>, CommandFault<'w>>
    ensures opened { IfOk result (λ log. is_some log ≡ is_some options.now.audit) }
    ensures refused { IfErr result (λ fault. (path : List ℕ) × (options.now.audit ≡ Some path) × IsUnaudited path fault) }
{
    let Some(path) = options.audit() else {
        return Ok(None);
    };
    match AuditLog::open(rt, path, stdout) {
        Ok(log) => Ok(Some(log)),
        Err(OpenFault::Memory) => Err(CommandFault::OutOfMemory),
        Err(fault) => Err(CommandFault::Unaudited(path, fault)),
    }
}

/// Serves, until that is over, or can't go on. Of the registry's text nothing stays in memory, but where the server has a file of its
/// state: then a reload may be refused.
fn serve_as<
    'r,
    'e,
    'w,
    R: Files<File = File> + Net + Clock + RandomSource + AllocGlobal,
    W: Printer,
    E: Printer + 'e,
    B: Before,
>(
    rt: &'r R,
    service: &Service<'w>,
    files: CallFiles<'w>,
    stdout: Stdout,
    out: &mut W,
    err: &mut E,
) -> Result<(), CommandFault<'w>>
    ensures done { OnOk result (ServeEnded ⟦<Machine<'r, 'e, R, E, B> as Starts>⟧.starts
        service.now (files_in files.entry) (output W.contents W.writes out.old out.new)) }
    ensures fault { IfErr result (λ fault. FailsService ⟦<Machine<'r, 'e, R, E, B> as Starts>⟧.starts
        service.now (files_in files.entry) fault
        (outputs (output W.contents W.writes out.old out.new) (output E.contents E.writes err.old err.new))) }
{
    let CallFiles {
        named,
        password,
        hooks,
    } = files;
    let candidate = candidate_in(rt.alloc(), service.config(), named)?;
    let given = match service {
        Service::Start(given) => given,
        Service::Serve(given) => return serve_count(rt, given, registry_alone(candidate), out),
    };
    let taken = take_hooks(rt.alloc(), &hooks)?;
    let audit = audit_of(rt, &given.options, stdout)?;
    let all = All {
        candidate,
        taken,
        password,
        audit,
    };
    Err(start_where::<_, _, _, B>(rt, given, all, out, err))
}

/// Serves, and says how the program then ends. `files` are what stands in the files that the service names; `stdout` is standard output,
/// where it may be told of requests.
pub fn perform_service<
    'r,
    'e,
    R: Files<File = File> + Net + Clock + RandomSource + AllocGlobal,
    W: Printer,
    E: Printer + 'e,
    B: Before,
>(
    rt: &'r R,
    service: &Service<'_>,
    files: CallFiles<'_>,
    stdout: Stdout,
    out: &mut W,
    err: &mut E,
) -> Status
    ensures { let to = outputs (output W.contents W.writes out.old out.new) (output E.contents E.writes err.old err.new) in
        IsUnwritten result to ⊎ EndsService ⟦<Machine<'r, 'e, R, E, B> as Starts>⟧.starts
        service.now (files_in files.entry) result to }
{
    match serve_as::<_, _, _, B>(rt, service, files, stdout, out, err) {
        Ok(()) => Status::Done,
        Err(fault) => told(fault, err),
    }
}

/// Does what was called for, on the files that it names, and says how the program then ends.
fn perform_call<
    'r,
    'e,
    R: Files<File = File> + Net + Clock + RandomSource + AllocGlobal,
    W: Printer,
    E: Printer + 'e,
    B: Before,
>(
    rt: &'r R,
    call: &Call<'_>,
    files: CallFiles<'_>,
    stdout: Stdout,
    out: &mut W,
    err: &mut E,
) -> Status
    ensures { let to = outputs (output W.contents W.writes out.old out.new) (output E.contents E.writes err.old err.new) in
        IsUnwritten result to ⊎ EndsCall ⟦<Machine<'r, 'e, R, E, B> as Starts>⟧.starts
        call.now (files_in files.entry) result to }
{
    match call {
        Call::Command(command) => {
            let file = files.named.as_ref();
            perform_command(rt.alloc(), *command, file, moment_now(rt), out, err)
        }
        Call::State(command) => perform_state(rt, *command, files.named, out, err),
        Call::List(command) => perform_list(rt, *command, files, out, err),
        Call::Service(service) => perform_service::<_, _, _, B>(
            rt, service, files, stdout, out, err,
        ),
    }
}

/// Does what words call for, and says how the program then ends. `words` are those behind the program's name. They are read
/// first, and then the files that they name. `stdout` is standard output, where a server may tell of requests.
pub fn perform<
    'r,
    'e,
    R: Files<File = File> + Net + Clock + RandomSource + AllocGlobal,
    W: Printer,
    E: Printer + 'e,
    B: Before,
>(rt: &'r R, words: &[String], stdout: Stdout, out: &mut W, err: &mut E) -> Status
    ensures { let to = outputs (output W.contents W.writes out.old out.new) (output E.contents E.writes err.old err.new) in
        IsUnwritten result to ⊎ EndsWords ⟦<Machine<'r, 'e, R, E, B> as Starts>⟧.starts
        words.now result to }
{
    let call = match Call::from_words(rt.alloc(), words) {
        Ok(call) => call,
        Err(fault) => return told(fault, err),
    };
    match read_files(rt, &call) {
        Ok(files) => perform_call::<_, _, _, B>(rt, &call, files, stdout, out, err),
        Err(fault) => told(fault, err),
    }
}
