//! Servers that are started where their state is to stand: nowhere, in a file, or in a list in etcd.

ghost use Rattle.std.specs.Prelude.{◌≡◌, [], IfOk, is_some};
ghost use Rattle.daemon.specs.Starts.{opens};
ghost use Rattle.command_line.specs.Places.{IsStarted, all_of, answers, lease_of};
ghost use Rattle.command_line.specs.Services.{limits_of, pace_of};
ghost use Rattle.command_line.specs.Startings.{Startings, startings};
ghost use Rattle.commands.specs.Outputs.{output, outputs};
ghost use Rattle.standby.specs.Opened.{IsOpenedBy};
ghost use Rattle.start_words.specs.Lists.{at_file, at_list, list_said, nowhere, place_of};

use crate::hook_files::{HooksTaken, kept_hooks};
use crate::list_keys::{ListKeys, of_list};
use crate::stopping::{deaf, end_of, unopened};
use batch_file::device::Device;
use batch_file::device_source::DeviceSource;
use batch_file::source::ByteSource;
use clients::Registry;
use commands::{CommandFault, NamedFile, Printer};
use daemon::{
    AuditLog, LineJournal, MachineClock, Opened, Pace, StateTerms, Terms, start, start_on,
    start_on_file,
};
use desk::Candidate;
use disk_file::{Before, DiskFile, DiskSource};
use etcd_client::{Asking, Members};
use event_loop::{Journal, Limits};
use hook_chain::Chain;
use ports::Ports;
use rules_codec::KeptHook;
use serving::Stream;
use standby::{Door, ListFault, ListFile, ListSource, open_list};
use start_words::{ListWords, Options, StartWords, StatePlace, Waiting};
use std::fs::File;
use std::net::Net;
use std::random::RandomSource;
use std::rt::{Clock, Files};

/// What faults and reports are told to, as lines.
type Lines<'e, E> = LineJournal<'e, E>;

/// The file of a server's state.
type Disk<'r, R, B> = DiskFile<'r, R, File, B>;

/// That file, before it is written.
type Source<'r, R, B> = DiskSource<'r, R, File, B>;

/// What comes of the servers of a machine that are started: only contracts cite it.
pub trait Starts {
    /// How each may end.
    ghost starts: { Startings };
}

/// The machine, by its file of a state and by what is told to of faults. No program has a value of it.
pub type Machine<'r, 'e, R, E, B> = (Source<'r, R, B>, Lines<'e, E>);

impl<
    'r,
    'e,
    R: Files<File = File> + Net + Clock + RandomSource + AllocGlobal,
    E: Printer + 'e,
    B: Before,
> Starts for (Source<'r, R, B>, Lines<'e, E>) {
    ghost starts = { startings ⟦<MachineClock<'r, R> as serving::Clock>⟧
        (opens ⟦<Disk<'r, R, B> as Device>⟧ ⟦<Source<'r, R, B> as DeviceSource>⟧.is_opened)
        (opens ⟦<ListFile<'r, R> as Device>⟧ ⟦<ListSource<'r, R> as DeviceSource>⟧.is_opened)
        ⟦<Lines<'e, E> as Journal>⟧ ⟦<R::Stream as Stream>⟧ };
}

/// All that a server has that is started: its registry, its hooks, what stands in the file of a password, and where it is told of
/// requests.
#[derive(Drop)]
pub(crate) struct All<'w> {
    pub candidate: Candidate,
    pub taken: HooksTaken<'w>,
    pub password: Option<NamedFile>,
    pub audit: Option<AuditLog>,
}

/// The limits by which options say that a server serves.
fn limits_of(options: &Options<'_>) -> Limits
    ensures { result ≡ limits_of options.now }
{
    Limits {
        idle: u64::from(options.silence()),
        crowded: u64::from(options.full()),
        report: Some(1),
        ahead: options.ahead(),
    }
}

/// The pace at which they say that it goes on.
fn pace_of(options: &Options<'_>) -> Pace
    ensures { result ≡ pace_of options.now }
{
    Pace {
        limits: limits_of(options),
        report: options.report().map(u64::from),
    }
}

/// Where and how a server serves.
fn terms_of<'w>(given: &StartWords<'w>) -> Terms<'w>
    ensures { result ≡ record { address = given.now.address; pace = pace_of given.now.options } }
{
    Terms {
        address: given.address,
        pace: pace_of(&given.options),
    }
}

/// By which name its state is told of, and what else is to be known of that.
fn state_terms<'w, 'h>(
    given: &StartWords<'w>,
    name: &'w str,
    hooks: &'h [KeptHook<'h>],
) -> StateTerms<'w, 'w, 'h>
    ensures { result ≡ record { name = name.entry; config = given.now.config; hooks = hooks.entry } }
{
    StateTerms {
        name,
        config: given.config,
        hooks,
    }
}

/// A registry by itself: its text is let go of.
pub(crate) fn registry_alone(candidate: Candidate) -> Registry
    ensures { result ≡ candidate.registry }
{
    candidate.registry
}

/// Starts a server that keeps nothing, and gives why it serves nothing, or no longer.
fn start_anew<
    'r,
    'e,
    'w,
    R: Files<File = File> + Net + Clock + RandomSource + AllocGlobal,
    W: Printer,
    E: Printer + 'e,
    B: Before,
>(rt: &'r R, given: &StartWords<'w>, all: All<'w>, out: &mut W, err: &mut E) -> CommandFault<'w>
    requires { place_of given.now.options ≡ nowhere }
    ensures { let to = outputs (output W.contents W.writes out.old out.new) (output E.contents E.writes err.old err.new) in
        IsStarted ⟦<Machine<'r, 'e, R, E, B> as Starts>⟧.starts given.now.address.now (all_of all.entry given.now.options) result to }
{
    let All {
        candidate,
        taken,
        audit,
        ..
    } = all;
    let HooksTaken { chain, .. } = taken;
    let registry = registry_alone(candidate);
    match start(rt, terms_of(given), registry, chain, audit, out, err) {
        Ok(served) => CommandFault::Stopped(served.fault, None),
        Err(fault) => deaf(given.address, fault),
    }
}

/// Starts a server on the file of its state, and gives why it serves nothing, or no longer.
fn start_at_file<
    'r,
    'e,
    'w,
    R: Files<File = File> + Net + Clock + RandomSource + AllocGlobal,
    W: Printer,
    E: Printer + 'e,
    B: Before,
>(
    rt: &'r R,
    given: &StartWords<'w>,
    path: &'w str,
    all: All<'w>,
    out: &mut W,
    err: &mut E,
) -> CommandFault<'w>
    requires { place_of given.now.options ≡ at_file path.now }
    ensures { let to = outputs (output W.contents W.writes out.old out.new) (output E.contents E.writes err.old err.new) in
        IsStarted ⟦<Machine<'r, 'e, R, E, B> as Starts>⟧.starts given.now.address.now (all_of all.entry given.now.options) result to }
{
    let All {
        candidate,
        taken,
        audit,
        ..
    } = all;
    let HooksTaken { codes, .. } = taken;
    let Ok(hooks) = kept_hooks(rt.alloc(), &codes) else {
        return CommandFault::OutOfMemory;
    };
    let state = state_terms(given, path, &hooks);
    match start_on_file::<_, _, _, B>(rt, terms_of(given), state, candidate, audit, out, err) {
        Ok(served) => end_of(path, served.end),
        Err(fault) => unopened(given.address, path, fault),
    }
}

/// A list in etcd, opened once nobody else leads. Where those who come meanwhile are answered it listens, and goes on to listen
/// there. `password` is what stands in the file of the user's password.
fn list_opened<'r, 'w, R: Net + Clock + AllocGlobal>(
    rt: &'r R,
    given: &StartWords<'w>,
    list: ListWords<'w>,
    password: Option<NamedFile>,
    candidate: Candidate,
) -> Result<Opened<ListSource<'r, R>>, ListFault>
    ensures leads { IfOk result (λ opened. IsOpenedBy ⟦<Asking<'r, R> as Members>⟧ list.entry.prefix.now (lease_of given.now) opened.source) }
    ensures untold { IfOk result (λ opened. ⟦<ListSource<'r, R> as ByteSource>⟧.told opened.source ≡ []) }
    ensures handed { IfOk result (λ opened. opened.candidate ≡ candidate) }
    ensures heard { IfOk result (λ opened. is_some opened.ports ≡ answers given.now.options.waiting) }
{
    let keys = ListKeys::of(rt, rt.alloc(), list, password)?;
    let terms = keys.terms(list, u64::from(given.options.lease()))?;
    let mut door = match given.options.waiting() {
        Waiting::Deaf => Door::none(rt),
        Waiting::Answers => Door::at(rt, rt.alloc(), given.address)?,
    };
    let source = open_list(rt, rt.alloc(), terms, &mut door)?;
    Ok(Opened {
        candidate,
        source,
        ports: door.into_ports(),
    })
}

/// Starts a server on a list in etcd, once nobody else leads, and gives why it serves nothing, or no longer.
fn start_at_list<
    'r,
    'e,
    'w,
    R: Files<File = File> + Net + Clock + RandomSource + AllocGlobal,
    W: Printer,
    E: Printer + 'e,
    B: Before,
>(
    rt: &'r R,
    given: &StartWords<'w>,
    list: ListWords<'w>,
    all: All<'w>,
    out: &mut W,
    err: &mut E,
) -> CommandFault<'w>
    requires { place_of given.now.options ≡ at_list (list_said list) }
    ensures { let to = outputs (output W.contents W.writes out.old out.new) (output E.contents E.writes err.old err.new) in
        IsStarted ⟦<Machine<'r, 'e, R, E, B> as Starts>⟧.starts given.now.address.now (all_of all.entry given.now.options) result to }
{
    let All {
        candidate,
        taken,
        password,
        audit,
    } = all;
    let HooksTaken { codes, .. } = taken;
    let Ok(hooks) = kept_hooks(rt.alloc(), &codes) else {
        return CommandFault::OutOfMemory;
    };
    let opened = match list_opened(rt, given, list, password, candidate) {
        Ok(opened) => opened,
        Err(fault) => return of_list(list.prefix, fault),
    };
    let state = state_terms(given, list.prefix, &hooks);
    match start_on(rt, terms_of(given), state, opened, audit, out, err) {
        Ok(served) => end_of(list.prefix, served.end),
        Err(why) => deaf(given.address, why),
    }
}

/// Starts a server where its state is to stand, and gives why it serves nothing, or no longer.
pub(crate) fn start_where<
    'r,
    'e,
    'w,
    R: Files<File = File> + Net + Clock + RandomSource + AllocGlobal,
    W: Printer,
    E: Printer + 'e,
    B: Before,
>(rt: &'r R, given: &StartWords<'w>, all: All<'w>, out: &mut W, err: &mut E) -> CommandFault<'w>
    ensures { let to = outputs (output W.contents W.writes out.old out.new) (output E.contents E.writes err.old err.new) in
        IsStarted ⟦<Machine<'r, 'e, R, E, B> as Starts>⟧.starts given.now.address.now (all_of all.entry given.now.options) result to }
{
    match given.options.place() {
        StatePlace::Nowhere => start_anew::<_, _, _, B>(rt, given, all, out, err),
        StatePlace::File(path) => start_at_file::<_, _, _, B>(rt, given, path, all, out, err),
        StatePlace::Etcd(list) => start_at_list::<_, _, _, B>(rt, given, list, all, out, err),
    }
}
