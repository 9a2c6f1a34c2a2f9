//! Connections until the program is stopped.

ghost use Rattle.std.specs.Prelude.{◌≡◌, ◌≢◌, ◌⊎◌, [], OnOk, OnErr, IfOk, IfErr, IfSome, IsSome};
ghost use Rattle.daemon.specs.Listening.{IsToldBy};
ghost use Rattle.ports.specs.Listening.{Announces};
ghost use Rattle.daemon.specs.Seeds.{IsSeeded};
ghost use Rattle.daemon.specs.Onward.{LivesInRow};
ghost use Rattle.daemon.specs.Starts.{IsFresh, ServesAnew, handed_anew, handed_by, opens};
ghost use Rattle.ports.specs.declared.fault.ListenFault.TheVariants.{NoSeed, Unwritten};
ghost use Rattle.outside.specs.declared.fault.LoopFault.TheVariants.{Keep};
ghost use Rattle.lifetime.specs.Given.{life_promises};
ghost use Rattle.lifetime.specs.Lives.{LivesBy};
ghost use Rattle.state_keeper.specs.Starting.{HasFront};
ghost use Rattle.line_journal.specs.Auditing.{IsTold, MayBeUntold};

use crate::announcement::Announcement;
use crate::call_log::CallLog;
use crate::fault::OpeningFault;
use crate::machine_clock::moment_now;
use crate::machine_clocks::MachineClocks;
use crate::machine_random::MachineRandom;
use crate::reliving::{Relived, live_on};
use crate::reloads::Reloads;
use crate::sockets::MachineSockets;
use crate::timed_disk::TimedDisk;
use batch_file::device::Device;
use batch_file::device_source::DeviceSource;
use clients::Registry;
use desk::Candidate;
use disk_file::{Before, DiskFile, DiskSource};
use event_loop::{Clocks, Journal, Limits, LoopFault, Sockets};
use hook_chain::Chain;
use lifetime::{AnewEnd, Life, LifeEnd, Means, Opening, Plan, Planned, live, live_anew, plan_of};
use line_journal::{AuditLog, Hearers, LineJournal};
use ports::{ListenFault, Ports};
use rand_chacha::ChaCha20Rng;
use rand_core::SeedableRng;
use rules_codec::KeptHook;
use state_file::StateFault;
use std::alloc::Global;
use std::fs::File;
use std::io::Write;
use std::net::{Net, SocketAddr};
use std::random::RandomSource;
use std::rt::{Clock, Files};

/// How a server goes on: by which limits it serves, and each how many seconds of a life it writes a report, if at all.
#[derive(Clone, Copy)]
pub struct Pace {
    pub limits: Limits,
    pub report: Option<u64>,
}

/// How a server is started: where it listens, and at which pace it goes on.
#[derive(Clone, Copy)]
pub struct Terms<'w> {
    pub address: &'w str,
    pub pace: Pace,
}

/// What keeps the state on which a server is started, by its name, the path of its registry's file, and the hooks that it is to have.
#[derive(Clone, Copy)]
pub struct StateTerms<'p, 'w, 'h> {
    pub name: &'p str,
    pub config: &'w str,
    pub hooks: &'h [KeptHook<'h>],
}

/// What is left of a server that was started anew and can't go on, once its connections are closed: why, and what it was handed
/// by the machine.
#[derive(Drop)]
pub struct Served<'r, R> {
    pub fault: LoopFault,
    pub sockets: MachineSockets<'r, 'static, R>,
    pub clocks: MachineClocks<'r, R>,
    pub random: MachineRandom<'r, R>,
}

/// What a server is started with: its registry, what is read of its state, and where it listens, if it does by then.
#[derive(Drop)]
pub struct Opened<S> {
    pub candidate: Candidate,
    pub source: S,
    pub ports: Option<Ports>,
}

/// What is left of a server that was started on its state and can't go on: how its last life ended, and what that was handed by the
/// machine.
#[derive(Drop)]
pub struct ServedOn<'r, 'w, R, D> {
    pub end: LifeEnd,
    pub device: TimedDisk<'r, R, D>,
    pub sockets: MachineSockets<'r, 'w, R>,
    pub clocks: MachineClocks<'r, R>,
    /// What those were replied who asked for a reload that then began.
    pub replies: CallLog,
}

/// A listener, and draws by random bytes of the system.
#[derive(Drop)]
pub(crate) struct Begun {
    pub ports: Ports,
    pub generator: ChaCha20Rng,
}

/// Draws by bytes of a random source that gave none yet, and a listener at an address, unless there is one.
fn begin<R: Net + RandomSource + AllocGlobal>(
    rt: &R,
    address: &str,
    ports: Option<Ports>,
    random: &mut MachineRandom<'_, R>,
) -> Result<Begun, ListenFault>
    ensures drawn { random.old.log.calls ≡ [] → IfOk result (λ begun. IsSeeded random.new begun.generator) }
    ensures there { IfOk result (λ begun. IfSome ports (λ there. begun.ports ≡ there)) }
    ensures unbarred { IfErr result (λ why. IsSome ports → why ≡ NoSeed) }
{
    let Some(seed) = random.seed() else {
        return Err(ListenFault::NoSeed);
    };
    let ports = match ports {
        Some(ports) => ports,
        None => Ports::listen(rt, rt.alloc(), address)?,
    };
    Ok(Begun {
        ports,
        generator: ChaCha20Rng::from_seed(seed),
    })
}

/// What a server is handed: sockets and clocks of the machine, which have noted nothing yet, a journal to which a life begins now,
/// and room for what it is to be told of.
pub(crate) fn means_of<'r, 'w, 'e, R: Clock, E: Write>(
    rt: &'r R,
    begun: Begun,
    reloads: Reloads<'r, 'w, R>,
    pace: Pace,
    mut journal: LineJournal<'e, E>,
) -> Means<MachineSockets<'r, 'w, R>, MachineClocks<'r, R>, LineJournal<'e, E>>
    ensures fresh { IsFresh result pace }
    ensures drawn { result.generator ≡ begun.generator }
    ensures ports { result.sockets.ports ≡ begun.ports }
    ensures reloads { result.sockets.reloads ≡ reloads.entry }
    ensures told { IsTold journal.entry.outlets.audit journal.entry.outlets.measures result.tellings
        ⊎ MayBeUntold journal.entry.outlets.audit result.tellings }
{
    let tellings = journal.begin(moment_now(rt), pace.report);
    Means {
        sockets: MachineSockets::new(rt, begun.ports, reloads, journal.measures()),
        clocks: MachineClocks::new(rt),
        journal,
        generator: begun.generator,
        limits: pace.limits,
        tellings,
    }
}

/// Listens at an address, tells where, and serves up to 64 connections at once until the program is stopped, with these
/// hooks from the first connection on, and with draws by random bytes of the system. The fault of a connection ends that
/// one alone, and is told to `err`, in at most one line a second; each request that was answered is told to `audit`, if there is one. What
/// it gives is why it can't go on.
pub fn start<
    'r,
    'e,
    R: Files<File = File> + Net + Clock + RandomSource + AllocGlobal,
    W: Write,
    E: Write,
>(
    rt: &'r R,
    terms: Terms<'_>,
    registry: Registry,
    hooks: Chain,
    audit: Option<AuditLog>,
    out: &mut W,
    err: &'e mut E,
) -> Result<Served<'r, R>, ListenFault>
    ensures done { OnOk result (Announces (W.contents out.old) (W.contents out.new)) }
    ensures serves { IfOk result (ServesAnew ⟦<LineJournal<'e, E> as Journal>⟧ (handed_anew registry hooks terms.entry.pace)) }
    ensures unblamed { IfOk result (λ served. served.fault ≢ Keep) }
    ensures silent { IfErr result (λ fault. fault ≢ Unwritten → out.new ≡ out.old) }
    ensures quiet { OnErr result (err.new ≡ err.old) }
{
    let mut random = MachineRandom::new(rt);
    let begun = begin(rt, terms.address, None, &mut random)?;
    let mut told = Announcement {
        address: begun.ports.address(),
        out,
    };
    let Ok(()) = told.open() else {
        return Err(ListenFault::Unwritten);
    };
    let hearers = Hearers::new(rt.alloc(), moment_now(rt), audit);
    let journal = LineJournal::new(rt, "", err, hearers);
    let key = registry.operator_key();
    let reloads = Reloads::new(rt, None, key, Vec::new(rt.alloc()));
    let means = means_of(rt, begun, reloads, terms.pace, journal);
    let AnewEnd {
        fault,
        sockets,
        clocks,
        mut journal,
    } = live_anew(rt.alloc(), registry, hooks, means);
    journal.end_report();
    Ok(Served {
        fault,
        sockets,
        clocks,
        random,
    })
}

/// A life on what was planned, and once it serves it is told where it listens.
#[tactic(auto, using(crate::proofs::Telling::told_by))]
fn live_told<D: Device + Drop, N: Sockets, C: Clocks, J: Journal, W: Write>(
    alloc: Global,
    device: D,
    planned: Result<Plan, StateFault>,
    means: Means<N, C, J>,
    address: SocketAddr,
    out: &mut W,
) -> Life<D, N, C, J>
    requires faultless { D.faults device ≡ 0 }
    requires front { IfOk planned (λ plan. HasFront (D.seen device) plan.origin plan.prepared.front) }
    ensures life { LivesBy (life_promises D.Device N.Sockets C.Clocks J.Journal) device planned means result }
    ensures told { IsToldBy W.contents out.old result.end out.new }
{
    let mut told = Announcement { address, out };
    live(alloc, device, planned, means, &mut told)
}

/// Reads the state of a server, listens at an address, unless it does so, and starts the server on what stands there, with
/// those of the hooks that it lacks. Once it is known that the start goes on it is told where it listens, and up to 64 connections are
/// served at once, by changes that are kept before a reply tells of them, until the program is stopped, or a reload is wanted: then
/// another life begins by the registry's file as it is then, or, where that is refused, by the registry as it was. What is told to
/// `err` is what the start ends or puts aside, and the faults of connections, in at most one line a second; each request that was
/// answered is told to `audit`, if there is one.
pub fn start_on<
    'r,
    'w,
    'e,
    R: Files<File = File> + Net + Clock + RandomSource + AllocGlobal,
    W: Write,
    E: Write,
    S: DeviceSource,
>(
    rt: &'r R,
    terms: Terms<'_>,
    state: StateTerms<'e, 'w, '_>,
    opened: Opened<S>,
    audit: Option<AuditLog>,
    out: &mut W,
    err: &'e mut E,
) -> Result<ServedOn<'r, 'w, R, S::File>, ListenFault>
    requires begun { S.told opened.source ≡ [] }
    ensures lives { IfOk result (LivesInRow (opens S.File.Device S.is_opened) ⟦<LineJournal<'e, E> as Journal>⟧
        (handed_by opened.candidate.registry terms.entry state.entry)
        (λ first. IsToldBy W.contents out.old first out.new)) }
    ensures unbarred { IfErr result (λ why. IsSome opened.ports → why ≡ NoSeed) }
    ensures silent { OnErr result (out.new ≡ out.old) }
    ensures quiet { OnErr result (err.new ≡ err.old) }
{
    let Opened {
        candidate,
        source,
        ports,
    } = opened;
    let mut random = MachineRandom::new(rt);
    let begun = begin(rt, terms.address, ports, &mut random)?;
    let Candidate { text, registry } = candidate;
    let reloads = Reloads::new(rt, Some(state.config), registry.operator_key(), text);
    let Planned { source, plan } = plan_of(rt.alloc(), source, registry, state.hooks);
    let address = begun.ports.address();
    let hearers = Hearers::new(rt.alloc(), moment_now(rt), audit);
    let journal = LineJournal::new(rt, state.name, err, hearers);
    let disk = TimedDisk::new(rt, source.into_device(), journal.measures());
    let means = means_of(rt, begun, reloads, terms.pace, journal);
    let first = live_told(rt.alloc(), disk, plan, means, address, out);
    let Relived { life, replies } = live_on::<R, E, S>(rt, terms.pace, first);
    let Life {
        end,
        device,
        sockets,
        clocks,
        mut journal,
    } = life;
    journal.end_report();
    Ok(ServedOn {
        end,
        device,
        sockets,
        clocks,
        replies,
    })
}

/// Listens at an address, opens and locks the file of a server's state, and starts the server on it. `B` names what may have been on
/// the file's disk before.
pub fn start_on_file<
    'r,
    'p,
    'w,
    'e,
    R: Files<File = File> + Net + Clock + RandomSource + AllocGlobal,
    W: Write,
    E: Write + 'e,
    B: Before,
>(
    rt: &'r R,
    terms: Terms<'_>,
    state: StateTerms<'p, 'w, '_>,
    candidate: Candidate,
    audit: Option<AuditLog>,
    out: &mut W,
    err: &mut E,
) -> Result<ServedOn<'r, 'w, R, DiskFile<'r, R, File, B>>, OpeningFault>
    ensures lives { IfOk result (LivesInRow (opens ⟦<DiskFile<'r, R, File, B> as Device>⟧ ⟦<DiskSource<'r, R, File, B> as DeviceSource>⟧.is_opened)
        ⟦<LineJournal<'e, E> as Journal>⟧ (handed_by candidate.registry terms.entry state.entry)
        (λ first. IsToldBy W.contents out.old first out.new)) }
    ensures silent { OnErr result (out.new ≡ out.old) }
    ensures quiet { OnErr result (err.new ≡ err.old) }
{
    let ports = Ports::listen(rt, rt.alloc(), terms.address)?;
    let source = DiskFile::<'r, R, File, B>::open(rt, state.name)?;
    let opened = Opened {
        candidate,
        source,
        ports: Some(ports),
    };
    Ok(start_on(rt, terms, state, opened, audit, out, err)?)
}
