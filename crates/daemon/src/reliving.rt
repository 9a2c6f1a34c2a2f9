//! One life behind another, on what keeps the state, and by the same sockets.

ghost use Rattle.std.specs.Prelude.{◌≡◌, ◌↔◌, None, IsTrue, IfOk, IfErr};
ghost use Rattle.lifetime.specs.Openings.{IsOpenedBy};
ghost use Rattle.daemon.specs.Onward.{EndsForReload, Follows, LivesTo};
ghost use Rattle.daemon.specs.Reloading.{IsGranted};
ghost use Rattle.daemon.specs.Reliving.{IsToldOf, LivesAs, Relives, estate_of};
ghost use Rattle.daemon.specs.Starts.{opens};

use crate::call_log::CallLog;
use crate::machine_clocks::MachineClocks;
use crate::reloads::{Heir, Heirs, Reloads, Wanted};
use crate::resumption::Resumption;
use crate::sockets::{Left, MachineSockets};
use crate::starting::{Begun, Pace, means_of};
use crate::timed_disk::TimedDisk;
use batch_file::device_source::DeviceSource;
use desk::{Candidate, Reloaded};
use event_loop::{Journal, LoopFault};
use lifetime::{Life, LifeEnd, Planned, live, plan_of};
use line_journal::LineJournal;
use ports::Ports;
use std::fs::File;
use std::io::Write;
use std::net::Net;
use std::random::RandomSource;
use std::rt::{Clock, Files};

/// A life over the machine.
type MachineLife<'r, 'w, 'e, R, E, D> = Life<
    TimedDisk<'r, R, D>,
    MachineSockets<'r, 'w, R>,
    MachineClocks<'r, R>,
    LineJournal<'e, E>,
>;

/// What a life leaves to another one.
#[derive(Drop)]
struct Estate<'w, 'e, E, D> {
    device: D,
    ports: Ports,
    config: Option<&'w str>,
    journal: LineJournal<'e, E>,
}

/// A life, and what those were replied who asked for the reloads before it.
#[derive(Drop)]
pub(crate) struct Relived<'r, 'w, 'e, R, E, D> {
    pub life: MachineLife<'r, 'w, 'e, R, E, D>,
    pub replies: CallLog,
}

/// Whether a life ended for a reload.
fn is_for_reload(end: &LifeEnd) -> bool
    ensures { IsTrue result ↔ EndsForReload end.now }
{
    matches!(
        end,
        LifeEnd::Stopped {
            fault: LoopFault::Reload,
            ..
        }
    )
}

/// What a life leaves to another one.
fn estate_of<'r, 'w, 'e, R, E, D>(life: MachineLife<'r, 'w, 'e, R, E, D>) -> Estate<'w, 'e, E, D>
    ensures { result ≡ estate_of life.entry }
{
    let Life {
        end: _end,
        device,
        sockets,
        clocks: _clocks,
        journal,
    } = life;
    let Left { ports, reloads } = sockets.left();
    Estate {
        device: device.device,
        ports,
        config: reloads.config(),
        journal,
    }
}

/// A life by another registry, on what stands in the file by now.
fn live_by<
    'r,
    'w,
    'e,
    R: Files<File = File> + Net + Clock + RandomSource + AllocGlobal,
    E: Write,
    S: DeviceSource,
>(
    rt: &'r R,
    pace: Pace,
    heir: Heir<'r, R>,
    estate: Estate<'w, 'e, E, S::File>,
    opening: &mut Resumption,
) -> MachineLife<'r, 'w, 'e, R, E, S::File>
    ensures lives { LivesAs (opens S.File.Device S.is_opened) ⟦<LineJournal<'e, E> as Journal>⟧ pace heir.entry estate.entry result }
    ensures opened { IsOpenedBy IsGranted opening.old result.end opening.new }
{
    let Heir { candidate, drawn } = heir;
    let Candidate { text, registry } = candidate;
    let reloads = Reloads::new(rt, estate.config, registry.operator_key(), text);
    let file = S::again(estate.device);
    let Planned { source, plan } = plan_of(rt.alloc(), file, registry, &[]);
    let mut ports = estate.ports;
    ports.ask();
    let begun = Begun {
        ports,
        generator: drawn.generator(),
    };
    let measures = estate.journal.measures();
    let disk = TimedDisk::new(rt, source.into_device(), measures);
    let means = means_of(rt, begun, reloads, pace, estate.journal);
    live(rt.alloc(), disk, plan, means, opening)
}

/// Another life, behind one that ended for a reload: by the registry's file as it was then, or by the registry as it was where that is
/// refused beside the state.
fn follow<
    'r,
    'w,
    'e,
    R: Files<File = File> + Net + Clock + RandomSource + AllocGlobal,
    E: Write,
    S: DeviceSource,
>(
    rt: &'r R,
    pace: Pace,
    estate: Estate<'w, 'e, E, S::File>,
    wanted: Wanted<'r, R>,
    replies: CallLog,
) -> Relived<'r, 'w, 'e, R, E, S::File>
    ensures { Relives (opens S.File.Device S.is_opened) ⟦<LineJournal<'e, E> as Journal>⟧ pace wanted.entry.heirs
        estate.entry (IsToldOf wanted.entry.heirs.next.candidate.registry replies.calls result.replies.calls) result.life }
{
    let Heirs { next, former } = wanted.heirs;
    let reloaded = Reloaded::of(&next.candidate.registry);
    let mut opening = Resumption::new(rt.alloc(), wanted.asker, reloaded, replies);
    let tried = live_by::<R, E, S>(rt, pace, next, estate, &mut opening);
    let LifeEnd::Refused(fault) = &tried.end else {
        let replies = opening.into_log();
        return Relived {
            life: tried,
            replies,
        };
    };
    opening.refuse(fault);
    let life = live_by::<R, E, S>(rt, pace, former, estate_of(tried), &mut opening);
    let replies = opening.into_log();
    Relived { life, replies }
}

/// Another life behind one, where that ended for a reload that was wanted; else that life, as it was.
fn relive<
    'r,
    'w,
    'e,
    R: Files<File = File> + Net + Clock + RandomSource + AllocGlobal,
    E: Write,
    S: DeviceSource,
>(
    rt: &'r R,
    pace: Pace,
    one: Relived<'r, 'w, 'e, R, E, S::File>,
) -> Result<Relived<'r, 'w, 'e, R, E, S::File>, Relived<'r, 'w, 'e, R, E, S::File>>
    ensures follows { IfOk result
        (Follows (opens S.File.Device S.is_opened) ⟦<LineJournal<'e, E> as Journal>⟧ pace one.entry) }
    ensures same { IfErr result (λ last. last ≡ one.entry) }
    ensures over { IfErr result (λ last. EndsForReload last.life.end → last.life.sockets.reloads.wanted ≡ None) }
{
    let Relived { mut life, replies } = one;
    if !is_for_reload(&life.end) {
        return Err(Relived { life, replies });
    }
    let Some(wanted) = life.sockets.take_wanted() else {
        return Err(Relived { life, replies });
    };
    Ok(follow::<R, E, S>(rt, pace, estate_of(life), wanted, replies))
}

/// Lives on behind a first life, as long as reloads are wanted. It gives the last life.
pub(crate) fn live_on<
    'r,
    'w,
    'e,
    R: Files<File = File> + Net + Clock + RandomSource + AllocGlobal,
    E: Write,
    S: DeviceSource,
>(
    rt: &'r R,
    pace: Pace,
    first: MachineLife<'r, 'w, 'e, R, E, S::File>,
) -> Relived<'r, 'w, 'e, R, E, S::File>
    ensures { LivesTo (opens S.File.Device S.is_opened) ⟦<LineJournal<'e, E> as Journal>⟧ pace first.entry result }
{
    let mut one = Relived {
        life: first,
        replies: CallLog::new(),
    };
    for _nth in 0..u64::MAX {
        one = match relive::<R, E, S>(rt, pace, one) {
            Ok(next) => next,
            Err(last) => return last,
        };
    }
    one
}
