//! What a start writes: what an unfinished write left is put aside, and the new file takes the place of the old one.

ghost use Rattle.std.specs.Prelude.{◌≡◌, IfOk, IfErr, OnOk, OnErr};
ghost use Rattle.batch_file.specs.Crashes.{IsBeside, LeavesOnly};
ghost use Rattle.lifetime.specs.Starts.{MayReport, ReportsAll, ahead_notices, ended_notices, start_notices, torn_notices};
ghost use Rattle.state_keeper.specs.Starting.{HasFront, IsOfDisk, IsOldOr, IsPutOn, IsUntouched};

use crate::clock::seconds_ahead;
use crate::plan::Plan;
use batch_file::device::{Device, DeviceFault};
use event_loop::{Journal, Notice, Times};
use hook_chain::Chain;
use state_file::StateFault;
use state_keeper::{NotStarted, Started};

/// A state that is no more seconds ahead of the clock is not told: a horizon of its moment may be as many.
const QUIET: u64 = 60;

/// Puts aside what an unfinished write left, where that is something, and tells the journal how much it is.
fn put_aside<D: Device, J: Journal>(
    device: &D,
    torn: &[u8],
    journal: &mut J,
) -> Result<(), StateFault>
    ensures told { OnOk result (ReportsAll J.Journal journal.old (torn_notices torn.now) journal.new) }
    ensures silent { OnErr result (journal.new ≡ journal.old) }
    ensures refused { IfErr result IsOfDisk }
{
    if torn.is_empty() {
        return Ok(());
    }
    match device.set_aside(torn) {
        Ok(()) => {
            journal.report(&Notice::SetAside(torn.len()));
            Ok(())
        }
        Err(DeviceFault::Memory) => Err(StateFault::Memory),
        Err(DeviceFault::Failed(reason)) => Err(StateFault::Device(reason)),
    }
}

/// Tells the journal how many codes and tokens ended that went beyond the registry, where it was narrower.
fn tell_ended<J: Journal>(ended: Option<usize>, journal: &mut J)
    ensures { ReportsAll J.Journal journal.old (ended_notices ended) journal.new }
{
    if let Some(count) = ended {
        journal.report(&Notice::Narrowed(count));
    }
}

/// Tells the journal how many seconds the state is ahead of the clock, where these are more than a horizon may be.
fn tell_ahead<J: Journal>(seconds: u64, journal: &mut J)
    ensures { ReportsAll J.Journal journal.old (ahead_notices seconds) journal.new }
{
    if seconds > QUIET {
        journal.report(&Notice::Ahead(seconds));
    }
}

/// Puts aside what an unfinished write left, and the new file of a plan in the place of the old one, and tells the journal what
/// was put aside, what ended, and how far the state is ahead of what the clocks told.
pub(crate) fn settle<D: Device + Drop, J: Journal>(
    device: D,
    plan: Plan,
    now: Option<Times>,
    journal: &mut J,
) -> Result<Started<D, Chain>, NotStarted<D>>
    requires faultless { D.faults device ≡ 0 }
    requires front { HasFront (D.seen device) plan.origin plan.prepared.front }
    ensures server { IfOk result (λ started. started.server ≡ plan.prepared.server) }
    ensures put { IfOk result (λ started. IsPutOn D.Device plan.prepared.batches device started.keeper) }
    ensures told { OnOk result (ReportsAll J.Journal journal.old (start_notices plan now) journal.new) }
    ensures lost { IfErr result (λ not. LeavesOnly D.moment D.left_since device not.device (IsOldOr D.Device device plan.prepared.batches)) }
    ensures untouched { IfErr result (λ not. IsUntouched not.fault → IsBeside D.seen D.may_leave D.faults device not.device) }
    ensures refused { IfErr result (λ not. IsOfDisk not.fault) }
    ensures told_before { OnErr result (MayReport J.Journal journal.old (torn_notices plan.torn.items) journal.new) }
{
    if let Err(fault) = put_aside(&device, &plan.torn, journal) {
        return Err(NotStarted { fault, device });
    }
    let ahead = seconds_ahead(now, plan.prepared.moment());
    let started = state_keeper::settle(plan.prepared, plan.origin, device)?;
    tell_ended(plan.ended, journal);
    tell_ahead(ahead, journal);
    Ok(started)
}
