//! A server that goes on from a state file, with the hooks that it is started with.

ghost use Rattle.std.specs.Prelude.{◌≡◌, ◌++◌, IfOk, IfErr, OnOk};
ghost use Rattle.batch_file.specs.Crashes.{IsBeside, IsUnplaced, LeavesOnly};
ghost use Rattle.batch_file.specs.Frames.{header, last_of, lists};
ghost use Rattle.state_file.specs.Knowing.{end_of};
ghost use Rattle.state_keeper.specs.Starting.{HasFront, IsOfDisk, IsOldOr, IsPut, IsPutOn, IsReadIn, IsUntouched, front_in};

use crate::keeper::StateKeeper;
use batch_file::appending::{BatchFile, NotPlaced};
use batch_file::device::{Device, ReplaceFault};
use batch_file::frames::{AddFault, Frames};
use batch_file::next::Next;
use endpoints::Server;
use file_copy::place_behind;
use hook_host::HookHost;
use state_file::{Parts, Prepared, StateFault};
use std::alloc::Global;
use system_faults::SystemFault;

/// Where the batches stand that a server was made of.
#[derive(Drop)]
pub enum Origin {
    /// On the device, as they were read.
    Device,
    /// In memory: what was left of those on the device.
    Memory(Frames),
}

/// A server that goes on from a state file, and notes what happens; and what keeps that.
#[derive(Drop)]
pub struct Started<D: Device, H> {
    pub server: Server<H>,
    pub keeper: StateKeeper<D>,
}

/// Why a server is not started on a state file, and the file's device.
#[derive(Drop)]
pub struct NotStarted<D> {
    pub fault: StateFault,
    /// Unless the disk failed, its file is as it was.
    pub device: D,
}

/// Adds the batches behind the others.
fn add_all(frames: &mut Frames, behind: &[Vec<u8>]) -> Result<(), ReplaceFault>
    ensures added { OnOk result (frames.new ≡ frames.old ++ lists behind.now) }
    ensures refused { IfErr result IsUnplaced }
{
    for batch in behind {
        match frames.add(batch) {
            Ok(()) => {}
            Err(AddFault::Memory) => return Err(ReplaceFault::Memory),
            Err(AddFault::TooLong) => {
                return Err(ReplaceFault::Unplaced(SystemFault::FileTooLarge));
            }
        }
    }
    Ok(())
}

/// Puts the batches of the origin, which end there, and these behind them in the place of all that a device has.
fn put<D: Device + Drop>(
    alloc: Global,
    device: D,
    origin: Origin,
    front: Next,
    behind: &[Vec<u8>],
) -> Result<BatchFile<D>, NotPlaced<D>>
    requires faultless { D.faults device ≡ 0 }
    requires readable { IsReadIn (D.seen device) origin }
    requires end { front.end ≡ end_of (front_in (D.seen device) origin) }
    requires last { front.last ≡ last_of header (front_in (D.seen device) origin) }
    ensures put { IfOk result (IsPut D.Device device (front_in (D.seen device) origin ++ lists behind.now)) }
    ensures lost { IfErr result (λ not. LeavesOnly D.moment D.left_since device not.device
        (IsOldOr D.Device device (front_in (D.seen device) origin ++ lists behind.now))) }
    ensures untouched { IfErr result (λ not. IsUnplaced not.fault → IsBeside D.seen D.may_leave D.faults device not.device) }
{
    match origin {
        Origin::Device => place_behind(alloc, device, front, behind),
        Origin::Memory(frames) => put_all(device, frames, behind),
    }
}

/// Puts a file of the batches in memory, and these behind them, there.
fn put_all<D: Device + Drop>(
    device: D,
    mut frames: Frames,
    behind: &[Vec<u8>],
) -> Result<BatchFile<D>, NotPlaced<D>>
    requires faultless { D.faults device ≡ 0 }
    ensures put { IfOk result (IsPut D.Device device (frames ++ lists behind.now)) }
    ensures lost { IfErr result (λ not. LeavesOnly D.moment D.left_since device not.device
        (IsOldOr D.Device device (frames ++ lists behind.now))) }
    ensures untouched { IfErr result (λ not. IsUnplaced not.fault → IsBeside D.seen D.may_leave D.faults device not.device) }
{
    match add_all(&mut frames, behind) {
        Ok(()) => BatchFile::place(device, frames),
        Err(fault) => Err(NotPlaced { fault, device }),
    }
}

/// Puts what is made in the place of all that a device has, and keeps there what happens from then on.
pub fn settle<D: Device + Drop, H: HookHost>(
    prepared: Prepared<H>,
    origin: Origin,
    device: D,
) -> Result<Started<D, H>, NotStarted<D>>
    requires faultless { D.faults device ≡ 0 }
    requires front { HasFront (D.seen device) origin prepared.front }
    ensures server { IfOk result (λ started. started.server ≡ prepared.server) }
    ensures put { IfOk result (λ started. IsPutOn D.Device prepared.batches device started.keeper) }
    ensures lost { IfErr result (λ not. LeavesOnly D.moment D.left_since device not.device (IsOldOr D.Device device prepared.batches)) }
    ensures untouched { IfErr result (λ not. IsUntouched not.fault → IsBeside D.seen D.may_leave D.faults device not.device) }
    ensures refused { IfErr result (λ not. IsOfDisk not.fault) }
{
    let Parts {
        server,
        end,
        last,
        behind,
        known,
        alloc,
    } = prepared.into_parts();
    match put(alloc, device, origin, Next { end, last }, &behind) {
        Ok(file) => Ok(Started {
            server,
            keeper: StateKeeper {
                file,
                fault: None,
                known,
                shortening: None,
                alloc,
            },
        }),
        Err(NotPlaced { fault, device }) => Err(NotStarted {
            fault: StateFault::from(fault),
            device,
        }),
    }
}
