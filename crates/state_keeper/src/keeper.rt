//! Keeping the changes of each round, and the moment, in a state file.

ghost use Rattle.std.specs.Prelude.{◌≡◌, ◌≤◌, ◌<◌, ◌+◌, ◌-◌, ◌^◌, min, IfOk};
ghost use Rattle.state_keeper.specs.Seen.{with_horizon};

use crate::course::HEADER;
use crate::passing::Shortening;
use batch_file::appending::{BatchFault, BatchFile};
use batch_file::device::Device;
use change_codec::{Batch, KeepFault, Keeper, Length, ShortenFault};
use consent::Moment;
use state_file::{Known, horizon, later, size_behind};
use std::alloc::{AllocError, Global};
use std::marker::Model;
use system_faults::SystemFault;

/// A horizon is so many seconds ahead of the clock, so that in that time none is written but with changes.
const SPAN: u64 = 60;

/// The greatest moment.
const LAST: u64 = (1 << 63) - 1;

/// Keeps the changes of each round and the moment in a state file. Once the file is long, what is left of them is written beside it,
/// a slice at a time, and put in its place. Where the disk has failed once, it keeps nothing more.
#[derive(Drop)]
pub struct StateKeeper<D: Device> {
    pub(crate) file: BatchFile<D>,
    /// Why it keeps nothing more, if it does not.
    pub(crate) fault: Option<BatchFault>,
    pub(crate) known: Known,
    /// The shortening that is on the way, if one is.
    pub(crate) shortening: Option<Shortening>,
    pub(crate) alloc: Global,
}

impl<D: Device> Model for StateKeeper<D> {
    ghost use Rattle.std.specs.Prelude.{IsNone};
    ghost use Rattle.batch_file.specs.Frames.{IsOnDisk};
    ghost use Rattle.state_keeper.specs.Passing.{IsKnownFile};
    ghost use Rattle.state_keeper.specs.Seen.{SeenKeeper};
    ghost use Rattle.state_keeper.specs.Slicing.{IsOnTheWayIf, front_if, to_go_if};

    ghost Value = { SeenKeeper D };

    ghost view = { λ keeper. record {
      file = keeper.file;
      fault = keeper.fault;
      front = front_if D.Device keeper.file keeper.shortening;
      to_go = to_go_if keeper.shortening keeper.file.end;
      known = keeper.known;
    } };

    ghost invariant = { λ keeper. IsNone keeper.fault →
        IsOnDisk D.seen D.may_leave D.faults keeper.file
        × IsKnownFile D.Device keeper.file keeper.known
        × IsOnTheWayIf D.Device keeper.file keeper.known.rules.items keeper.shortening };
}

/// The moment of a horizon that is written at a moment.
fn horizon_at(now: Moment) -> Moment
    ensures is { result ≡ min (now + 60) (2 ^ 63 - 1) }
    ensures later { now ≤ result }
    ensures in_range { result < 2 ^ 63 }
{
    Moment::new((now.get() + SPAN).min(LAST))
}

/// What is written of a batch: it, and in front of it a horizon, where that is later than those before.
fn with_horizon(
    alloc: Global,
    before: Moment,
    until: Moment,
    batch: &[u8],
) -> Result<Vec<u8>, AllocError>
    ensures { IfOk result (λ written. written.items ≡ with_horizon before until batch.now) }
{
    let mut written = Vec::with_capacity(alloc, batch.len().saturating_add(9))?;
    if before.get() < until.get() {
        written.extend_from_slice(&horizon(until))?;
    }
    written.extend_from_slice(batch)?;
    Ok(written)
}

impl<D: Device> StateKeeper<D> {
    ghost use Rattle.std.specs.Prelude.{◌≡◌, IsNone};
    ghost use Rattle.batch_file.specs.Frames.{recovered};
    ghost use Rattle.state_file.specs.Knowing.{shortened_size};

    /// Why it keeps nothing more, if it does not.
    pub fn fault(&self) -> Option<BatchFault>
        ensures { result ≡ self.now.fault }
    {
        self.fault
    }

    /// How many bytes of frames were left when its file was shortened last.
    pub fn shortened(&self) -> usize
        ensures is { result ≡ self.now.known.shortened }
        ensures right { IsNone self.now.fault → D.reads_true self.now.file.device → result ≡ shortened_size (recovered (D.seen self.now.file.device)) }
    {
        self.known.shortened
    }

    /// Why its file is not made longer, where the disk refused that last: what it has in reserve serves.
    pub fn refused(&self) -> Option<SystemFault>
        ensures { result ≡ self.now.file.refused }
    {
        self.file.refused
    }

    /// The device of its file.
    pub fn into_device(self) -> D
        ensures { result ≡ self.file.device }
    {
        self.file.device
    }
}

impl<D: Device> Keeper for StateKeeper<D> {
    ghost use Rattle.std.specs.Prelude.{◌≡◌, ◌+◌, ◌-◌, ◌^◌, Some, IsSome, is_some, min};
    ghost use Rattle.std.proofs.Common.{inl};
    ghost use Rattle.state_keeper.specs.Seen.{IsLongFile, MayBe, ShortensFile, SlicesFile};
    ghost use Rattle.state_file.specs.Knowing.{LeftTells};
    ghost use Rattle.state_file.specs.Standing.{StandsFor};

    ghost stands_for = { StandsFor };

    ghost tells = { LeftTells };

    ghost may_leave = { MayBe D.Device };

    ghost moment = { λ k. D.moment k.file.device };

    ghost left_since = { λ k. D.left_since k.file.device };

    // With one zero behind the last frame.
    ghost size_of = { λ k. Some (min (k.file.end + 1) (2 ^ 64 - 1)) };

    // It has a fault, and keeps nothing more.
    ghost has_failed = { λ k. IsSome k.fault };

    ghost is_long = { λ k. IsLongFile k };

    ghost to_go = { λ k. k.to_go };

    ghost slices = { SlicesFile D.Device };

    ghost shortens = { ShortensFile D.Device };

    // Its file was not made longer when that was asked last.
    ghost wants_room = { λ k. is_some k.file.refused };

    ghost is_sole = { λ k. D.is_sole k.file.device };

    ghost tends = { λ old now due new. D.tends old.file.device now due new.file.device };

    // The greatest horizon of its file.
    ghost kept_until = { λ k. k.known.until };

    ghost only_now = { λ k c left. inl (D.only_now k.file.device c left) };

    // The horizon of the moment goes with it.
    fn keep(&mut self, batch: &Batch, now: Moment) -> Result<(), KeepFault> {
        if self.fault.is_some() {
            return Err(KeepFault::Failed);
        }
        let ahead = horizon_at(now);
        let Ok(written) = with_horizon(self.alloc, self.known.until, ahead, batch.bytes()) else {
            self.fault = Some(BatchFault::Memory);
            return Err(KeepFault::Failed);
        };
        match self.file.append(self.alloc, &written) {
            Ok(()) => {
                let size = self.file.end - HEADER;
                self.known.shortened = size_behind(&written, size, self.known.shortened);
                self.known.until = later(self.known.until, ahead);
                Ok(())
            }
            Err(fault) => {
                self.fault = Some(fault);
                Err(KeepFault::Failed)
            }
        }
    }

    fn confirm(&mut self) -> Result<(), KeepFault> {
        if self.fault.is_some() {
            return Err(KeepFault::Failed);
        }
        match self.file.confirm() {
            Ok(()) => Ok(()),
            Err(lost) => {
                self.fault = Some(lost);
                Err(KeepFault::Failed)
            }
        }
    }

    fn tend(&mut self, now: u64) -> Result<Option<u64>, KeepFault> {
        if self.fault.is_some() {
            return Err(KeepFault::Failed);
        }
        match self.file.tend(now) {
            Ok(due) => Ok(due),
            Err(broken) => {
                self.fault = Some(broken);
                Err(KeepFault::Failed)
            }
        }
    }

    // Where the moment is beyond the greatest horizon, another horizon is written.
    fn keep_moment(&mut self, now: Moment) -> Result<(), KeepFault> {
        if self.fault.is_some() {
            return Err(KeepFault::Failed);
        }
        if now.get() <= self.known.until.get() {
            return Ok(());
        }
        let until = horizon_at(now);
        match self.file.append(self.alloc, &horizon(until)) {
            Ok(()) => {
                // It bounds what is counted.
                let _end = self.file.end;
                self.known.until = until;
                Ok(())
            }
            Err(refused) => {
                self.fault = Some(refused);
                Err(KeepFault::Failed)
            }
        }
    }

    fn shorten_some(&mut self) -> Result<Length, ShortenFault> {
        self.shorten_slice()
    }

    fn size(&self) -> Option<u64> {
        Some((self.file.end as u64).saturating_add(1))
    }

    fn wants_room(&self) -> bool {
        self.file.refused.is_some()
    }
}
