//! Batches that tell what is left of a list.

ghost use Rattle.std.specs.Prelude.{◌≡◌, ◌<◌, ◌^◌, ◌++◌, [], ◌∷◌, length, Some, IfOk, IfErr, OnOk};
ghost use Rattle.change_codec.specs.Spelling.{batch_spelling, dated_facts};
ghost use Rattle.consent.specs.Changes.{as_list};
ghost use Rattle.state_file.specs.Knowing.{IsLong, end_of, shortened_size};
ghost use Rattle.state_file.specs.Renewing.{IsUntoldList, left_numbered};
ghost use Rattle.state_file.specs.ShortParts.{AddsChanges, IsUnaddedList};
ghost use Rattle.state_file.specs.Standing.{AreTold, horizons, until_of};
ghost use Rattle.state_file.specs.Telling.{last_rules, rules_in};

use crate::fault::StateFault;
use crate::horizons::horizon;
use crate::numbered::numbered_of;
use batch_file::frames::{AddFault, Frames};
use change_codec::{Batch, DatedChange};
use consent::{Change, Changes, Moment};
use shortening::shorten;
use std::alloc::{AllocError, Global};

/// A batch has no more changes than this.
const MOST: usize = 256;

/// Batches that tell what is left of a list.
#[derive(Drop)]
pub struct Short {
    pub frames: Frames,
    /// How many bytes their frames have up to the one that tells the greatest number of a family.
    pub shortened: usize,
}

/// The change, by itself.
fn alone<'a>(change: &Change<'a>) -> Changes<'a>
    ensures { as_list result ≡ change.now ∷ [] }
{
    match Some(change).copied() {
        Some(change) => Changes::One(change),
        None => Changes::Nothing,
    }
}

/// Gathers the changes behind the others.
pub fn gather_changes(batch: &mut Batch, changes: &[DatedChange<'_>]) -> Result<(), AllocError>
    ensures { OnOk result (batch.new.facts ≡ batch.old.facts ++ dated_facts changes.now) }
{
    for dated in changes {
        batch.prepare(dated.moment, &alone(&dated.change))?;
        batch.push();
    }
    Ok(())
}

/// The changes, as one batch.
fn gathered(alloc: Global, changes: &[DatedChange<'_>]) -> Result<Batch, AllocError>
    ensures { IfOk result (λ batch. batch.facts ≡ dated_facts changes.now) }
{
    let mut batch = Batch::new(alloc)?;
    gather_changes(&mut batch, changes)?;
    Ok(batch)
}

/// Adds a batch of these changes.
fn add_batch(
    alloc: Global,
    frames: &mut Frames,
    changes: &[DatedChange<'_>],
) -> Result<(), StateFault>
    ensures added { OnOk result (AddsChanges (dated_facts changes.now) frames.old frames.new) }
    ensures one { OnOk result (frames.new ≡ frames.old ++ batch_spelling (dated_facts changes.now) ∷ []) }
    ensures refused { IfErr result (IsUnaddedList (dated_facts changes.now)) }
{
    let batch = gathered(alloc, changes)?;
    frames.add(batch.bytes())?;
    Ok(())
}

/// Adds batches of these changes.
fn add_list(
    alloc: Global,
    frames: &mut Frames,
    changes: &[DatedChange<'_>],
) -> Result<(), StateFault>
    ensures added { OnOk result (AddsChanges (dated_facts changes.now) frames.old frames.new) }
    ensures refused { IfErr result (IsUnaddedList (dated_facts changes.now)) }
{
    let mut at = 0;
    while at < changes.len() {
        let end = changes.len().min(at.saturating_add(MOST));
        add_batch(alloc, frames, &changes[at..end])?;
        at = end;
    }
    Ok(())
}

/// Adds the horizon of a moment, if that is any.
fn add_horizon(frames: &mut Frames, until: Moment) -> Result<(), AllocError>
    ensures added { OnOk result (frames.new ≡ frames.old ++ horizons until) }
    ensures in_range { until < 2 ^ 63 }
{
    if until.get() == 0 {
        return Ok(());
    }
    match frames.add(&horizon(until)) {
        Ok(()) => Ok(()),
        Err(AddFault::Memory) => Err(AllocError),
        Err(AddFault::TooLong) => unreachable!(),
    }
}

/// Batches that tell the rules of which these bytes are the spelling, what is left of the changes at the last moment, and the
/// moment of a horizon, if that is any.
pub fn short_of(
    alloc: Global,
    rules: &[u8],
    changes: &[DatedChange<'_>],
    until: Moment,
) -> Result<Short, StateFault>
    requires rules { rules_in rules.now ≡ Some rules.now }
    requires few { length rules.now < 2 ^ 32 }
    ensures told { IfOk result (λ short. AreTold short.frames (left_numbered (dated_facts changes.now))) }
    ensures rules { IfOk result (λ short. last_rules short.frames ≡ Some rules.now) }
    ensures until { IfOk result (λ short. until_of short.frames ≡ until) }
    ensures size { IfOk result (λ short. short.shortened ≡ shortened_size short.frames) }
    ensures short { IfOk result (λ short. ¬ (IsLong (end_of short.frames) short.shortened)) }
    ensures refused { IfErr result (IsUntoldList (dated_facts changes.now)) }
{
    let number = numbered_of(changes);
    let left = shorten(alloc, changes, number.moment)?;
    let mut frames = Frames::new(alloc)?;
    frames.add(rules)?;
    add_list(alloc, &mut frames, &left)?;
    add_batch(alloc, &mut frames, &[number])?;
    let shortened = frames.len_of_file() - 17;
    add_horizon(&mut frames, until)?;
    Ok(Short { frames, shortened })
}
