//! The list of dated changes that batches tell.

ghost use Rattle.std.specs.Prelude.{◌∷◌, [], IfOk, IfErr};
ghost use Rattle.batch_file.specs.Frames.{lists};
ghost use Rattle.change_codec.specs.Spelling.{dated_facts};
ghost use Rattle.state_file.specs.Listing.{IsNoneBehind, IsUnlisted};
ghost use Rattle.state_file.specs.Standing.{AreBehind, AreTold};

use crate::fault::StateFault;
use crate::horizons::horizon_in;
use change_codec::{DatedChange, decode};
use std::alloc::Global;
use wire::Fault;

/// The dated changes that stand behind a horizon.
fn changes_behind(alloc: Global, bytes: &[u8]) -> Result<Vec<DatedChange<'_>>, StateFault>
    ensures told { IfOk result (λ list. AreBehind bytes.now (dated_facts list.items)) }
    ensures refused { IfErr result (IsNoneBehind bytes.now) }
{
    if bytes.is_empty() {
        return Ok(Vec::new(alloc));
    }
    Ok(decode(alloc, bytes)?)
}

/// The dated changes of a batch: rules have none, and behind a horizon there may be some.
pub fn changes_of(alloc: Global, batch: &[u8]) -> Result<Vec<DatedChange<'_>>, StateFault>
    ensures told { IfOk result (λ list. AreTold (batch.now ∷ []) (dated_facts list.items)) }
    ensures refused { IfErr result (IsUnlisted (batch.now ∷ [])) }
{
    match batch {
        [0, ..] => Ok(Vec::new(alloc)),
        [3, _, _, _, _, _, _, _, _, behind @ ..] => match horizon_in(batch) {
            Some(_) => changes_behind(alloc, behind),
            None => Err(StateFault::Spelling(Fault::Moment)),
        },
        [3, ..] => Err(StateFault::Spelling(Fault::Moment)),
        _ => Ok(decode(alloc, batch)?),
    }
}

/// The dated changes that batches tell, one after the other.
pub fn changes_in(alloc: Global, batches: &[Vec<u8>]) -> Result<Vec<DatedChange<'_>>, StateFault>
    ensures told { IfOk result (λ list. AreTold (lists batches.now) (dated_facts list.items)) }
    ensures refused { IfErr result (IsUnlisted (lists batches.now)) }
{
    let mut list = Vec::new(alloc);
    for batch in batches {
        let changes = changes_of(alloc, batch)?;
        list.extend_from_slice(&changes)?;
    }
    Ok(list)
}
