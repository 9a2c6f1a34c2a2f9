//! Who waits until nobody leads.

ghost use Rattle.std.specs.Prelude.{IfErr, IfOk, ℕ};
ghost use Rattle.standby.specs.Doors.{RefusesMeanwhile};
ghost use Rattle.standby.specs.Waits.{LeadsAtLast, StopsWaiting};

use crate::door::Door;
use crate::fault::ListFault;
use etcd_client::{AskFault, Led, Members, Names, lead};
use std::alloc::Global;
use std::net::Net;
use std::rt::Clock;

/// So many milliseconds pass before it is tried again.
const PAUSE: u64 = 250;

/// The code of what is not there: a lease that ended before it was led by.
const ENDED: u64 = 5;

/// Waits until nobody leads, and leads then, by a lease of so many seconds. Those who come to the door meanwhile are told that nobody
/// serves there.
pub(crate) fn wait_to_lead<R: Net + Clock, M: Members>(
    alloc: Global,
    members: &mut M,
    names: &Names,
    seconds: u64,
    door: &mut Door<'_, R>,
) -> Result<Led, ListFault>
    ensures leads { IfOk result (λ led. LeadsAtLast names.now.prefix.items seconds led (M.exchanges members.new)) }
    ensures refused { IfErr result (StopsWaiting names.now.prefix.items seconds (M.exchanges members.new)
        door.old.porch.log.events door.new.porch.log.events) }
    ensures meanwhile { (times : ℕ) × RefusesMeanwhile times door.old door.new }
{
    for _tries in 0..u64::MAX {
        match lead(alloc, members, names, seconds) {
            Ok(Some(led)) => return Ok(led),
            Err(AskFault::Refused(code)) => {
                if code != ENDED {
                    return Err(ListFault::Refused(code));
                }
            }
            Ok(None) | Err(AskFault::Unclear | AskFault::Memory) => {}
        }
        door.wait(PAUSE);
    }
    Err(ListFault::Unclear)
}
