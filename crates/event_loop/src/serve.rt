//! Serving connections.
ghost use Rattle.event_loop.specs.Ends.{RunEnds};
ghost use Rattle.event_loop.specs.Goes.{keeping, promises};

use crate::limits::Limits;
use crate::service::Service;
use crate::tools::{Clocks, HookHost, Journal, Keeper, Tools};
use outside::{LoopFault, Sockets};

/// Serves up to 64 connections at once, until a wait fails, the clocks tell nothing or are too far ahead, changes or a moment can't be kept, or a
/// reload is wanted, and says which. For a reload those that are between two requests are handed on: it ends once all are, or
/// after some seconds. Then each connection that is left is closed and forgotten, and where reports are wanted, there is a last one.
pub fn serve_all<N: Sockets, C: Clocks, J: Journal, K: Keeper, H: HookHost>(
    tools: &mut Tools<N, C, J, K, H>,
    limits: Limits,
) -> LoopFault
    ensures { RunEnds (promises N.Sockets C.Clocks J.Journal (keeping K.Keeper) H.HookHost) limits tools.old result tools.new }
{
    let Some(times) = tools.clocks.read() else {
        return LoopFault::Clock;
    };
    let mut service = Service::new(limits, times, tools.edge.server().moment());
    let fault = tools.rounds(&mut service);
    tools.leave_all(&mut service, fault);
    tools.tell_last(&service);
    fault
}
