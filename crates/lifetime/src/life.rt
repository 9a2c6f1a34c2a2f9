//! A server's life on the file of its state.

ghost use Rattle.std.specs.Prelude.{◌≡◌, IfOk, Ok};
ghost use Rattle.state_keeper.specs.Starting.{HasFront};
ghost use Rattle.lifetime.specs.Given.{life_promises};
ghost use Rattle.lifetime.specs.Lives.{LivesBy};
ghost use Rattle.lifetime.specs.Openings.{IsOpenedBy};

use crate::clock::too_far;
use crate::going_on::{Ending, serve_by};
use crate::means::Means;
use crate::opening::Opening;
use crate::plan::Plan;
use crate::settling::settle;
use batch_file::appending::BatchFault;
use batch_file::device::Device;
use event_loop::{Clocks, Journal, LoopFault, Sockets};
use http_edge::Edge;
use state_file::StateFault;
use state_keeper::{NotStarted, Started};
use std::alloc::Global;

/// Why a life ended.
#[derive(Drop)]
pub enum LifeEnd {
    /// No server is started on the file: what stands there, the registry or a hook is refused, or the disk refused the new file.
    Refused(StateFault),
    /// The clock is so many seconds ahead of the state, more than it may be.
    ClockAhead(u64),
    /// Clients could not be told where the sockets listen.
    Unopened,
    /// The server could not go on.
    Stopped {
        fault: LoopFault,
        /// Why nothing more could be kept, where that was so.
        why: Option<BatchFault>,
    },
}

/// What is left of a life: why it ended, and what it was handed, as that was left.
#[derive(Drop)]
pub struct Life<D, N, C, J> {
    pub end: LifeEnd,
    pub device: D,
    pub sockets: N,
    pub clocks: C,
    pub journal: J,
}

impl<D, N, C, J> Life<D, N, C, J> {
    ghost use Rattle.lifetime.specs.Given.{life_of};

    /// A life that ends so gives its device back, and its means.
    fn of(end: LifeEnd, device: D, means: Means<N, C, J>) -> Life<D, N, C, J>
        ensures { result ≡ life_of end device means }
    {
        Life {
            end,
            device,
            sockets: means.sockets,
            clocks: means.clocks,
            journal: means.journal,
        }
    }
}

/// Goes by a plan: reads the clocks, and unless they are too far ahead settles it, tells clients where the sockets listen, and
/// serves up to 64 connections at once until it can't go on.
fn begin<D: Device + Drop, N: Sockets, C: Clocks, J: Journal, O: Opening>(
    alloc: Global,
    device: D,
    plan: Plan,
    means: Means<N, C, J>,
    opening: &mut O,
) -> Life<D, N, C, J>
    requires faultless { D.faults device ≡ 0 }
    requires front { HasFront (D.seen device) plan.origin plan.prepared.front }
    ensures lives { LivesBy (life_promises D.Device N.Sockets C.Clocks J.Journal) device (Ok plan) means result }
    ensures opened { IsOpenedBy O.Opening.opens opening.old result.end opening.new }
{
    let mut means = means;
    let now = means.clocks.read();
    if let Some(seconds) = too_far(means.limits.ahead, &now, plan.prepared.moment()) {
        return Life::of(LifeEnd::ClockAhead(seconds), device, means);
    }
    let started = match settle(device, plan, now, &mut means.journal) {
        Ok(started) => started,
        Err(NotStarted { fault, device }) => {
            return Life::of(LifeEnd::Refused(fault), device, means);
        }
    };
    if opening.open().is_err() {
        return Life::of(LifeEnd::Unopened, started.keeper.into_device(), means);
    }
    let edge = Edge::new(alloc, started.server);
    let Ending { fault, tools } = serve_by(edge, started.keeper, means);
    let why = tools.keeper.fault();
    Life {
        end: LifeEnd::Stopped { fault, why },
        device: tools.keeper.into_device(),
        sockets: tools.sockets,
        clocks: tools.clocks,
        journal: tools.journal,
    }
}

/// A server's life on the file of its state, of whose bytes it was planned. Nothing is written before it is known that the start
/// goes on: what stands in the file, the registry and the hooks were looked at, then the clocks are. Then what an unfinished write
/// left is put aside, and the new file takes the place of the old one. Where the registry is narrower than the rules that the file
/// tells, what goes beyond it ends; those of the hooks that the file lacks are installed behind those that it has. Clients are told
/// where the sockets listen, and up to 64 connections are served at once until the server can't go on.
pub fn live<D: Device + Drop, N: Sockets, C: Clocks, J: Journal, O: Opening>(
    alloc: Global,
    device: D,
    planned: Result<Plan, StateFault>,
    means: Means<N, C, J>,
    opening: &mut O,
) -> Life<D, N, C, J>
    requires faultless { D.faults device ≡ 0 }
    requires front { IfOk planned (λ plan. HasFront (D.seen device) plan.origin plan.prepared.front) }
    ensures life { LivesBy (life_promises D.Device N.Sockets C.Clocks J.Journal) device planned means result }
    ensures opened { IsOpenedBy O.Opening.opens opening.old result.end opening.new }
{
    match planned {
        Ok(plan) => begin(alloc, device, plan, means, opening),
        Err(fault) => Life::of(LifeEnd::Refused(fault), device, means),
    }
}
