//! A server that serves its connections until it can't go on.

ghost use Rattle.std.specs.Prelude.{◌≢◌};
ghost use Rattle.change_codec.specs.Keepers.{keeping};
ghost use Rattle.event_loop.specs.Ends.{RunEnds};
ghost use Rattle.event_loop.specs.LoopStates.{promises};
ghost use Rattle.outside.specs.declared.fault.LoopFault.TheVariants.{Keep};
ghost use Rattle.lifetime.specs.Anew.{IsLifeAnew, keeping_nothing};
ghost use Rattle.lifetime.specs.Serving.{tools_of};

use crate::means::Means;
use change_codec::{Keeper, NoKeeper};
use clients::Registry;
use endpoints::Server;
use event_loop::{Clocks, Journal, LoopFault, Sockets, Tools, serve_all};
use hook_chain::Chain;
use hook_host::HookHost;
use http_edge::Edge;
use std::alloc::Global;

/// How a server came to its end.
#[derive(Drop)]
pub(crate) struct Ending<N, C, J, K> {
    /// Why it could not go on.
    pub fault: LoopFault,
    /// What it worked with, as it was left.
    pub tools: Tools<N, C, J, K, Chain>,
}

/// Serves up to 64 connections at once, by an edge and with what it is handed, until it can't go on.
pub(crate) fn serve_by<N: Sockets, C: Clocks, J: Journal, K: Keeper>(
    edge: Edge<Chain>,
    keeper: K,
    means: Means<N, C, J>,
) -> Ending<N, C, J, K>
    ensures { RunEnds (promises N.Sockets C.Clocks J.Journal (keeping K.Keeper) ⟦<Chain as HookHost>⟧)
        means.limits (tools_of means keeper edge) result.fault result.tools }
{
    let limits = means.limits;
    let mut tools = Tools {
        sockets: means.sockets,
        edge,
        clocks: means.clocks,
        generator: means.generator,
        journal: means.journal,
        keeper,
        tellings: means.tellings,
    };
    let fault = serve_all(&mut tools, limits);
    Ending { fault, tools }
}

/// What is left of a server that was started without a file of its state.
#[derive(Drop)]
pub struct AnewEnd<N, C, J> {
    /// Why it could not go on.
    pub fault: LoopFault,
    pub sockets: N,
    pub clocks: C,
    pub journal: J,
}

/// Serves up to 64 connections at once until it can't go on, by a new server that keeps nothing.
pub fn live_anew<N: Sockets, C: Clocks, J: Journal>(
    alloc: Global,
    registry: Registry,
    hooks: Chain,
    means: Means<N, C, J>,
) -> AnewEnd<N, C, J>
    ensures life { IsLifeAnew (promises N.Sockets C.Clocks J.Journal keeping_nothing ⟦<Chain as HookHost>⟧)
        (record { rules = registry; first = hooks }) means result }
    ensures unblamed { result.fault ≢ Keep }
{
    let edge = Edge::new(alloc, Server::new(alloc, registry, hooks));
    let Ending { fault, tools } = serve_by(edge, NoKeeper, means);
    AnewEnd {
        fault,
        sockets: tools.sockets,
        clocks: tools.clocks,
        journal: tools.journal,
    }
}
