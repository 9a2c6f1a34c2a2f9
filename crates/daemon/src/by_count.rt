//! So many connections, one after the other.

ghost use Rattle.std.specs.Prelude.{OnOk};
ghost use Rattle.serving.specs.Served.{stream_service};
ghost use Rattle.daemon.specs.Begun.{IsNewEdge};
ghost use Rattle.daemon.specs.ByCount.{ServesCount, ServesEach, between, handed_count};
ghost use Rattle.ports.specs.Listening.{Announces};

use crate::machine_clock::MachineClock;
use clients::Registry;
use endpoints::Server;
use hook_chain::Chain;
use hook_host::HookHost;
use http_edge::{ConnectionNo, Edge};
use ports::{ListenFault, listen, next_connection, see_off};
use rand_chacha::ChaCha20Rng;
use rand_core::SeedableRng;
use serving::{Clock, Stream, serve_one};
use std::alloc::Global;
use std::io::Write;
use std::net::{Net, OpenStream};
use std::rt;

/// The number under which each connection is served. The one before is forgotten when the next comes.
pub const NUMBER: u32 = 1;

/// A new server over a registry, with these hooks and without connections.
pub fn new_edge(alloc: Global, registry: Registry, hooks: Chain) -> Edge<Chain>
    ensures { IsNewEdge ⟦<Chain as HookHost>⟧ registry hooks result }
{
    let server = Server::new(alloc, registry, hooks);
    Edge::new(alloc, server)
}

/// Serves so many connections of a listener, one after the other. The fault of one ends that one alone.
pub fn serve_each<'r, R: Net + rt::Clock, H: HookHost>(
    clock: &mut MachineClock<'r, R>,
    listener: &R::Listener,
    count: u32,
    edge: &mut Edge<H>,
    rng: &mut ChaCha20Rng,
) -> Result<(), ListenFault>
    ensures { OnOk result (ServesEach (stream_service H.HookHost ⟦<R::Stream as Stream>⟧.does NUMBER) ⟦<MachineClock<'r, R> as Clock>⟧.tells
        (between edge.old clock.old rng.old) count (between edge.new clock.new rng.new)) }
{
    for served in 0..count {
        let mut stream = next_connection(clock.0, listener)?;
        let _ = stream.set_nodelay(true);
        let _ = serve_one(edge, ConnectionNo::new(NUMBER), &mut stream, clock, rng);
        see_off(&mut stream);
    }
    Ok(())
}

/// Listens at an address, tells where, and serves so many connections, one after the other, with draws by a seed.
pub fn serve<'r, R: Net + rt::Clock + AllocGlobal, W: Write>(
    rt: &'r R,
    address: &str,
    registry: Registry,
    seed: [u8; 32],
    count: u32,
    out: &mut W,
) -> Result<(), ListenFault>
    ensures announced { OnOk result (Announces (W.contents out.old) (W.contents out.new)) }
    ensures served { OnOk result (ServesCount ⟦<R::Stream as Stream>⟧ ⟦<MachineClock<'r, R> as Clock>⟧ (handed_count registry seed count)) }
{
    let listener = listen(rt, address, out)?;
    let mut edge = new_edge(rt.alloc(), registry, Chain::new(rt.alloc()));
    let mut rng = ChaCha20Rng::from_seed(seed);
    serve_each(&mut MachineClock(rt), &listener, count, &mut edge, &mut rng)?;
    Ok(())
}
