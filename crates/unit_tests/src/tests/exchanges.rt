//! Requests to a server and the replies to them, one after the other. What memory is refused for is asked once more.

use super::asked::{REGISTRY, UNAVAILABLE};
use clients::{ConfigFault, Registry};
use consent::Moment;
use endpoints::Server;
use hook_chain::Chain;
use hook_host::HookHost;
use http_edge::{ConnectionNo, Edge, EdgeFault, Event};
use messages::Draws;
use std::alloc::Global;
use std::process::Abort;

/// The second of a request, its two draws, which repeat bytes, and the reply to it.
pub(super) type Exchange = (u32, (u8, u8), &'static [u8], &'static [u8]);

/// The draws of a request, which repeat these bytes.
pub(super) fn draws_of((one, other): (u8, u8)) -> Draws {
    Draws {
        first: [one; 32],
        second: [other; 32],
    }
}

/// The registry, where memory was refused once more.
pub(super) fn registry(alloc: Global) -> Result<Registry, ConfigFault> {
    match Registry::read(alloc, REGISTRY) {
        Err(ConfigFault::Memory) => Registry::read(alloc, REGISTRY),
        rules => rules,
    }
}

/// An edge over a server of the registry.
pub(super) fn edge_of<H: HookHost>(alloc: Global, host: H) -> Result<Edge<H>, ConfigFault> {
    let rules = registry(alloc)?;
    Ok(Edge::new(alloc, Server::new(alloc, rules, host)))
}

/// An edge over a server without hooks, and connection 1.
pub(super) fn opened(alloc: Global) -> Result<Edge<Chain>, ConfigFault> {
    let mut edge = edge_of(alloc, Chain::new(alloc))?;
    let _ = open(&mut edge, first());
    Ok(edge)
}

/// Connection 1.
pub(super) fn first() -> ConnectionNo {
    ConnectionNo::new(1)
}

/// A connection is opened, where memory was refused once more.
pub(super) fn open<H: HookHost>(edge: &mut Edge<H>, c: ConnectionNo) -> Result<(), EdgeFault> {
    match edge.event(Event::Open(c)) {
        Err(EdgeFault::Memory) => edge.event(Event::Open(c)),
        answer => answer,
    }
}

/// The stream of a connection ends.
pub(super) fn end<H: HookHost>(edge: &mut Edge<H>, c: ConnectionNo) -> Result<(), EdgeFault> {
    edge.event(Event::End(c))
}

/// A piece comes on connection 1.
fn piece<H: HookHost>(
    edge: &mut Edge<H>,
    piece: &[u8],
    moment: u32,
    draws: &[Draws],
) -> Result<(), EdgeFault> {
    edge.event(Event::Bytes {
        connection: first(),
        piece,
        moment: Moment::new(u64::from(moment)),
        draws,
    })
}

/// A request comes on connection 1, where memory was refused once more.
fn asked<H: HookHost>(edge: &mut Edge<H>, exchange: &Exchange) -> Result<(), EdgeFault> {
    let (moment, draws, request, _) = *exchange;
    let draws = [draws_of(draws)];
    match piece(edge, request, moment, &draws) {
        Err(EdgeFault::Memory) => piece(edge, request, moment, &draws),
        answer => answer,
    }
}

/// All that goes out on connection 1 is taken.
fn take_all<H: HookHost>(edge: &mut Edge<H>) {
    let connection = first();
    let length = edge.output(connection).len();
    edge.take(connection, length);
}

/// Asserts that requests are answered as they are to be.
pub(super) fn assert_answered<H: HookHost>(
    rt: &impl Abort,
    edge: &mut Edge<H>,
    exchanges: &[Exchange],
) {
    for (i, exchange) in exchanges.iter().enumerate() {
        let (_, _, _, reply) = *exchange;
        assert_eq!(rt; asked(edge, exchange), Ok(()), "exchange {i}");
        if edge.output(first()) == UNAVAILABLE && reply != UNAVAILABLE {
            take_all(edge);
            assert_eq!(rt; asked(edge, exchange), Ok(()), "exchange {i}");
        }
        assert!(rt; edge.output(first()) == reply, "exchange {i}");
        take_all(edge);
    }
}
