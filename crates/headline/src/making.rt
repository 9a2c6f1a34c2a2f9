//! Calls that are made on a new edge.

ghost use Rattle.std.specs.Prelude.{◌≡◌, IfOk, IfErr, OnOk, OnErr, length, take};
ghost use Rattle.endpoints.specs.Server.{outset_of};
ghost use Rattle.http_edge.specs.Edges.{output_of};
ghost use Rattle.http_edge.specs.Events.{EventLeads};
ghost use Rattle.http_edge.specs.Reached.{HappeningLeads};
ghost use Rattle.http_edge.specs.Refusals.{RefusesEvent};
ghost use Rattle.http_edge.specs.Schedule.{Taken};
ghost use Rattle.headline.specs.Headline.{IsMade};
ghost use Rattle.headline.specs.Making.{CallLeads};

use crate::call::{EdgeCall, Upshot};
use clients::Registry;
use endpoints::Server;
use hook_host::HookHost;
use http_edge::{ConnectionNo, Edge, EdgeFault, Event};
use std::alloc::{AllocError, Global};

/// An edge on which calls were made, and what came of each of them.
#[derive(Drop)]
pub struct Made<H> {
    pub edge: Edge<H>,
    pub upshots: Vec<Upshot>,
}

// At most so many of the bytes to a connection are taken.
fn take_bytes<H: HookHost>(
    alloc: Global,
    edge: &mut Edge<H>,
    c: ConnectionNo,
    most: usize,
) -> Result<Vec<u8>, AllocError>
    ensures bytes { IfOk result (λ bytes. bytes.items ≡ take most (output_of edge.old c)) }
    ensures taken { IfOk result (λ bytes. HappeningLeads H.HookHost edge.old edge.new (Taken c (length bytes.items))) }
    ensures err { OnErr result (edge.new ≡ edge.old) }
{
    let output = edge.output(c);
    let count = most.min(output.len());
    let mut bytes = Vec::new(alloc);
    bytes.extend_from_slice(&output[..count])?;
    edge.take(c, count);
    Ok(bytes)
}

// An event happens, or is refused and changes nothing.
fn happen<H: HookHost>(edge: &mut Edge<H>, event: &Event<'_>) -> Result<(), EdgeFault>
    ensures done { OnOk result (EventLeads H.HookHost edge.old edge.new event.now) }
    ensures refused { IfErr result (RefusesEvent H.HookHost edge.old event.now) }
    ensures err { OnErr result (edge.new ≡ edge.old) }
{
    match event {
        Event::Open(c) => edge.event(Event::Open(*c)),
        Event::Bytes {
            connection,
            piece,
            moment,
            draws,
        } => edge.event(Event::Bytes {
            connection: *connection,
            piece,
            moment: *moment,
            draws,
        }),
        Event::End(c) => edge.event(Event::End(*c)),
    }
}

// One call is made.
fn make_call<H: HookHost>(alloc: Global, edge: &mut Edge<H>, call: &EdgeCall<'_>) -> Upshot
    ensures { CallLeads H.HookHost edge.old edge.new call.now result }
{
    match call {
        EdgeCall::Event(event) => match happen(edge, event) {
            Ok(()) => Upshot::Done(Vec::new(alloc)),
            Err(fault) => Upshot::Refused(fault),
        },
        EdgeCall::Take { connection, most } => match take_bytes(alloc, edge, *connection, *most) {
            Ok(bytes) => Upshot::Done(bytes),
            Err(AllocError) => Upshot::Refused(EdgeFault::Memory),
        },
        EdgeCall::Forget(connection) => {
            edge.forget(*connection);
            Upshot::Done(Vec::new(alloc))
        }
    }
}

/// Makes calls, in their order, on a new edge over a server of the registry and the host: the edge, and what came of each
/// call; or memory was refused.
pub fn make_calls<H: HookHost>(
    alloc: Global,
    rules: Registry,
    host: H,
    calls: &[EdgeCall<'_>],
) -> Result<Made<H>, AllocError>
    ensures { IfOk result (λ made. IsMade H.HookHost (outset_of rules host) calls.now made.upshots.items made.edge) }
{
    let mut edge = Edge::new(alloc, Server::new(alloc, rules, host));
    let mut upshots = Vec::new(alloc);
    for call in calls {
        let upshot = make_call(alloc, &mut edge, call);
        upshots.push(upshot)?;
    }
    Ok(Made { edge, upshots })
}
