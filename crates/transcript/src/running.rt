//! A transcript's lines, run over an edge.

ghost use Rattle.std.specs.Prelude.{◌≡◌, ◌++◌, [], map, IfOk, IfErr, OnOk};
ghost use Rattle.endpoints.specs.Server.{outset_of};
ghost use Rattle.transcript.specs.Called.{AreCalls, AreDone, LinesAreMade, IsCallOf};
ghost use Rattle.transcript.specs.Seen.{stated};
ghost use Rattle.transcript.specs.Replays.{printed, IsReplay, IsReplayFault};
ghost use Rattle.transcript.specs.Running.{printed_lanes, HaveStated, IsFirstRefusal, LinesFail};

use crate::fault::ReplayFault;
use crate::line::{Line, json, lines, statement};
use clients::Registry;
use headline::{EdgeCall, Upshot, make_calls};
use hook_chain::Chain;
use hook_host::HookHost;
use http_edge::{ConnectionNo, Edge, Event, Lane};
use std::alloc::{AllocError, Global};

/// What lines behind the first state, up to the first of them that states nothing.
#[derive(Drop)]
struct Stated {
    lines: Vec<Line>,
    /// The number of the one that states nothing, if one does.
    bad: Option<usize>,
}

/// What lines behind the first state.
fn read_lines(alloc: Global, texts: &[&str]) -> Result<Stated, AllocError>
    ensures { IfOk result (λ read. HaveStated (map (λ text. text.now) texts.now) (map stated read.lines.items) read.bad) }
{
    let mut lines = Vec::new(alloc);
    for text in texts {
        let Some(line) = statement(alloc, text)? else {
            let bad = Some(lines.len() + 2);
            return Ok(Stated { lines, bad });
        };
        lines.push(line)?;
    }
    Ok(Stated { lines, bad: None })
}

/// The call that a line states.
fn call_of(line: &Line) -> EdgeCall<'_>
    ensures { IsCallOf (stated line.now) result }
{
    match line {
        Line::Open(connection) => EdgeCall::Event(Event::Open(*connection)),
        Line::Bytes {
            connection,
            moment,
            draws,
            piece,
        } => EdgeCall::Event(Event::Bytes {
            connection: *connection,
            piece: piece.as_slice(),
            moment: *moment,
            draws: draws.as_slice(),
        }),
        Line::End(connection) => EdgeCall::Event(Event::End(*connection)),
    }
}

/// The calls that lines state.
fn calls_of(alloc: Global, lines: &[Line]) -> Result<Vec<EdgeCall<'_>>, AllocError>
    ensures { IfOk result (λ calls. AreCalls (map stated lines.now) calls.items) }
{
    let mut calls = Vec::new(alloc);
    for line in lines {
        let call = call_of(line);
        calls.extend_from_slice(&[call])?;
    }
    Ok(calls)
}

/// The first of the calls that was refused, as the fault of its line.
fn first_refusal(upshots: &[Upshot]) -> Result<(), ReplayFault>
    ensures done { OnOk result (AreDone upshots.now) }
    ensures refused { IfErr result (IsFirstRefusal upshots.now) }
{
    let mut number = 1;
    for upshot in upshots {
        number += 1;
        if let Upshot::Refused(fault) = upshot {
            return Err(ReplayFault::of_event(number, *fault));
        }
    }
    Ok(())
}

/// The calls that lines behind the first state, made on a new edge.
fn run_lines<H: HookHost + Drop>(
    alloc: Global,
    rules: Registry,
    host: H,
    texts: &[&str],
) -> Result<Edge<H>, ReplayFault>
    ensures done { IfOk result (LinesAreMade H.HookHost (outset_of rules host) (map (λ text. text.now) texts.now)) }
    ensures fault { IfErr result (LinesFail H.HookHost (outset_of rules host) (map (λ text. text.now) texts.now)) }
{
    let read = read_lines(alloc, texts)?;
    let calls = calls_of(alloc, &read.lines)?;
    let made = make_calls(alloc, rules, host, &calls)?;
    first_refusal(&made.upshots)?;
    if let Some(number) = read.bad {
        return Err(ReplayFault::BadLine(number));
    }
    Ok(made.edge)
}

/// The output of a connection is printed.
fn print_output(
    alloc: Global,
    out: &mut Vec<u8>,
    c: ConnectionNo,
    output: &[u8],
) -> Result<(), AllocError>
    ensures { OnOk result (out.new.items ≡ out.old.items ++ printed c output.now) }
{
    let head = format!(in alloc; "connection {} {}\n", c.get(), output.len())?;
    out.extend_from_slice(head.as_bytes())?;
    out.extend_from_slice(output)?;
    out.extend_from_slice(b"\n")?;
    Ok(())
}

/// The output of connections, in their order.
fn print_outputs(alloc: Global, lanes: &[Lane]) -> Result<Vec<u8>, AllocError>
    ensures { IfOk result (λ out. out.items ≡ printed_lanes lanes.now) }
{
    let mut out = Vec::new(alloc);
    for lane in lanes {
        print_output(alloc, &mut out, lane.number(), lane.output())?;
    }
    Ok(out)
}

/// What a transcript is answered: all that its server, whose registry the first line hands in, sent to each connection.
/// Lines are read and run in order, and the first fault counts.
pub fn replay(alloc: Global, text: &str) -> Result<Vec<u8>, ReplayFault>
    ensures done { IfOk result (λ output. IsReplay ⟦<Chain as HookHost>⟧ [] text.now output.items) }
    ensures fault { IfErr result (IsReplayFault ⟦<Chain as HookHost>⟧ [] text.now) }
{
    replay_on(alloc, Chain::new(alloc), text)
}

/// The same, of a server that begins with this host of hooks.
pub fn replay_on<H: HookHost + Drop>(
    alloc: Global,
    host: H,
    text: &str,
) -> Result<Vec<u8>, ReplayFault>
    ensures done { IfOk result (λ output. IsReplay H.HookHost host text.now output.items) }
    ensures fault { IfErr result (IsReplayFault H.HookHost host text.now) }
{
    let lines = lines(alloc, text)?;
    let Some((first, later)) = lines.split_first() else {
        return Err(ReplayFault::BadLine(1));
    };
    let Some(json) = json(first) else {
        return Err(ReplayFault::BadLine(1));
    };
    let registry = Registry::read(alloc, json.as_bytes())?;
    let edge = run_lines(alloc, registry, host, later)?;
    let out = print_outputs(alloc, edge.lanes())?;
    Ok(out)
}
