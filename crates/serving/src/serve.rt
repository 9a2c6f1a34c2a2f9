//! A connection served from its opening on.
ghost use Rattle.std.specs.Prelude.{◌≡◌, ◌<◌, Some, OnOk, OnErr, IfErr};
ghost use Rattle.http_edge.specs.Reached.{Journey, Reached};
ghost use Rattle.serving.specs.Served.{Runs, Coming, Reading, Finished, Served, Left, IsAttentive, IsWritten, WriteFails, edge_stream, serving_scene, stream_service, LeadsOn, any_fault};
ghost use Rattle.serving.specs.ServedParts.{Goes, GoesByRead, serving, stage_over};
ghost use Rattle.serving.specs.Answered.{ServesConnection};
ghost use Rattle.serving.specs.declared.fault.ServeFault.TheVariants.{Write};

use crate::clock::Clock;
use crate::fault::ServeFault;
use crate::piece_draws::PieceDraws;
use crate::stream::Stream;
use hook_host::HookHost;
use http_edge::{ConnectionNo, Edge, Event};
use rand_chacha::ChaCha20Rng;

/// So many bytes has a piece at most.
pub const PIECE_LIMIT: usize = 512;

/// So many pieces are read of one connection at most.
pub const READ_LIMIT: u32 = 1_048_576;

// What came of a read.
#[derive(Clone, Copy)]
enum Heard {
    Piece,
    End,
}

// Reads a piece, and gives it to the edge with the draws that are its own.
fn hear<H: HookHost, S: Stream, C: Clock>(
    edge: &mut Edge<H>,
    c: ConnectionNo,
    stream: &mut S,
    clock: &mut C,
    rng: &mut ChaCha20Rng,
) -> Result<Heard, ServeFault>
    requires attentive { IsAttentive H.HookHost edge.old c }
    ensures { GoesByRead (stream_service H.HookHost S.does c) C.tells (serving edge.old stream.old clock.old rng.old) result
        (serving edge.new stream.new clock.new rng.new) }
{
    let mut buffer = [0; PIECE_LIMIT];
    let Ok(count) = stream.receive(&mut buffer) else {
        return Err(ServeFault::Read);
    };
    if count == 0 {
        return Ok(Heard::End);
    }
    let mut draws = PieceDraws::of_next(rng);
    let Some(moment) = clock.now() else {
        return Err(ServeFault::Clock);
    };
    let mut nobody = edge.nobody();
    if let Err(fault) = edge.hear(c, &buffer[..count], moment, &mut draws, &mut nobody) {
        return Err(ServeFault::Refused(fault));
    }
    Ok(Heard::Piece)
}

// Writes all output.
fn write_output<H: HookHost, S: Stream>(
    edge: &mut Edge<H>,
    c: ConnectionNo,
    stream: &mut S,
) -> Result<(), ServeFault>
    ensures written { OnOk result (IsWritten (stream_service H.HookHost S.does c) (edge_stream edge.old stream.old)
        (edge_stream edge.new stream.new)) }
    ensures fault { IfErr result (λ fault. fault ≡ Write) }
    ensures failed { OnErr result (WriteFails (stream_service H.HookHost S.does c) (edge_stream edge.old stream.old)
        (edge_stream edge.new stream.new)) }
{
    'writes: while !edge.output(c).is_empty() {
        let output = edge.output(c);
        let Ok(count) = stream.send(output) else {
            return Err(ServeFault::Write);
        };
        if count == 0 {
            return Err(ServeFault::Write);
        }
        edge.take(c, count);
    }
    Ok(())
}

// How the reading ended.
#[derive(Clone, Copy)]
enum Over {
    // The 400 of a faulty head was written.
    Closed,
    // No more is read.
    Finished,
}

// Reads a piece after another, and writes what is answered.
fn hear_all<H: HookHost, S: Stream, C: Clock>(
    edge: &mut Edge<H>,
    c: ConnectionNo,
    stream: &mut S,
    clock: &mut C,
    rng: &mut ChaCha20Rng,
) -> Result<Over, ServeFault>
    ensures { Goes (stream_service H.HookHost S.does c) C.tells
        (serving_scene (Reading 0) edge.old stream.old clock.old rng.old)
        (serving_scene (stage_over result) edge.new stream.new clock.new rng.new) }
{
    for pieces in 0..READ_LIMIT {
        write_output(edge, c, stream)?;
        if edge.closing(c) {
            return Ok(Over::Closed);
        }
        match hear(edge, c, stream, clock, rng)? {
            Heard::Piece => {}
            Heard::End => return Ok(Over::Finished),
        }
    }
    Ok(Over::Finished)
}

// Serves a connection that was opened.
fn attend<H: HookHost, S: Stream, C: Clock>(
    edge: &mut Edge<H>,
    c: ConnectionNo,
    stream: &mut S,
    clock: &mut C,
    rng: &mut ChaCha20Rng,
) -> Result<(), ServeFault>
    ensures { Goes (stream_service H.HookHost S.does c) C.tells
        (serving_scene (Reading 0) edge.old stream.old clock.old rng.old)
        (serving_scene (Served (any_fault result)) edge.new stream.new clock.new rng.new) }
{
    match hear_all(edge, c, stream, clock, rng)? {
        Over::Closed => Ok(()),
        Over::Finished => {
            if let Err(fault) = edge.event(Event::End(c)) {
                return Err(ServeFault::Refused(fault));
            }
            write_output(edge, c, stream)?;
            Ok(())
        }
    }
}

/// Serves one connection, with number `c`, from its opening to its end: pieces of at most 512 bytes are read and given to
/// the edge, and all output is written before the next. It is over where the stream has no more, where 1,048,576 pieces
/// were read, or where the 400 of a faulty head was written. Whatever ends it, the connection is forgotten; where it
/// could not be opened, nothing else is done.
///
/// Each piece that is read has 64 draws of its own, by the next 1,024 words of the generator, and its k-th request has the
/// k-th: neither depends on what the pieces before it held. They are used up also where the piece is refused, or the clock
/// tells no moment for it.
pub fn serve_one<H: HookHost, S: Stream, C: Clock>(
    edge: &mut Edge<H>,
    c: ConnectionNo,
    stream: &mut S,
    clock: &mut C,
    rng: &mut ChaCha20Rng,
) -> Result<(), ServeFault>
    ensures served { Runs (stream_service H.HookHost S.does c) C.tells
        (serving_scene Coming edge.old stream.old clock.old rng.old)
        (serving_scene (Left (any_fault result)) edge.new stream.new clock.new rng.new) }
    ensures reached { (journey : Journey H) → Reached H.HookHost edge.old journey →
        LeadsOn H.HookHost edge.new journey }
    // All that was written is a front of the replies to the requests in what was read.
    ensures written { ServesConnection (stream_service H.HookHost S.does c)
        (edge_stream edge.old stream.old) (any_fault result) (edge_stream edge.new stream.new) }
{
    if let Err(fault) = edge.event(Event::Open(c)) {
        return Err(ServeFault::Refused(fault));
    }
    let result = attend(edge, c, stream, clock, rng);
    edge.forget(c);
    result
}
