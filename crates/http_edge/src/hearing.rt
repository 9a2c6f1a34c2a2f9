//! A piece is read and answered.
ghost use Rattle.std.specs.Prelude.{◌≡◌, ◌≤◌, ◌<◌, ◌+◌, ◌⊎◌, ℕ, List, [], ◌++◌, length, drop, vec_len, vec_capacity, OnOk, IfErr, OnErr, IsErrOf, if◌then◌else◌};
ghost use Rattle.heads.specs.Scan.{IsScan};
ghost use Rattle.http_edge.specs.Limits.{piece_limit, request_limit, room_to_hear};
ghost use Rattle.http_edge.specs.Schedule.{faulty_if};
ghost use Rattle.http_edge.specs.Supply.{Suffices};
ghost use Rattle.http_edge.specs.Rests.{seen_rest};
ghost use Rattle.http_edge.specs.Heard.{HasRoom, IsHeard, IsHearingRefusal, timed_bytes, hearing, reply_room, seen_output, with_faulty};
ghost use Rattle.http_edge.specs.declared.lane.Phase.TheVariants.{Closing};
ghost use Rattle.http_edge.specs.declared.fault.EdgeFault.TheVariants.{Memory};

use crate::answering::answer_all;
use crate::fault::EdgeFault;
use crate::lane::{Lane, Phase};
use crate::limits::{REPLY_LIMIT, REQUEST_LIMIT};
use crate::output::Output;
use crate::rest::Rest;
use crate::room::put;
use crate::source::DrawSource;
use endpoints::{Moment, Server};
use heads::{Scan, read_front, scan_behind};
use hook_host::HookHost;
use std::alloc::AllocError;
use telling::Tellings;

// So many bytes has the 400 of a faulty head.
const FAULTY_SIZE: usize = 66;

// How much room the replies need at most.
fn room_for(scan: &Scan) -> usize
    requires { scan.now.count ≤ request_limit }
    ensures { result ≡ reply_room scan.now }
{
    if scan.faulty {
        scan.count * REPLY_LIMIT + FAULTY_SIZE
    } else {
        scan.count * REPLY_LIMIT
    }
}

// Whether so many requests are answered: room is made for all their replies, before the first is decided.
fn make_room<S: DrawSource>(output: &mut Output, scan: &Scan, source: &S) -> Result<(), EdgeFault>
    ensures few { OnOk result (scan.now.count ≤ request_limit) }
    ensures enough { OnOk result (Suffices (S.supply source.now) scan.now.count) }
    ensures room { OnOk result (HasRoom output.new (reply_room scan.now) (scan.now.count + 1)) }
    ensures refused { (bytes : List ℕ) → IsScan bytes scan.now → IfErr result (λ fault. IsHearingRefusal fault bytes (S.supply source.now)) }
    ensures missing { IsErrOf result Memory → (vec_capacity output.old.bytes < vec_len output.old.bytes + reply_room scan.now)
        ⊎ (vec_capacity output.old.ends < vec_len output.old.ends + (scan.now.count + 1)) }
    ensures same { seen_output output.new ≡ seen_output output.old }
{
    if scan.count > REQUEST_LIMIT {
        return Err(EdgeFault::TooManyRequests);
    }
    if !source.suffices(scan.count) {
        return Err(EdgeFault::DrawsShort);
    }
    let Ok(()) = output.reserve(room_for(scan), scan.count + 1) else {
        return Err(EdgeFault::Memory);
    };
    Ok(())
}

// Keeps what was not read, and nothing behind a faulty head.
fn keep_rest(rest: &mut Rest, bytes: &[u8], scan: &Scan) -> Result<(), AllocError>
    requires { IsScan bytes.now scan.now }
    ensures ok { OnOk result (rest.new ≡ seen_rest (if scan.now.faulty then [] else drop scan.now.end bytes.now) scan.now.waits) }
    ensures err { OnErr result (rest.new ≡ rest.old) }
{
    if scan.faulty {
        rest.clear();
        return Ok(());
    }
    rest.replace(&bytes[scan.end..], scan.waits)
}

fn tell(output: &mut Output, faulty: bool)
    requires { HasRoom output.old (length (faulty_if faulty)) 1 }
    ensures { seen_output output.new ≡ with_faulty (seen_output output.old) faulty }
{
    if faulty {
        output.push_faulty();
    }
}

// After a faulty head was told of, a lane is closing.
fn phase_after(phase: Phase, scan: &Scan) -> Phase
    ensures { result ≡ (if scan.now.faulty then Closing else phase) }
{
    if scan.faulty { Phase::Closing } else { phase }
}

// Answers the requests of the bytes, and keeps their rest.
fn answer_bytes<H: HookHost, S: DrawSource>(
    server: &mut Server<H>,
    bytes: &[u8],
    lane: &mut Lane,
    moment: Moment,
    source: &mut S,
    tellings: &mut Tellings,
) -> Result<(), EdgeFault>
    ensures heard { OnOk result (IsHeard H.HookHost S.DrawSource (hearing server.old lane.old source.old tellings.old)
        (timed_bytes bytes.now moment) (hearing server.new lane.new source.new tellings.new)) }
    ensures refused { IfErr result (λ fault. IsHearingRefusal fault bytes.now (S.supply source.old)) }
    ensures server_kept { OnErr result (server.new ≡ server.old) }
    ensures lane_kept { OnErr result (lane.new ≡ lane.old) }
    ensures source_kept { OnErr result (source.new ≡ source.old) }
    ensures nothing_told { OnErr result (tellings.new ≡ tellings.old) }
{
    let first = read_front(bytes);
    let scan = scan_behind(bytes, first);
    if let Err(fault) = make_room(&mut lane.output, &scan, source) {
        return Err(fault);
    }
    let Ok(()) = keep_rest(&mut lane.rest, bytes, &scan) else {
        return Err(EdgeFault::Memory);
    };
    answer_all(
        server,
        bytes,
        first,
        scan.count,
        moment,
        source,
        &mut lane.output,
        tellings,
    );
    tell(&mut lane.output, scan.faulty);
    lane.output.give_back();
    lane.phase = phase_after(lane.phase, &scan);
    Ok(())
}

/// Reads the lane's rest and the piece, and answers the requests in them. Where there is a rest, the two lie together in `work`
/// meanwhile, which has room for them and is empty before and after. After a faulty head was told of the lane is closing.
pub(crate) fn hear<H: HookHost, S: DrawSource>(
    server: &mut Server<H>,
    work: &mut Vec<u8>,
    lane: &mut Lane,
    piece: &[u8],
    moment: Moment,
    source: &mut S,
    tellings: &mut Tellings,
) -> Result<(), EdgeFault>
    requires short { length piece.now ≤ piece_limit }
    requires empty { vec_len work.old ≡ 0 }
    requires room { room_to_hear ≤ vec_capacity work.old }
    ensures heard { OnOk result (IsHeard H.HookHost S.DrawSource (hearing server.old lane.old source.old tellings.old)
        (timed_bytes (lane.old.rest ++ piece.now) moment) (hearing server.new lane.new source.new tellings.new)) }
    ensures refused { IfErr result (λ fault. IsHearingRefusal fault (lane.old.rest ++ piece.now) (S.supply source.old)) }
    ensures server_kept { OnErr result (server.new ≡ server.old) }
    ensures lane_kept { OnErr result (lane.new ≡ lane.old) }
    ensures source_kept { OnErr result (source.new ≡ source.old) }
    ensures nothing_told { OnErr result (tellings.new ≡ tellings.old) }
    ensures empty { vec_len work.new ≡ 0 }
    ensures room { vec_capacity work.old ≤ vec_capacity work.new }
{
    let Ok(waits) = lane.rest.wait(piece) else {
        return Err(EdgeFault::Memory);
    };
    if waits {
        return Ok(());
    }
    if lane.rest.is_empty() {
        return answer_bytes(server, piece, lane, moment, source, tellings);
    }
    put(work, lane.rest.as_slice());
    put(work, piece);
    let answer = answer_bytes(server, work.as_slice(), lane, moment, source, tellings);
    work.clear();
    answer
}
