//! Connections of bytes over a server.
ghost use Rattle.std.specs.Prelude.{None, ◌≡◌, ◌≤◌, ◌<◌, ◌==◌, [], ◌∷◌, ◌++◌, length, drop, is_some, vec_len, vec_capacity, IsSome, Some, OnOk, OnErr, IfErr};
ghost use Rattle.std.specs.Option.{option_copied};
ghost use Rattle.std.specs.List.{position};
ghost use Rattle.change_codec.specs.Batches.{facts_in};
ghost use Rattle.endpoints.specs.Server.{AreUnkept};
ghost use Rattle.http_edge.specs.Schedule.{AreLeftOfReply, HasEnded, Opened, Taken, Forgotten, Kept, connection_at, ended, piece_of, untaken};
ghost use Rattle.http_edge.specs.Lanes.{lane_at, rest_in, output_in, ends_from};
ghost use Rattle.http_edge.specs.LanesParts.{AreLeftIn, fresh_lane, without_lane, is_closing_lane};
ghost use Rattle.http_edge.specs.Places.{AreApart};
ghost use Rattle.http_edge.specs.PlacesParts.{IsPosition};
ghost use Rattle.http_edge.specs.Edges.{output_of, unkept_of};
ghost use Rattle.http_edge.specs.EdgesParts.{GivenWithMore, IsOpenRefusal, IsEndRefusal, IsBytesRefusal};
ghost use Rattle.http_edge.specs.Reached.{BeginsOver, ResumesOver, InEach, HappeningLeads, is_closing, IsHeld};
ghost use Rattle.http_edge.specs.Pieces.{PieceGiven, RefusesPiece, supplied};
ghost use Rattle.http_edge.specs.Events.{EventLeads};
ghost use Rattle.http_edge.specs.Refusals.{RefusesEvent};
ghost use Rattle.telling.specs.Audience.{nobody};

use crate::connection::ConnectionNo;
use crate::draw_list::DrawList;
use crate::event::Event;
use crate::fault::EdgeFault;
use crate::hearing::hear;
use crate::lane::{Lane, Phase};
use crate::limits::{CONNECTION_LIMIT, PIECE_LIMIT, ROOM_TO_HEAR};
use crate::output::Output;
use crate::rest::Rest;
use crate::source::DrawSource;
use change_codec::Batch;
use endpoints::{Moment, Server};
use hook_host::HookHost;
use std::alloc::{AllocError, Global};
use std::marker::Model;
use telling::Tellings;

/// A server, and the connections over which bytes come to it and go from it.
pub struct Edge<H> {
    server: Server<H>,
    lanes: Vec<Lane>,
    // Where a rest and a piece lie together while they are read. It is empty otherwise.
    work: Vec<u8>,
    alloc: Global,
}

// It is written out, so that whoever lets go of an edge calls this, and is not proved over all that an edge is made of.
impl<H: Drop> Drop for Edge<H> {
    fn drop(self) {
        let Edge {
            server: _server,
            lanes: _lanes,
            work: _work,
            alloc: _,
        } = self;
    }
}

impl<H> Model for Edge<H> {
    ghost use Rattle.std.specs.Prelude.{◌≡◌, ◌<◌, ◌≤◌, vec_len, vec_capacity};
    ghost use Rattle.http_edge.specs.Limits.{room_to_hear};
    ghost use Rattle.http_edge.specs.Edges.{SeenEdge};
    ghost use Rattle.http_edge.specs.Places.{AreApart};

    ghost Value = { SeenEdge H };

    ghost view = { λ e. record { server = e.server; lanes = e.lanes.items } };

    // Where there are connections, there is room for the longest rest and the longest piece.
    ghost invariant = { λ e. (vec_len e.work ≡ 0) × (0 < vec_len e.lanes → room_to_hear ≤ vec_capacity e.work) × AreApart e.lanes.items };
}

fn position_of(lanes: &[Lane], c: ConnectionNo) -> Option<usize>
    ensures { result ≡ position (λ lane. lane.number == c) lanes.now }
{
    lanes.iter().position(|lane| lane.number == c)
}

// Where the connection's lane lies: mostly at the place of its number.
fn place_of(lanes: &[Lane], c: ConnectionNo) -> Option<usize>
    requires apart { AreApart lanes.now }
    ensures { IsPosition lanes.now c result }
{
    let place = c.get() as usize;
    if let Some(lane) = lanes.get(place) {
        if lane.number == c {
            return Some(place);
        }
    }
    position_of(lanes, c)
}

fn lane_of(lanes: &[Lane], c: ConnectionNo) -> Option<&Lane>
    requires apart { AreApart lanes.now }
    ensures { option_copied result ≡ lane_at lanes.now c }
{
    let place = place_of(lanes, c)?;
    lanes.get(place)
}

fn has_lane(lanes: &[Lane], c: ConnectionNo) -> bool
    requires apart { AreApart lanes.now }
    ensures { result ≡ is_some (lane_at lanes.now c) }
{
    lane_of(lanes, c).is_some()
}

fn is_closing(lanes: &[Lane], c: ConnectionNo) -> bool
    requires apart { AreApart lanes.now }
    ensures { result ≡ is_closing_lane (lane_at lanes.now c) }
{
    match lane_of(lanes, c) {
        Some(lane) => lane.phase.is_closing(),
        None => false,
    }
}

fn output_in(lanes: &[Lane], c: ConnectionNo) -> &[u8]
    requires apart { AreApart lanes.now }
    ensures { result.now ≡ output_in (lane_at lanes.now c) }
{
    match lane_of(lanes, c) {
        Some(lane) => lane.output.bytes.as_slice(),
        None => &[],
    }
}

fn held_in(lanes: &[Lane], c: ConnectionNo) -> usize
    requires apart { AreApart lanes.now }
    ensures { result ≡ length (rest_in (lane_at lanes.now c)) }
{
    match lane_of(lanes, c) {
        Some(lane) => lane.rest.len(),
        None => 0,
    }
}

fn new_lane(alloc: Global, c: ConnectionNo) -> Lane
    ensures { result ≡ fresh_lane c }
{
    Lane {
        number: c,
        phase: Phase::Open,
        rest: Rest::new(alloc),
        output: Output::new(alloc),
    }
}

fn add_lane(lanes: &mut Vec<Lane>, alloc: Global, c: ConnectionNo) -> Result<(), AllocError>
    ensures added { OnOk result (lanes.new.items ≡ lanes.old.items ++ fresh_lane c ∷ []) }
    ensures err { OnErr result (lanes.new.items ≡ lanes.old.items) }
{
    let Ok(()) = lanes.reserve(1) else {
        return Err(AllocError);
    };
    let Ok(()) = lanes.push(new_lane(alloc, c)) else {
        unreachable!();
    };
    Ok(())
}

fn remove_lane(lanes: &mut Vec<Lane>, c: ConnectionNo)
    ensures without { lanes.new.items ≡ without_lane c lanes.old.items }
    ensures fewer { vec_len lanes.new ≤ vec_len lanes.old }
{
    lanes.retain(|lane| lane.number != c);
}

fn end_lane(lane: &mut Lane)
    ensures { lane.new ≡ record lane.old { phase = ended lane.old.phase; rest = [] } }
{
    lane.phase = lane.phase.ended();
    lane.rest.clear();
}

fn take_output(lane: &mut Lane, n: usize)
    requires { n ≤ length lane.old.output }
    ensures { lane.new ≡ record lane.old { output = drop n lane.old.output; ends = ends_from n lane.old.ends } }
{
    lane.output.take(n);
}

fn left_in(lanes: &[Lane], c: ConnectionNo) -> usize
    requires apart { AreApart lanes.now }
    ensures { AreLeftIn (lane_at lanes.now c) result }
{
    match lane_of(lanes, c) {
        Some(lane) => lane.output.left_of_reply(),
        None => 0,
    }
}

impl<H: HookHost> Edge<H> {
    /// An edge over a server, without connections. Whatever has happened to the server, the edge goes on from there.
    pub fn new(alloc: Global, server: Server<H>) -> Self
        ensures begun { BeginsOver H.HookHost server result }
        ensures resumed { ResumesOver H.HookHost server result }
    {
        Edge {
            server,
            lanes: Vec::new(alloc),
            work: Vec::new(alloc),
            alloc,
        }
    }

    /// The server.
    pub fn server(&self) -> &Server<H>
        ensures { result.now ≡ self.now.server }
    {
        &self.server
    }

    /// Who is told of nothing.
    pub fn nobody(&self) -> Tellings
        ensures { result ≡ nobody }
    {
        Tellings::unwanted(self.alloc)
    }

    /// The connections, in the order of their opening.
    pub fn lanes(&self) -> &[Lane]
        ensures { result.now ≡ self.now.lanes }
    {
        self.lanes.as_slice()
    }

    /// Whether the connection was answered the 400 of a faulty head, also after its stream has ended.
    pub fn closing(&self, c: ConnectionNo) -> bool
        ensures { InEach H.HookHost self.now (λ world. result ≡ is_closing (connection_at world.connections c)) }
    {
        is_closing(&self.lanes, c)
    }

    /// The bytes to the connection that were not taken yet. Empty where it is not there.
    pub fn output(&self, c: ConnectionNo) -> &[u8]
        ensures kept { result.now ≡ output_of self.now c }
        ensures output { InEach H.HookHost self.now (λ world. result.now ≡ untaken (connection_at world.connections c)) }
    {
        output_in(&self.lanes, c)
    }

    /// How many bytes to the connection are left up to the next end of a reply: 0 right behind one, or where there is no output.
    pub fn left_of_reply(&self, c: ConnectionNo) -> usize
        ensures within { result ≤ length (output_of self.now c) }
        ensures left { InEach H.HookHost self.now (λ world. AreLeftOfReply (connection_at world.connections c) result) }
    {
        left_in(&self.lanes, c)
    }

    /// How many bytes from the connection are kept: those that no message was made of yet. 0 where its stream has ended, or
    /// it was answered the 400 of a faulty head.
    pub fn held(&self, c: ConnectionNo) -> usize
        ensures kept { result ≡ length (rest_in (lane_at self.now.lanes c)) }
        ensures held { InEach H.HookHost self.now (λ world. IsHeld (connection_at world.connections c) result) }
    {
        held_in(&self.lanes, c)
    }

    /// What has happened and was not kept yet, as a batch of dated changes, where the server notes it.
    pub fn unkept(&self) -> Option<&Batch>
        ensures noted { facts_in result ≡ unkept_of self.now }
        ensures unkept { InEach H.HookHost self.now (λ world. AreUnkept (facts_in result) world.kept world.history) }
    {
        self.server.unkept()
    }

    /// All that has happened was kept, and is no longer unkept.
    pub fn forget_unkept(&mut self)
        requires { IsSome (unkept_of self.old) }
        ensures kept { HappeningLeads H.HookHost self.old self.new Kept }
        ensures none { unkept_of self.new ≡ Some [] }
        ensures lanes { self.new.lanes ≡ self.old.lanes }
    {
        self.server.forget_unkept();
    }

    // A connection is opened.
    fn open(&mut self, c: ConnectionNo) -> Result<(), EdgeFault>
        ensures done { OnOk result (HappeningLeads H.HookHost self.old self.new (Opened c)) }
        ensures refused { IfErr result (λ fault. IsOpenRefusal fault self.old.lanes c) }
        ensures err { OnErr result (self.new ≡ self.old) }
    {
        if has_lane(&self.lanes, c) {
            return Err(EdgeFault::AlreadyOpen);
        }
        if self.lanes.len() >= CONNECTION_LIMIT {
            return Err(EdgeFault::TooMany);
        }
        let Ok(()) = self.work.reserve_exact(ROOM_TO_HEAR) else {
            return Err(EdgeFault::Memory);
        };
        let Ok(()) = add_lane(&mut self.lanes, self.alloc, c) else {
            return Err(EdgeFault::Memory);
        };
        Ok(())
    }

    // A piece came.
    fn hear_piece<S: DrawSource>(
        &mut self,
        c: ConnectionNo,
        piece: &[u8],
        moment: Moment,
        source: &mut S,
        tellings: &mut Tellings,
    ) -> Result<(), EdgeFault>
        ensures given { OnOk result (GivenWithMore H.HookHost S.DrawSource (supplied self.old source.old tellings.old)
            (piece_of c piece.now moment) (supplied self.new source.new tellings.new)) }
        ensures refused { IfErr result (λ fault. IsBytesRefusal fault self.old.lanes c piece.now (S.supply source.old)) }
        ensures err { OnErr result (self.new ≡ self.old) }
        ensures undrawn { OnErr result (source.new ≡ source.old) }
        ensures nothing_told { OnErr result (tellings.new ≡ tellings.old) }
    {
        let Some(i) = place_of(&self.lanes, c) else {
            return Err(EdgeFault::NotOpen);
        };
        if self.lanes[i].phase.has_ended() {
            return Err(EdgeFault::NotOpen);
        }
        if piece.len() > PIECE_LIMIT {
            return Err(EdgeFault::PieceTooLong);
        }
        if self.lanes[i].phase.is_closing() {
            return Ok(());
        }
        if let Err(fault) = hear(
            &mut self.server,
            &mut self.work,
            &mut self.lanes[i],
            piece,
            moment,
            source,
            tellings,
        ) {
            return Err(fault);
        }
        Ok(())
    }

    // The stream of a connection ended.
    fn end(&mut self, c: ConnectionNo) -> Result<(), EdgeFault>
        ensures done { OnOk result (HappeningLeads H.HookHost self.old self.new (HasEnded c)) }
        ensures refused { IfErr result (λ fault. IsEndRefusal fault self.old.lanes c) }
        ensures err { OnErr result (self.new ≡ self.old) }
    {
        let Some(i) = place_of(&self.lanes, c) else {
            return Err(EdgeFault::NotOpen);
        };
        if self.lanes[i].phase.has_ended() {
            return Err(EdgeFault::NotOpen);
        }
        end_lane(&mut self.lanes[i]);
        Ok(())
    }

    /// A piece of a connection's stream came at a moment. Each request that it completes has the next draws of the source, and
    /// the source stands right behind them. What is told of them, in their order, is heard where it is wanted. A refused piece
    /// changes nothing, takes no draws and tells of nothing.
    pub fn hear<S: DrawSource>(
        &mut self,
        c: ConnectionNo,
        piece: &[u8],
        moment: Moment,
        source: &mut S,
        tellings: &mut Tellings,
    ) -> Result<(), EdgeFault>
        ensures given { OnOk result (PieceGiven H.HookHost S.DrawSource (supplied self.old source.old tellings.old)
            (piece_of c piece.now moment) (supplied self.new source.new tellings.new)) }
        // In the order NotOpen, PieceTooLong, TooManyRequests, DrawsShort, Memory.
        ensures refused { IfErr result (RefusesPiece H.HookHost self.old (piece_of c piece.now moment) (S.supply source.old)) }
        ensures err { OnErr result (self.new ≡ self.old) }
        ensures undrawn { OnErr result (source.new ≡ source.old) }
        ensures nothing_told { OnErr result (tellings.new ≡ tellings.old) }
    {
        self.hear_piece(c, piece, moment, source, tellings)
    }

    /// An event happens, or is refused and changes nothing.
    pub fn event(&mut self, event: Event<'_>) -> Result<(), EdgeFault>
        ensures done { OnOk result (EventLeads H.HookHost self.old self.new event.entry) }
        // For an opening in the order AlreadyOpen, TooMany, Memory; for bytes in the order NotOpen, PieceTooLong,
        // TooManyRequests, DrawsShort, Memory.
        ensures refused { IfErr result (λ fault. RefusesEvent H.HookHost self.old event.entry fault) }
        ensures err { OnErr result (self.new ≡ self.old) }
    {
        match event {
            Event::Open(c) => self.open(c),
            Event::Bytes {
                connection,
                piece,
                moment,
                draws,
            } => {
                let mut nobody = self.nobody();
                self.hear_piece(
                    connection,
                    piece,
                    moment,
                    &mut DrawList::new(draws),
                    &mut nobody,
                )
            }
            Event::End(c) => self.end(c),
        }
    }

    /// So many bytes to the connection were taken, at most as many as its output has.
    pub fn take(&mut self, c: ConnectionNo, n: usize)
        requires { n ≤ length (output_of self.old c) }
        ensures taken { HappeningLeads H.HookHost self.old self.new (Taken c n) }
        ensures left { output_of self.new c ≡ drop n (output_of self.old c) }
    {
        if let Some(i) = place_of(&self.lanes, c) {
            take_output(&mut self.lanes[i], n);
        }
    }

    /// The connection is forgotten, if it is there. Its number may be opened again.
    pub fn forget(&mut self, c: ConnectionNo)
        ensures forgotten { HappeningLeads H.HookHost self.old self.new (Forgotten c) }
        ensures gone { lane_at self.new.lanes c ≡ None }
    {
        remove_lane(&mut self.lanes, c);
    }
}
