//! The bytes of a file, read from its pieces.

ghost use Rattle.std.specs.Prelude.{◌≡◌, ◌↔◌, ◌⊎◌, ◌<◌, ◌≤◌, ◌+◌, ◌-◌, ◌++◌, [], ◌∷◌, IfOk, IfSome, IsTrue, None, OnErr, OnOk, is_some, length, take, true};
ghost use Rattle.etcd_cluster.specs.Again.{AsksAgain};
ghost use Rattle.etcd_cluster.specs.Calls.{AskedPieces};
ghost use Rattle.etcd_cluster.specs.Worlds.{seen_pieces, stand_seen};
ghost use Rattle.cluster_file.specs.Devices.{GoesOn, IsWell, KeepsSeen};
ghost use Rattle.cluster_file.specs.Files.{IsSound, IsWhole, next_of, seen_of};
ghost use Rattle.cluster_file.specs.Looks.{HasLooked, Learns, MayHaveLooked};
ghost use Rattle.cluster_file.specs.Opened.{IsOpened, IsToldAnew};
ghost use Rattle.cluster_file.specs.Places.{HasByte, ReachesBehind, TellsPart, unpieced_from, IsOneOf, IsOver, IsPartOf, IsRead, IsSeenAt, IsTold, KeepsFront, MayLook, unpieced};

use crate::beside::push_one;
use crate::file::{ClusterFile, FAILED, MORE, failed_of};
use batch_file::device::DeviceFault;
use etcd_cluster::change::{CallFault, Piece, Wanted};
use etcd_cluster::cluster::Cluster;
use etcd_cluster::settling::{SettleFault, look_up, read_pieces};
use std::alloc::Global;

/// The last of these places that is no greater, if there is one.
fn start_of(starts: &[u64], at: u64) -> Option<u64>
    ensures { IfSome result (λ start. IsOneOf start starts.now) }
{
    let mut low = 0;
    let mut high = starts.len();
    'halves: while low < high {
        let middle = low + (high - low) / 2;
        if starts[middle] <= at {
            low = middle + 1;
        } else {
            high = middle;
        }
    }
    if low == 0 {
        return None;
    }
    Some(starts[low - 1])
}

/// Whether a piece has the byte at that place.
pub(crate) fn has_byte(piece: &Option<Piece>, at: u64) -> bool
    ensures { IsTrue result ↔ HasByte at piece.now }
{
    match piece {
        Some(piece) => piece.at <= at && at - piece.at < piece.bytes.len() as u64,
        None => false,
    }
}

/// Asks for pieces, before a server has begun or since.
fn look<C: Cluster>(
    cluster: &mut C,
    alloc: Global,
    wanted: Wanted,
    has_begun: bool,
) -> Result<Option<Vec<Piece>>, CallFault>
    requires { MayLook C.Cluster cluster.old wanted.version has_begun }
    ensures may { MayLook C.Cluster cluster.new wanted.version has_begun }
    ensures asked { AsksAgain MORE (AskedPieces wanted) (seen_pieces result) (C.calls cluster.old) (C.calls cluster.new) }
    ensures stand { C.stand cluster.new ≡ stand_seen wanted (seen_pieces result) (C.stand cluster.old) }
    ensures looked { HasLooked C.Cluster cluster.old cluster.new wanted.version has_begun }
    ensures meanwhile { MayHaveLooked C.Cluster cluster.old cluster.new wanted.version has_begun }
    ensures server { C.server cluster.new ≡ C.server cluster.old }
{
    if has_begun {
        look_up(cluster, alloc, wanted, MORE)
    } else {
        read_pieces(cluster, alloc, wanted, MORE)
    }
}

/// As which fault it is told that pieces were not told.
fn untold(fault: CallFault) -> DeviceFault {
    match fault {
        CallFault::Unclear => failed_of(SettleFault::Unclear),
        CallFault::Refused => failed_of(SettleFault::Refused),
    }
}

impl<C: Cluster> ClusterFile<C> {
    /// The piece of this version that begins there.
    fn piece_at(&mut self, place: u64) -> Result<Piece, DeviceFault>
        requires working { self.old.lost ≡ None }
        requires sound { IsSound C.Cluster self.old }
        requires read { IsRead C.Cluster self.old }
        ensures learns { Learns C.Cluster self.old self.new }
        ensures told { IfOk result (IsTold C.Cluster self.new place) }
        ensures anew { IfOk result (IsToldAnew C.Cluster self.old self.new place) }
        ensures same { self.new ≡ record self.old { cluster = self.new.cluster } }
    {
        let wanted = Wanted {
            version: self.standing.version,
            generation: self.standing.head.generation,
            from: place,
            most: 1,
        };
        match look(&mut self.cluster, self.alloc, wanted, self.has_begun) {
            Ok(Some(pieces)) => only_of(pieces, place),
            Ok(None) => Err(failed_of(SettleFault::Overtaken)),
            Err(fault) => Err(untold(fault)),
        }
    }

    /// The piece that was read is one more that is known, where it begins behind those that are.
    fn note(&mut self, place: u64, size: u64) -> Result<(), DeviceFault>
        ensures noted { OnOk result (self.new ≡ record self.old { starts = self.new.starts; known = self.old.known + size }) }
        ensures starts { OnOk result (self.new.starts.items ≡ self.old.starts.items ++ place ∷ []) }
        ensures within { OnOk result (self.new.known ≤ self.new.standing.head.end) }
        ensures not { OnErr result (self.new ≡ record self.old { starts = self.new.starts }) }
        ensures starts_not { OnErr result (self.new.starts.items ≡ self.old.starts.items) }
    {
        let to = self.known.checked_add(size).ok_or(FAILED)?;
        if to > self.standing.head.end {
            return Err(FAILED);
        }
        push_one(&mut self.starts, place)?;
        self.known = to;
        Ok(())
    }

    /// The first piece that was not known is known, and at hand.
    pub(crate) fn learn(&mut self) -> Result<(), DeviceFault>
        requires working { self.old.lost ≡ None }
        requires sound { IsSound C.Cluster self.old }
        requires read { IsRead C.Cluster self.old }
        ensures learns { Learns C.Cluster self.old self.new }
        ensures more { OnOk result (self.old.known < self.new.known) }
        ensures opened { IsOpened C.Cluster self.old → OnOk result (IsOpened C.Cluster self.new) }
    {
        let place = self.known;
        let piece = self.piece_at(place)?;
        self.note(place, piece.bytes.len() as u64)?;
        self.piece = Some(piece);
        Ok(())
    }

    /// The pieces are known up to the one that has the byte at that place; or all are.
    fn learn_to(&mut self, at: u64) -> Result<(), DeviceFault>
        requires working { self.old.lost ≡ None }
        requires sound { IsSound C.Cluster self.old }
        requires read { IsRead C.Cluster self.old }
        ensures learns { Learns C.Cluster self.old self.new }
        ensures reaches { OnOk result (at < self.new.known ⊎ self.new.standing.head.end ≤ self.new.known) }
    {
        let end = self.standing.head.end;
        'pieces: while self.known <= at && self.known < end {
            self.learn()?;
        }
        Ok(())
    }

    /// The piece that has the byte at that place is at hand, where it is known which one has.
    fn fetch(&mut self, at: u64) -> Result<(), DeviceFault>
        requires working { self.old.lost ≡ None }
        requires sound { IsSound C.Cluster self.old }
        requires read { IsRead C.Cluster self.old }
        ensures learns { Learns C.Cluster self.old self.new }
        ensures byte { OnOk result (HasByte at self.new.piece) }
    {
        if has_byte(&self.piece, at) {
            return Ok(());
        }
        let Some(place) = start_of(self.starts.as_slice(), at) else {
            return Err(FAILED);
        };
        let piece = self.piece_at(place)?;
        self.piece = Some(piece);
        if has_byte(&self.piece, at) {
            return Ok(());
        }
        Err(FAILED)
    }

    /// What the piece at hand has from that place on, no more than so many bytes.
    pub(crate) fn held(&self, at: u64, most: usize) -> Result<Vec<u8>, DeviceFault>
        requires { HasByte at self.now.piece }
        ensures part { IfOk result (IsPartOf self.now.piece at) }
        ensures few { IfOk result (λ bytes. length bytes.items ≤ most) }
        ensures some { IfOk result (λ bytes. 0 < most → 0 < length bytes.items) }
    {
        let Some(piece) = &self.piece else {
            return Err(FAILED);
        };
        let from = (at - piece.at) as usize;
        let to = from.saturating_add(most).min(piece.bytes.len());
        Ok(piece.bytes[from..to].to_vec(self.alloc)?)
    }

    /// Some of its bytes from that place on, no more than so many: of a piece, or of what was written and is in none, or zeros. None
    /// where it ends.
    pub(crate) fn read_part(&mut self, at: u64, most: usize) -> Result<Vec<u8>, DeviceFault>
        requires sound { self.old.lost ≡ None → IsSound C.Cluster self.old }
        requires read { IsRead C.Cluster self.old }
        ensures learns { self.old.lost ≡ None → Learns C.Cluster self.old self.new }
        ensures lost { is_some self.old.lost ≡ true → self.new ≡ self.old }
        ensures working { OnOk result (self.old.lost ≡ None) }
        ensures part { IfOk result (IsSeenAt C.Cluster self.new at) }
        ensures few { IfOk result (λ bytes. length bytes.items ≤ most) }
        ensures end { IfOk result (λ bytes. 0 < most → bytes.items ≡ [] → IsOver self.new at) }
        ensures reaches { IfOk result (ReachesBehind C.Cluster self.new at) }
        ensures front { KeepsFront C.Cluster self.old self.new }
    {
        if self.lost.is_some() {
            return Err(FAILED);
        }
        self.learn_to(at)?;
        let end = self.standing.head.end;
        if at < end {
            self.fetch(at)?;
            return self.held(at, most);
        }
        self.behind_pieces(at, most)
    }

    /// So many of its bytes, from that place on.
    pub fn read_all(&mut self, alloc: Global, at: u64, size: usize) -> Result<Vec<u8>, DeviceFault>
        requires { IsWell C.Cluster self.old }
        ensures read { IfOk result (TellsPart C.Cluster self.new.cluster (seen_of C.Cluster self.new) at size) }
        ensures size { IfOk result (λ bytes. length bytes.items ≡ size) }
        ensures seen { KeepsSeen C.Cluster self.old self.new }
        ensures goes_on { GoesOn C.Cluster self.old self.new }
        ensures next { next_of C.Cluster self.new ≡ next_of C.Cluster self.old }
    {
        if self.lost.is_some() {
            return Err(FAILED);
        }
        self.read_on(alloc, at, size)
    }

    /// Part after part of them.
    fn read_on(&mut self, alloc: Global, at: u64, size: usize) -> Result<Vec<u8>, DeviceFault>
        requires working { self.old.lost ≡ None }
        requires sound { IsSound C.Cluster self.old }
        requires whole { IsWhole C.Cluster self.old }
        requires read { IsRead C.Cluster self.old }
        ensures learns { Learns C.Cluster self.old self.new }
        ensures read { IfOk result (TellsPart C.Cluster self.new.cluster (seen_of C.Cluster self.old) at size) }
        ensures size { IfOk result (λ bytes. length bytes.items ≡ size) }
    {
        let mut out = Vec::with_capacity(alloc, size)?;
        'parts: while out.len() < size {
            let place = at.checked_add(out.len() as u64).ok_or(FAILED)?;
            let part = self.read_part(place, size - out.len())?;
            if part.is_empty() {
                return Err(FAILED);
            }
            out.extend_from_slice(&part)?;
        }
        Ok(out)
    }

    /// Of what is in no piece.
    pub(crate) fn behind_pieces(&self, at: u64, most: usize) -> Result<Vec<u8>, DeviceFault>
        requires { self.now.standing.head.end ≤ at }
        ensures part { IfOk result (λ bytes. bytes.items ≡ take (length bytes.items) (unpieced_from self.now at)) }
        ensures few { IfOk result (λ bytes. length bytes.items ≤ most) }
        ensures end { IfOk result (λ bytes. 0 < most → bytes.items ≡ [] → length (unpieced self.now) ≤ at - self.now.standing.head.end) }
    {
        let from = at - self.standing.head.end;
        let written = self.unsynced.len() as u64;
        if from < written {
            let from = from as usize;
            let to = from.saturating_add(most).min(self.unsynced.len());
            return Ok(self.unsynced[from..to].to_vec(self.alloc)?);
        }
        let zeros = self.room.saturating_sub(from - written).min(most as u64) as usize;
        Ok(vec![in self.alloc; 0; zeros]?)
    }
}

/// The one piece of these, where there is one, and it begins there.
fn only_of(pieces: Vec<Piece>, place: u64) -> Result<Piece, DeviceFault>
    ensures { IfOk result (λ piece. (pieces.items ≡ piece ∷ []) × (piece.at ≡ place) × (0 < length piece.bytes.items)) }
{
    let mut pieces = pieces;
    if pieces.len() != 1 {
        return Err(FAILED);
    }
    let piece = pieces.pop().ok_or(FAILED)?;
    if piece.at != place || piece.bytes.is_empty() {
        return Err(FAILED);
    }
    Ok(piece)
}
