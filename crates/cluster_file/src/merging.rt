//! Few pieces of many: the bytes stay as they are.

ghost use Rattle.std.specs.Prelude.{◌≡◌, ◌⊎◌, ◌<◌, ◌≤◌, ◌+◌, ◌-◌, [], IsTrue, None, OnErr, OnOk, drop, is_some, length, true};
ghost use Rattle.cluster_file.specs.Causes.{FailsFor};
ghost use Rattle.cluster_file.specs.Devices.{GoesOn, IsWell, KeepsSeen, LosesAtFailure};
ghost use Rattle.cluster_file.specs.Files.{next_of};
ghost use Rattle.cluster_file.specs.Places.{IsRead, counted};
ghost use Rattle.cluster_file.specs.Runs.{IsLastAt, IsLonger, IsMerged, IsNoted, IsRightBehind, IsRunOf, IsRunTo, JoinsRun, MergesMany};

use crate::file::{ClusterFile, PIECE};
use batch_file::device::DeviceFault;
use etcd_cluster::change::Write;
use etcd_cluster::cluster::Cluster;
use std::alloc::{AllocError, Global};
use std::mem;

/// So many small pieces are merged.
const MANY: u32 = 64;

/// They are not longer together: the request that merges them would be refused.
const LONGEST: usize = 2 * PIECE;

/// Pieces that stand side by side at the end of a file.
#[derive(Drop)]
pub(crate) struct Run {
    /// Where the first of them begins.
    start: u64,
    /// The bytes of all of them.
    bytes: Vec<u8>,
    /// How many they are.
    count: u32,
}

impl Run {
    /// None.
    pub(crate) fn new(alloc: Global) -> Run
        ensures { result.bytes.items ≡ [] }
    {
        Run {
            start: 0,
            bytes: Vec::new(alloc),
            count: 0,
        }
    }

    /// What is laid from here on begins another run.
    pub(crate) fn end(&mut self)
        ensures { self.new.bytes.items ≡ [] }
    {
        self.bytes.clear();
        self.count = 0;
    }

    /// Its bytes; and what is laid from here on begins another run.
    fn take(&mut self, alloc: Global) -> Vec<u8>
        ensures bytes { result.items ≡ self.old.bytes.items }
        ensures none { self.new.bytes.items ≡ [] }
    {
        self.count = 0;
        mem::replace(&mut self.bytes, Vec::new(alloc))
    }

    /// Whether a piece of so many bytes has no place in it.
    fn is_full(&self, more: usize) -> bool
        ensures { MANY ≤ self.now.count → IsTrue result }
    {
        self.count >= MANY || self.bytes.len().saturating_add(more) > PIECE
    }

    /// Whether it is of more than one piece.
    fn is_many(&self) -> bool
        ensures some { IsTrue result → 0 < length self.now.bytes.items }
        ensures many { 1 < self.now.count → 0 < length self.now.bytes.items → IsTrue result }
    {
        self.count > 1 && !self.bytes.is_empty()
    }

    /// Whether a piece of so many bytes at that place stands right behind the others, and they are not too long with it.
    fn joins(&self, at: u64, more: usize) -> bool
        ensures behind { IsTrue result → at ≡ self.now.start + length self.now.bytes.items }
        ensures short { IsRightBehind self.now at more → IsTrue result }
    {
        match self.start.checked_add(self.bytes.len() as u64) {
            Some(end) => end == at && self.bytes.len().saturating_add(more) <= LONGEST,
            None => false,
        }
    }

    /// A piece more, at that place, and so many bytes were laid just before it. Where it does not stand right behind the others, it
    /// begins another run.
    fn add(&mut self, at: u64, before: usize, piece: &[u8]) -> Result<(), AllocError>
        ensures longer { OnOk result (IsLonger at before piece.now self.old self.new) }
        ensures joins { OnOk result (JoinsRun at before piece.now self.old self.new) }
    {
        if before > 0 || !self.joins(at, piece.len()) {
            self.end();
        }
        if self.bytes.is_empty() {
            self.start = at;
        }
        self.bytes.extend_from_slice(piece)?;
        self.count = self.count.saturating_add(piece.len().min(1) as u32);
        Ok(())
    }

    /// A piece was laid at that place, if it is not empty: it is one of them, or there are none.
    fn note(&mut self, at: u64, before: usize, piece: &[u8])
        ensures noted { IsNoted at before piece.now self.old self.new }
        ensures joins { (self.new.bytes.items ≡ []) ⊎ JoinsRun at before piece.now self.old self.new }
    {
        if self.add(at, before, piece).is_err() {
            self.end();
        }
    }
}

/// What stands behind so many bytes.
fn behind(bytes: &[u8], at: usize) -> &[u8]
    ensures { result.now ≡ drop at bytes.now }
{
    if at > bytes.len() {
        return &bytes[bytes.len()..];
    }
    &bytes[at..]
}

impl<C: Cluster> ClusterFile<C> {
    /// What was written stands in pieces, the last of which begins there.
    pub(crate) fn note_synced(&mut self, start: u64, from: usize)
        requires run { from ≡ 0 → 0 < length self.old.run.bytes.items → IsRunTo (counted C.Cluster self.old) self.old.run start }
        requires last { from < length self.old.unsynced.items → IsLastAt (C.stand self.old.cluster) start (drop from self.old.unsynced.items) }
        requires end { start + (length self.old.unsynced.items - from) ≡ (C.stand self.old.cluster).head.end }
        ensures run { IsRunOf (C.stand self.new.cluster) self.new.run }
        ensures none { self.new.unsynced.items ≡ [] }
        ensures same { self.new ≡ record self.old { unsynced = self.new.unsynced; run = self.new.run } }
    {
        let piece = behind(&self.unsynced, from);
        self.run.note(start, from, piece);
        self.unsynced.clear();
    }

    /// The pieces from that place on are known no more.
    fn forget(&mut self, from: u64)
        requires { IsRead C.Cluster self.old }
        ensures read { IsRead C.Cluster self.new }
        ensures few { self.new.known ≤ from }
        ensures same { self.new ≡ record self.old { piece = None; starts = self.new.starts; known = self.new.known } }
    {
        self.piece = None;
        'starts: while self.known > from {
            let Some(start) = self.starts.pop() else {
                self.known = 0;
                return;
            };
            self.known = start;
        }
    }

    /// Where there are many small pieces at the end, or they are together as long as one may be, one takes their place: the bytes stay
    /// as they are.
    pub(crate) fn merge(&mut self) -> Result<(), DeviceFault>
        requires well { IsWell C.Cluster self.old }
        requires working { self.old.lost ≡ None }
        ensures seen { KeepsSeen C.Cluster self.old self.new }
        ensures loses { LosesAtFailure result self.new }
        ensures goes_on { GoesOn C.Cluster self.old self.new }
        ensures next { next_of C.Cluster self.new ≡ next_of C.Cluster self.old }
        ensures working { OnOk result (self.new.lost ≡ None) }
        ensures begun { OnOk result (self.old.has_begun ≡ true → self.new.has_begun ≡ true) }
        ensures lost { OnErr result (is_some self.new.lost ≡ true) }
        ensures merged { OnOk result (MergesMany C.Cluster self.old self.new) }
        ensures cause { FailsFor C.Cluster ⊥ result self.old self.new }
    {
        if !self.run.is_full(PIECE / 64) {
            return Ok(());
        }
        if self.run.is_many() {
            return self.merge_run();
        }
        self.run.end();
        Ok(())
    }

    /// One piece takes the place of a run.
    fn merge_run(&mut self) -> Result<(), DeviceFault>
        requires well { IsWell C.Cluster self.old }
        requires working { self.old.lost ≡ None }
        requires some { 0 < length self.old.run.bytes.items }
        ensures seen { KeepsSeen C.Cluster self.old self.new }
        ensures goes_on { GoesOn C.Cluster self.old self.new }
        ensures next { next_of C.Cluster self.new ≡ next_of C.Cluster self.old }
        ensures working { OnOk result (self.new.lost ≡ None) }
        ensures begun { OnOk result (self.new.has_begun ≡ true) }
        ensures lost { OnErr result (is_some self.new.lost ≡ true) }
        ensures merged { OnOk result (IsMerged C.Cluster self.old self.new) }
        ensures cause { FailsFor C.Cluster ⊥ result self.old self.new }
    {
        let start = self.run.start;
        self.forget(start);
        let bytes = self.run.take(self.alloc);
        let head = self.next_head();
        self.change(
            head,
            &[
                Write::Clear(head.generation, start + 1, head.end),
                Write::Lay(head.generation, start, &bytes),
            ],
        )
    }
}
