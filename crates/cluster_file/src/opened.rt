//! A file that is read from its first byte on, before it is written.

ghost use Rattle.std.specs.Prelude.{◌≡◌, ◌<◌, ◌≤◌, ◌+◌, [], ◌∷◌, IfOk, None, OnErr, OnOk, drop, is_some, length, take, true};
ghost use Rattle.etcd_cluster.specs.Calls.{Forgot};
ghost use Rattle.cluster_file.specs.Files.{IsSound, seen_of};
ghost use Rattle.cluster_file.specs.Looks.{Learns};
ghost use Rattle.cluster_file.specs.Opened.{IsOpened, KeepsTold};
ghost use Rattle.cluster_file.specs.Places.{IsOver, IsRead, Reaches};

use crate::file::{ClusterFile, FAILED};
use crate::pieces::has_byte;
use batch_file::device::DeviceFault;
use etcd_cluster::cluster::Cluster;
use etcd_cluster::settling::forget_pieces;

impl<C: Cluster> ClusterFile<C> {
    /// It is read anew from its first byte on: what was told of it is not known any more, and what is in no piece is forgotten.
    pub fn reopen(&mut self)
        requires { self.old.lost ≡ None → IsSound C.Cluster self.old }
        ensures opened { self.old.lost ≡ None → IsOpened C.Cluster self.new }
        ensures read { IsRead C.Cluster self.new }
        ensures forgot { C.calls self.new.cluster ≡ Forgot ∷ C.calls self.old.cluster }
        ensures standing { self.new.standing ≡ self.old.standing }
        ensures begun { self.new.has_begun ≡ self.old.has_begun }
        ensures lost { self.new.lost ≡ self.old.lost }
    {
        forget_pieces(&mut self.cluster);
        self.known = 0;
        self.starts.clear();
        self.piece = None;
        self.unsynced.clear();
        self.room = self.standing.head.room;
        self.next = None;
        self.run.end();
    }

    /// Its next bytes, from that place on, no more than so many: none where it ends. Where they can't be read nothing more is read of
    /// it, nor written.
    pub fn read_next(&mut self, at: u64, most: usize) -> Result<Vec<u8>, DeviceFault>
        requires opened { self.old.lost ≡ None → IsOpened C.Cluster self.old }
        requires read { IsRead C.Cluster self.old }
        ensures opened { OnOk result (IsOpened C.Cluster self.new) }
        ensures read { IsRead C.Cluster self.new }
        ensures working { OnOk result ((self.old.lost ≡ None) × (self.new.lost ≡ None)) }
        ensures lost { OnErr result (is_some self.new.lost ≡ true) }
        ensures part { IfOk result (λ bytes. bytes.items ≡ take (length bytes.items) (drop at (seen_of C.Cluster self.new))) }
        ensures few { IfOk result (λ bytes. length bytes.items ≤ most) }
        ensures end { IfOk result (λ bytes. 0 < most → bytes.items ≡ [] → IsOver self.new at) }
        ensures reaches { IfOk result (λ bytes. Reaches self.new (at + length bytes.items)) }
        ensures front { OnOk result (KeepsTold C.Cluster self.old self.new) }
    {
        if self.lost.is_some() {
            return Err(FAILED);
        }
        let told = self.next_part(at, most);
        if told.is_err() {
            self.give_up();
        }
        told
    }

    /// Those of the piece that has that place, or of what stands behind all pieces.
    fn next_part(&mut self, at: u64, most: usize) -> Result<Vec<u8>, DeviceFault>
        requires working { self.old.lost ≡ None }
        requires opened { IsOpened C.Cluster self.old }
        ensures learns { Learns C.Cluster self.old self.new }
        ensures opened { OnOk result (IsOpened C.Cluster self.new) }
        ensures part { IfOk result (λ bytes. bytes.items ≡ take (length bytes.items) (drop at (seen_of C.Cluster self.new))) }
        ensures few { IfOk result (λ bytes. length bytes.items ≤ most) }
        ensures end { IfOk result (λ bytes. 0 < most → bytes.items ≡ [] → IsOver self.new at) }
        ensures reaches { IfOk result (λ bytes. Reaches self.new (at + length bytes.items)) }
        ensures front { OnOk result (KeepsTold C.Cluster self.old self.new) }
    {
        self.learn_next(at)?;
        let end = self.standing.head.end;
        if at < end {
            if !has_byte(&self.piece, at) {
                return Err(FAILED);
            }
            return self.held(at, most);
        }
        if self.known < end {
            return Err(FAILED);
        }
        self.behind_pieces(at, most)
    }

    /// The next piece is known, and at hand, where none that is known has that place.
    fn learn_next(&mut self, at: u64) -> Result<(), DeviceFault>
        requires working { self.old.lost ≡ None }
        requires opened { IsOpened C.Cluster self.old }
        ensures learns { Learns C.Cluster self.old self.new }
        ensures opened { OnOk result (IsOpened C.Cluster self.new) }
    {
        if at < self.known || self.standing.head.end <= self.known {
            return Ok(());
        }
        self.learn()
    }
}
