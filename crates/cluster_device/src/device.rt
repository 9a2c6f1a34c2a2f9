//! The file as a device: a crash is the beginning of another server.

ghost use Rattle.std.specs.Prelude.{◌≡◌, ◌≤◌, ◌+◌, ◌^◌, ⊤, IsSome};
ghost use Rattle.etcd_cluster.specs.Calls.{AreTrue};
ghost use Rattle.cluster_file.specs.Devices.{KeepsLease, has_left, leaves};
ghost use Rattle.cluster_device.specs.Failing.{IsWorking};
ghost use Rattle.cluster_file.specs.Files.{IsSoleBy, next_of, seen_of};
ghost use Rattle.cluster_file.specs.Moments.{counts_now_of, only_now_of, only_true_of};

use crate::counting::{counted, counted_placing, due, replaced, settled};
use batch_file::device::{Beginning, Device, DeviceFault, ReplaceFault};
use cluster_file::ClusterFile;
use etcd_cluster::cluster::Cluster;
use std::alloc::Global;
use std::marker::Model;
use system_faults::SystemFault;

/// A file in a cluster that was read to its end, and how often a call on it has failed.
#[derive(Drop)]
pub struct ClusterDevice<C: Cluster> {
    file: ClusterFile<C>,
    failures: u64,
}

impl<C: Cluster> Model for ClusterDevice<C> {
    ghost use Rattle.cluster_device.specs.Failing.{Failing, IsWorking};

    ghost Value = { Failing C };

    ghost view = { λ d. record { file = d.file; failures = d.failures } };

    ghost invariant = { λ d. IsWorking C.Cluster d.file d.failures };
}

impl<C: Cluster> ClusterDevice<C> {
    /// No call on it has failed.
    pub(crate) fn new(file: ClusterFile<C>) -> ClusterDevice<C>
        requires { IsWorking C.Cluster file 0 }
        ensures file { result.file ≡ file }
        ensures failures { result.failures ≡ 0 }
    {
        ClusterDevice { file, failures: 0 }
    }

    /// The file.
    pub(crate) fn into_file(self) -> ClusterFile<C>
        ensures { result ≡ self.file }
    {
        self.file
    }
}

impl<C: Cluster> Device for ClusterDevice<C> {
    ghost seen = { λ d. seen_of C.Cluster d.file };

    ghost may_leave = { λ d. leaves C.Cluster d.file };

    ghost moment = { λ d. C.moment d.file.cluster };

    ghost left_since = { λ d. has_left C.Cluster d.file };

    ghost faults = { λ d. d.failures };

    // Pieces that were told again were the same.
    ghost reads_true = { λ d. AreTrue (C.calls d.file.cluster) };

    ghost next = { λ d. next_of C.Cluster d.file };

    ghost next_on_disk = { λ d. next_of C.Cluster d.file };

    ghost is_sole = { λ d. IsSoleBy C.Cluster d.file.cluster };

    // It kept the lease, and wants to be called again.
    ghost tends = { λ old _ due new. IsSome due × KeepsLease (C.calls old.file.cluster) (C.calls new.file.cluster) };

    ghost tells_place = { λ _ _. ⊤ };

    // There is room for as many zeros as a number can count.
    ghost tells_full = { λ d size _. 2 ^ 64 ≤ d.file.room + size };

    ghost counts_now = { λ d t left le now. counts_now_of C.Cluster.own C.counts_now d.file t left le now };

    ghost only_now = { λ d left since. only_now_of C.Cluster.own C.counts_calls C.earlier C.only_now d.file left since };

    ghost only_true = { λ d left leaves. only_true_of C.Cluster.own C.true_calls d.file left leaves };

    // What it stands in can't be moved: whether it is this server's still is asked by `confirm`.
    fn is_in_place(&self) -> bool {
        true
    }

    // It is put there at once: what is written stands there then.
    fn write_at(&mut self, at: usize, bytes: &[u8]) -> Result<(), DeviceFault> {
        let told = self.file.put(at as u64, bytes);
        counted(&mut self.failures, told)
    }

    fn grow(&mut self, _end: usize, size: usize) -> Result<Option<SystemFault>, DeviceFault> {
        let told = self.file.put_room(size as u64);
        counted(&mut self.failures, told)
    }

    // Nothing is left to do.
    fn sync(&mut self) -> Result<(), DeviceFault> {
        let told = self.file.still_works();
        counted(&mut self.failures, told)
    }

    fn begin(&mut self, end: usize, bytes: &[u8]) -> Result<Beginning, ReplaceFault> {
        let told = self.file.begin_with(end as u64, bytes);
        let told = counted(&mut self.failures, told);
        settled(told)
    }

    fn confirm(&mut self) -> Result<(), DeviceFault> {
        let told = self.file.ask_head();
        counted(&mut self.failures, told)
    }

    fn tend(&mut self, now: u64) -> Result<Option<u64>, DeviceFault> {
        let told = self.file.keep_place(now);
        let told = counted(&mut self.failures, told);
        due(told)
    }

    // Where it is refused, whatever the reason, nothing more is written.
    fn replace(&mut self, bytes: &[u8]) -> Result<(), ReplaceFault> {
        let told = self.file.put_other(bytes);
        let told = counted(&mut self.failures, told);
        replaced(told)
    }

    fn read_at(&mut self, alloc: Global, at: usize, size: usize) -> Result<Vec<u8>, DeviceFault> {
        self.file.read_all(alloc, at as u64, size)
    }

    fn begin_next(&mut self) -> Result<(), DeviceFault> {
        self.file.begin_beside()
    }

    fn add_to_next(&mut self, bytes: &[u8]) -> Result<(), DeviceFault> {
        self.file.add_beside(bytes)
    }

    fn sync_next(&mut self) -> Result<(), DeviceFault> {
        self.file.sync_beside()
    }

    fn place_next(&mut self) -> Result<(), ReplaceFault> {
        let told = self.file.place_beside();
        counted_placing(&mut self.failures, told)
    }

    fn drop_next(&mut self) {
        self.file.drop_beside();
    }

    // Nothing is torn there: what is put stands there whole, or not at all.
    fn set_aside(&self, _torn: &[u8]) -> Result<(), DeviceFault> {
        Ok(())
    }
}
