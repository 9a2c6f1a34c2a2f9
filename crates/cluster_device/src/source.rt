//! A file in a cluster, read from its first byte on, before it is written.

ghost use Rattle.std.specs.Prelude.{◌≡◌, [], None};
ghost use Rattle.cluster_device.specs.Sources.{HasTold, WasOpened};
ghost use Rattle.cluster_file.specs.Opened.{IsOpened};
ghost use Rattle.cluster_file.specs.Places.{IsRead};

use crate::device::ClusterDevice;
use crate::told_log::ToldLog;
use batch_file::device::DeviceFault;
use batch_file::device_source::DeviceSource;
use batch_file::source::ByteSource;
use cluster_file::ClusterFile;
use etcd_cluster::cluster::Cluster;
use std::alloc::Global;
use std::marker::Model;
use system_faults::SystemFault;

/// What is told where more was read than can be counted.
const FAILED: DeviceFault = DeviceFault::Failed(SystemFault::Other);

/// A file in a cluster, of which so many bytes were told.
#[derive(Drop)]
pub struct ClusterSource<C: Cluster> {
    file: ClusterFile<C>,
    at: u64,
    log: ToldLog,
}

impl<C: Cluster> Model for ClusterSource<C> {
    ghost use Rattle.cluster_device.specs.Sources.{IsTelling, Telling};

    ghost Value = { Telling C };

    ghost view = { λ s. record { file = s.file; at = s.at; told = s.log.told } };

    ghost invariant = { λ s. IsTelling C.Cluster s.file s.at s.log.told };
}

impl<C: Cluster> ClusterSource<C> {
    /// Nothing of it was told.
    pub fn new(file: ClusterFile<C>) -> ClusterSource<C>
        requires opened { file.lost ≡ None → IsOpened C.Cluster file }
        requires read { IsRead C.Cluster file }
        ensures file { result.file ≡ file }
        ensures told { result.told ≡ [] }
    {
        ClusterSource {
            file,
            at: 0,
            log: ToldLog::new(),
        }
    }
}

impl<C: Cluster> ByteSource for ClusterSource<C> {
    ghost told = { λ source. source.told };

    ghost is_over = { λ source. HasTold source.file source.at };

    ghost whole = { λ _ _. ⊥ };

    ghost told_whole = { λ source all has over. absurd has };

    fn read_some(&mut self, _alloc: Global, most: usize) -> Result<Vec<u8>, DeviceFault> {
        let bytes = self.file.read_next(self.at, most)?;
        let to = self.at.checked_add(bytes.len() as u64).ok_or(FAILED)?;
        self.log.add(&bytes);
        self.at = to;
        Ok(bytes)
    }

    // It may have been changed since: nothing that was told of it is known any more.
    fn rewind(&mut self) {
        self.file.reopen();
        self.at = 0;
        self.log.clear();
    }
}

impl<C: Cluster + Drop> DeviceSource for ClusterSource<C> {
    type File = ClusterDevice<C>;

    ghost is_opened = { λ device bytes. WasOpened C.Cluster device.file bytes };

    // Where its end was not told nothing is written to it.
    fn into_device(self) -> ClusterDevice<C> {
        let ClusterSource { mut file, at, .. } = self;
        if !file.is_over(at) {
            file.give_up();
        }
        ClusterDevice::new(file)
    }

    // What was written and is in no piece is forgotten.
    fn again(device: ClusterDevice<C>) -> ClusterSource<C> {
        let mut file = device.into_file();
        file.reopen();
        ClusterSource::new(file)
    }
}
