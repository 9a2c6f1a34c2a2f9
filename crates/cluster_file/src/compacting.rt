//! What stood there before is let go of.

ghost use Rattle.std.specs.Prelude.{◌≡◌, IsTrue, None};
ghost use Rattle.cluster_file.specs.Devices.{Compacts, GoesOn, IsWell, KeepsSeen};
ghost use Rattle.cluster_file.specs.Files.{next_of};

use crate::file::ClusterFile;
use etcd_cluster::cluster::Cluster;
use etcd_cluster::settling::compact_older;

impl<C: Cluster> ClusterFile<C> {
    /// By a server that has begun: nothing of what stands there changes by that, nor where it is refused.
    pub(crate) fn compact(&mut self)
        requires well { IsWell C.Cluster self.old }
        requires working { self.old.lost ≡ None }
        requires begun { IsTrue self.old.has_begun }
        ensures called { Compacts C.Cluster self.old self.new }
        ensures seen { KeepsSeen C.Cluster self.old self.new }
        ensures goes_on { GoesOn C.Cluster self.old self.new }
        ensures next { next_of C.Cluster self.new ≡ next_of C.Cluster self.old }
        ensures same { self.new ≡ record self.old { cluster = self.new.cluster } }
    {
        compact_older(&mut self.cluster, self.standing.version);
    }
}
