//! A list in etcd, as a cluster.

ghost use Rattle.std.specs.Prelude.{length};
ghost use Rattle.etcd_cluster.specs.Calls.{BeenSince, MayBe, WasSent, stand_by};
ghost use Rattle.etcd_cluster.specs.CallsLaws.{counts_now_of, earlier_of, only_now_of, true_of};

use crate::client::EtcdCluster;
use crate::members::Members;
use etcd_cluster::change::{Answer, CallFault, Change, Piece, Standing, Wanted};
use etcd_cluster::cluster::Cluster;
use std::alloc::Global;

impl<M: Members> Cluster for EtcdCluster<M> {
    ghost use Rattle.std.proofs.Common.{refl};

    ghost server = { λ cluster. cluster.led.server };

    ghost moment = { λ cluster. length cluster.log.log.calls };

    ghost calls = { λ cluster. cluster.log.log.calls };

    ghost sent = { λ cluster. WasSent cluster.log.log.calls };

    ghost may_be = { λ cluster. MayBe cluster.led.server cluster.log.log.calls };

    ghost been_since = { λ cluster. BeenSince cluster.led.server cluster.log.log.calls };

    ghost stand = { λ cluster. stand_by cluster.log.log.calls };

    ghost counts_now = { λ cluster t w le may. counts_now_of cluster.led.server cluster.log.log.calls t w le may };

    ghost earlier = { λ cluster w begun may is. earlier_of cluster.led.server cluster.log.log.calls w may begun is };

    ghost counts_calls = { λ cluster. refl };

    ghost true_calls = { λ cluster w may. true_of cluster.led.server cluster.log.log.calls w may };

    ghost by_calls = { λ cluster. refl };

    ghost only_now = { λ cluster w been. only_now_of cluster.led.server cluster.log.log.calls w been };

    fn send(&mut self, change: &Change<'_>) -> Result<Answer, CallFault> {
        self.send_noted(change)
    }

    fn head(&mut self) -> Result<Option<Standing>, CallFault> {
        self.head_noted()
    }

    fn look(&mut self, _alloc: Global, wanted: Wanted) -> Result<Option<Vec<Piece>>, CallFault> {
        self.keep_while_reading();
        self.pieces_noted(wanted)
    }

    fn pause(&mut self) {
        self.wait();
    }

    fn keep(&mut self, now: u64) -> Result<u64, CallFault> {
        self.keep_noted(now)
    }

    fn compact(&mut self, version: u64) {
        self.compact_noted(version);
    }

    fn forget(&mut self) {
        self.forget_noted();
    }
}
