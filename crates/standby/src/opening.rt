//! A list that is found, to be read, and written then.

ghost use Rattle.std.specs.Prelude.{◌≡◌, [], IfErr, IfOk, string_bytes, ℕ};
ghost use Rattle.cluster_file.specs.Opened.{IsOpened};
ghost use Rattle.cluster_file.specs.Places.{IsRead};
ghost use Rattle.etcd_client.specs.Past.{OnlyReads};
ghost use Rattle.etcd_cluster.specs.Knowing.{IsUnused};
ghost use Rattle.standby.specs.Doors.{RefusesMeanwhile};
ghost use Rattle.standby.specs.Access.{IsAccessOf};
ghost use Rattle.standby.specs.Opened.{IsElsewhere, IsLed, IsOpenedBy, IsSince, IsUnopened, StopsSo};
ghost use Rattle.standby.specs.declared.fault.ListFault.TheVariants.{Memory, OtherCluster, Unclear};

use crate::door::Door;
use crate::fault::ListFault;
use crate::waiting::wait_to_lead;
use batch_file::source::ByteSource;
use cluster_device::{ClusterDevice, ClusterSource};
use cluster_file::ClusterFile;
use etcd_client::{Access, Asking, EtcdCluster, Led, Members, Names, begun_elsewhere};
use etcd_cluster::cluster::Cluster;
use std::alloc::Global;
use std::net::{Net, SocketAddr};
use std::rt::Clock;

/// A list that is read before it is written.
pub type ListSource<'r, R> = ClusterSource<EtcdCluster<Asking<'r, R>>>;

/// A list that is written.
pub type ListFile<'r, R> = ClusterDevice<EtcdCluster<Asking<'r, R>>>;

/// A list: where its members listen and as whom they are asked, with what its keys begin, and for how many seconds who writes it
/// leads.
#[derive(Clone, Copy)]
pub struct ListTerms<'w> {
    pub members: &'w [SocketAddr],
    /// The user's name and password.
    pub user: Option<(&'w str, &'w str)>,
    pub prefix: &'w str,
    pub seconds: u64,
}

/// A text of its own.
fn owned(alloc: Global, text: &str) -> Result<String, ListFault>
    ensures text { IfOk result (λ copy. string_bytes copy ≡ text.now) }
    ensures memory { IfErr result (λ fault. fault ≡ Memory) }
{
    let mut copy = String::new(alloc);
    copy.push_str(text)?;
    Ok(copy)
}

/// How the members of a list are asked.
pub(crate) fn access_of(alloc: Global, terms: ListTerms<'_>) -> Result<Access, ListFault>
    ensures access { IfOk result (IsAccessOf terms.entry) }
    ensures memory { IfErr result (λ fault. fault ≡ Memory) }
{
    let mut members = Vec::new(alloc);
    members.extend_from_slice(terms.members)?;
    let user = match terms.user {
        Some((name, password)) => Some((owned(alloc, name)?, owned(alloc, password)?)),
        None => None,
    };
    Ok(Access { members, user })
}

/// The file of a list, as the server of that number finds it: nothing of it was read.
pub(crate) fn find<C: Cluster + Drop>(
    alloc: Global,
    cluster: C,
    server: u64,
) -> Result<ClusterFile<C>, ListFault>
    requires unused { IsUnused C.Cluster cluster }
    requires mine { C.server cluster ≡ server }
    ensures opened { IfOk result (IsOpened C.Cluster) }
    ensures read { IfOk result (IsRead C.Cluster) }
    ensures server { IfOk result (λ file. file.server ≡ server) }
    ensures unclear { IfErr result (λ fault. fault ≡ Unclear) }
{
    match ClusterFile::find(alloc, cluster, server) {
        Ok(file) => Ok(file),
        Err(_) => Err(ListFault::Unclear),
    }
}

/// A list that was begun in another cluster is another list, which a restored snapshot has.
pub(crate) fn refuse_other<M: Members>(
    alloc: Global,
    members: &mut M,
    names: &Names,
) -> Result<(), ListFault>
    ensures since { IsSince (M.exchanges members.old) (M.exchanges members.new) }
    ensures reads { OnlyReads (M.exchanges members.old) (M.exchanges members.new) }
    ensures other { IfErr result (λ fault. (fault ≡ OtherCluster)
        × IsElsewhere names.now.prefix.items (M.exchanges members.old) (M.exchanges members.new)) }
{
    match begun_elsewhere(alloc, members, names) {
        Ok(true) => Err(ListFault::OtherCluster),
        _ => Ok(()),
    }
}

/// The list of who leads, once nobody else does.
fn await_list<R: Net + Clock, M: Members + Drop>(
    alloc: Global,
    mut members: M,
    terms: ListTerms<'_>,
    door: &mut Door<'_, R>,
) -> Result<(EtcdCluster<M>, Led), ListFault>
    ensures led { IfOk result (λ found. IsLed M.Members terms.entry.prefix.now terms.entry.seconds found.0
        × (found.0.led ≡ found.1)) }
    ensures unused { IfOk result (λ found. IsUnused ⟦<EtcdCluster<M> as Cluster>⟧ found.0) }
    ensures stopped { IfErr result (StopsSo terms.entry.prefix.now terms.entry.seconds
        door.old.porch.log.events door.new.porch.log.events) }
    ensures meanwhile { (times : ℕ) × RefusesMeanwhile times door.old door.new }
{
    let names = Names::new(alloc, terms.prefix)?;
    let led = wait_to_lead(alloc, &mut members, &names, terms.seconds, door)?;
    refuse_other(alloc, &mut members, &names)?;
    Ok((EtcdCluster::new(alloc, members, names, led), led))
}

/// Waits until nobody else leads, and gives the list then, of which nothing was read. Those who come to the door meanwhile are told
/// that nobody serves there.
pub fn open_list<'r, R: Net + Clock>(
    rt: &'r R,
    alloc: Global,
    terms: ListTerms<'_>,
    door: &mut Door<'_, R>,
) -> Result<ListSource<'r, R>, ListFault>
    ensures opened { IfOk result (IsOpenedBy ⟦<Asking<'r, R> as Members>⟧ terms.entry.prefix.now terms.entry.seconds) }
    ensures told { IfOk result (λ source. ⟦<ListSource<'r, R> as ByteSource>⟧.told source ≡ []) }
    ensures refused { IfErr result (IsUnopened ⟦<Asking<'r, R> as Members>⟧ terms.entry.prefix.now terms.entry.seconds
        door.old.porch.log.events door.new.porch.log.events) }
    ensures meanwhile { (times : ℕ) × RefusesMeanwhile times door.old door.new }
{
    let asking = Asking::new(rt, alloc, access_of(alloc, terms)?);
    let (cluster, led) = await_list(alloc, asking, terms, door)?;
    let file = find(alloc, cluster, led.server)?;
    if !file.is_there() {
        return Err(ListFault::Missing);
    }
    Ok(ClusterSource::new(file))
}
