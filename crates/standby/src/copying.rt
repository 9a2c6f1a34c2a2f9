//! Lists that are taken away as bytes, or put there.

ghost use Rattle.std.specs.Prelude.{◌≡◌, [], IfErr, IfOk, OnOk};
ghost use Rattle.etcd_client.specs.Past.{OnlyReads};
ghost use Rattle.etcd_cluster.specs.Knowing.{IsUnused};
ghost use Rattle.standby.specs.Copied.{IsNotPut, IsOfAsking, IsPut, IsUnled, IsUnput, IsUnreadBy, IsUntaken};
ghost use Rattle.standby.specs.Listed.{IsListOf, IsTaken};
ghost use Rattle.standby.specs.Opened.{IsLed, SomeLead};

use crate::fault::ListFault;
use crate::opening::{ListFile, ListTerms, access_of, find, refuse_other};
use crate::reading::read_list;
use batch_file::device::Device;
use batch_file::device_source::DeviceSource;
use batch_file::source::read_whole;
use cluster_device::{ClusterDevice, ClusterSource};
use etcd_client::{
    AskFault, Asking, EtcdCluster, Led, Members, Names, cluster_of, give_back, lead,
};
use etcd_cluster::cluster::Cluster;
use std::alloc::Global;
use std::net::Net;
use std::rt::Clock;

/// So often the members are asked in which cluster they are, where they do not tell.
const MORE: u32 = 30;

/// So many milliseconds pass before they are asked again.
const PAUSE: u64 = 50;

/// The bytes of a list, and who was asked for them.
#[derive(Drop)]
pub struct TakenList<'r, R: Net + Clock> {
    pub bytes: Vec<u8>,
    asking: Asking<'r, R>,
}

/// All bytes of a source, and what they are read of.
fn read_source<S: DeviceSource>(
    alloc: Global,
    mut source: S,
) -> Result<(Vec<u8>, S::File), ListFault>
    requires { S.told source ≡ [] }
    ensures whole { IfOk result (λ taken. S.File.seen taken.1 ≡ taken.0.items) }
    ensures refused { IfErr result IsUnreadBy }
{
    let bytes = read_whole(alloc, &mut source)?;
    Ok((bytes, source.into_device()))
}

/// Writes these bytes where nothing stands.
fn write_source<S: DeviceSource>(
    alloc: Global,
    source: S,
    bytes: &[u8],
) -> Result<S::File, ListFault>
    requires { S.told source ≡ [] }
    ensures put { IfOk result (IsPut S.File.Device bytes.now) }
    ensures refused { IfErr result IsUnput }
{
    let (before, mut device) = read_source(alloc, source)?;
    if !before.is_empty() {
        return Err(ListFault::AlreadyExists);
    }
    device.replace(bytes)?;
    Ok(device)
}

/// The cluster that answers. Where a member tells nothing another one is asked, no more than so often.
pub(crate) fn cluster_told<M: Members>(
    alloc: Global,
    members: &mut M,
    names: &Names,
) -> Result<u64, ListFault>
    ensures reads { OnlyReads (M.exchanges members.old) (M.exchanges members.new) }
    ensures refused { IfErr result IsOfAsking }
{
    'tries: for _again in 0..MORE {
        match cluster_of(alloc, members, names) {
            Ok(cluster) => return Ok(cluster),
            Err(AskFault::Unclear) => members.pause(PAUSE),
            Err(AskFault::Refused(code)) => return Err(ListFault::Refused(code)),
            Err(AskFault::Memory) => return Err(ListFault::Memory),
        }
    }
    Err(ListFault::Unclear)
}

/// A list that this server writes, where nobody leads.
fn writing<M: Members + Drop>(
    alloc: Global,
    mut members: M,
    terms: ListTerms<'_>,
) -> Result<(EtcdCluster<M>, Led), ListFault>
    ensures led { IfOk result (λ found. IsLed M.Members terms.entry.prefix.now terms.entry.seconds found.0
        × (found.0.led ≡ found.1)) }
    ensures unused { IfOk result (λ found. IsUnused ⟦<EtcdCluster<M> as Cluster>⟧ found.0) }
    ensures refused { IfErr result IsUnled }
{
    let names = Names::new(alloc, terms.prefix)?;
    let _cluster = cluster_told(alloc, &mut members, &names)?;
    refuse_other(alloc, &mut members, &names)?;
    let Some(led) = lead(alloc, &mut members, &names, terms.seconds)? else {
        return Err(ListFault::Led);
    };
    Ok((EtcdCluster::new(alloc, members, names, led), led))
}

/// The bytes of a list as it stood at one version: nothing is changed, and whoever leads goes on.
pub fn take_list<'r, R: Net + Clock>(
    rt: &'r R,
    alloc: Global,
    terms: ListTerms<'_>,
) -> Result<TakenList<'r, R>, ListFault>
    ensures list { IfOk result (λ taken. IsListOf terms.entry.prefix.now taken.bytes.items) }
    ensures taken { IfOk result (λ taken. IsTaken terms.entry.prefix.now (⟦<Asking<'r, R> as Members>⟧.exchanges taken.asking) taken.bytes.items) }
    ensures refused { IfErr result IsUntaken }
{
    let mut asking = Asking::new(rt, alloc, access_of(alloc, terms)?);
    let names = Names::new(alloc, terms.prefix)?;
    let bytes = read_list(alloc, &mut asking, &names)?;
    Ok(TakenList { bytes, asking })
}

/// Puts a list of these bytes there, as the server of that number, where there is none.
fn put_on<C: Cluster + Drop>(
    alloc: Global,
    cluster: C,
    server: u64,
    bytes: &[u8],
) -> Result<ClusterDevice<C>, ListFault>
    requires unused { IsUnused C.Cluster cluster }
    requires mine { C.server cluster ≡ server }
    ensures put { IfOk result (IsPut ⟦<ClusterDevice<C> as Device>⟧ bytes.now) }
    ensures refused { IfErr result IsNotPut }
{
    let file = find(alloc, cluster, server)?;
    if file.is_there() {
        return Err(ListFault::AlreadyExists);
    }
    write_source(alloc, ClusterSource::new(file), bytes)
}

/// Whoever waits to lead need not wait until a lease ends by itself.
fn yield_lead<R: Net + Clock>(rt: &R, alloc: Global, terms: ListTerms<'_>, lease: u64) {
    if let Ok(access) = access_of(alloc, terms) {
        let mut asking = Asking::new(rt, alloc, access);
        let _told = give_back(alloc, &mut asking, lease);
    }
}

/// Puts a list of these bytes there, where there is none and nobody leads, and gives it: it is led no more then.
pub fn put_list<'r, R: Net + Clock>(
    rt: &'r R,
    alloc: Global,
    terms: ListTerms<'_>,
    bytes: &[u8],
) -> Result<ListFile<'r, R>, ListFault>
    ensures put { IfOk result (IsPut ⟦<ListFile<'r, R> as Device>⟧ bytes.now) }
    ensures leads { OnOk result (SomeLead ⟦<Asking<'r, R> as Members>⟧ terms.entry.prefix.now terms.entry.seconds) }
    ensures refused { IfErr result IsNotPut }
{
    let asking = Asking::new(rt, alloc, access_of(alloc, terms)?);
    let (cluster, led) = writing(alloc, asking, terms)?;
    let put = put_on(alloc, cluster, led.server, bytes);
    yield_lead(rt, alloc, terms, led.lease);
    put
}
