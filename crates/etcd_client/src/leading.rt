//! Who writes a list.

ghost use Rattle.std.specs.Prelude.{◌≡◌, Some};
ghost use Rattle.etcd_client.specs.Exchanges.{Asks, Leads, MayAsk, cluster_question, elsewhere_question, grant_question, is_other, lead_question, leader_question, reply_question, revoke_question};

use crate::asked::{head_request, lead_request, leader_request};
use crate::members::{AskFault, Members};
use crate::told::{elsewhere_told, leader_told};
use etcd_json::{
    Granted, Header, Reply, grant_request, granted_reply, lease_request, revision_reply,
    transaction_reply,
};
use etcd_keys::Names;
use std::alloc::Global;

/// A server that leads: in which cluster, its number, and the lease by which it does.
#[derive(Clone, Copy, Debug, PartialEq, Eq)]
pub struct Led {
    pub cluster: u64,
    pub server: u64,
    pub lease: u64,
    pub seconds: u64,
}

/// Whether it is another cluster than the one that is known.
fn is_other(known: Option<u64>, cluster: u64) -> bool
    ensures { result ≡ is_other known cluster }
{
    match known {
        None => false,
        Some(known) => known != cluster,
    }
}

/// Sends a transaction once. What another cluster answers is no answer.
pub(crate) fn transact<M: Members>(
    alloc: Global,
    members: &mut M,
    known: Option<u64>,
    text: &[u8],
) -> Result<Reply, AskFault>
    ensures { Asks (reply_question known text.now) result (M.exchanges members.old) (M.exchanges members.new) }
{
    let told = members.ask("/v3/kv/txn", text)?;
    let reply = transaction_reply(alloc, &told)?;
    if is_other(known, reply.header.cluster) {
        members.turn();
        return Err(AskFault::Unclear);
    }
    Ok(reply)
}

/// In which cluster nobody leads: none where somebody does.
fn cluster_free<M: Members>(
    alloc: Global,
    members: &mut M,
    names: &Names,
) -> Result<Option<u64>, AskFault>
    ensures { MayAsk (leader_question names.now.prefix.items) result (M.exchanges members.old) (M.exchanges members.new) }
{
    let text = leader_request(alloc, names)?;
    let reply = transact(alloc, members, None, &text)?;
    if leader_told(&reply)? {
        return Ok(None);
    }
    Ok(Some(reply.header.cluster))
}

/// The cluster that answers, whoever leads there.
pub fn cluster_of<M: Members>(
    alloc: Global,
    members: &mut M,
    names: &Names,
) -> Result<u64, AskFault>
    ensures { MayAsk (cluster_question names.now.prefix.items) result (M.exchanges members.old) (M.exchanges members.new) }
{
    let text = leader_request(alloc, names)?;
    let reply = transact(alloc, members, None, &text)?;
    Ok(reply.header.cluster)
}

/// Whether the list was begun in another cluster than the one that answers: it was copied there, as a snapshot is.
pub fn begun_elsewhere<M: Members>(
    alloc: Global,
    members: &mut M,
    names: &Names,
) -> Result<bool, AskFault>
    ensures { MayAsk (elsewhere_question names.now.prefix.items) result (M.exchanges members.old) (M.exchanges members.new) }
{
    let text = head_request(alloc, names)?;
    let reply = transact(alloc, members, None, &text)?;
    Ok(elsewhere_told(names, &reply)?)
}

/// A lease of so many seconds.
fn grant<M: Members>(alloc: Global, members: &mut M, seconds: u64) -> Result<Granted, AskFault>
    ensures { MayAsk (grant_question seconds) result (M.exchanges members.old) (M.exchanges members.new) }
{
    let text = grant_request(alloc, seconds)?;
    let told = members.ask("/v3/lease/grant", &text)?;
    Ok(granted_reply(alloc, &told)?)
}

/// By that lease this server leads from then on, where nobody does.
fn take_lead<M: Members>(
    alloc: Global,
    members: &mut M,
    names: &Names,
    cluster: u64,
    lease: u64,
) -> Result<Reply, AskFault>
    ensures { MayAsk (lead_question names.now.prefix.items cluster lease) result (M.exchanges members.old) (M.exchanges members.new) }
{
    let text = lead_request(alloc, names, lease)?;
    transact(alloc, members, Some(cluster), &text)
}

/// Tries once to lead, where nobody does. Only a clear answer counts: what is unclear ends with its lease.
pub fn lead<M: Members>(
    alloc: Global,
    members: &mut M,
    names: &Names,
    seconds: u64,
) -> Result<Option<Led>, AskFault>
    ensures { Leads names.now.prefix.items seconds result (M.exchanges members.old) (M.exchanges members.new) }
{
    let free = cluster_free(alloc, members, names)?;
    let Some(cluster) = free else {
        return Ok(None);
    };
    let granted = grant(alloc, members, seconds)?;
    let reply = take_lead(alloc, members, names, cluster, granted.lease)?;
    if !reply.succeeded {
        return Ok(None);
    }
    Ok(Some(Led {
        cluster,
        server: reply.header.revision,
        lease: granted.lease,
        seconds: granted.seconds,
    }))
}

/// Asks once that a lease end: who leads by it leads no more, and another one may.
pub fn give_back<M: Members>(alloc: Global, members: &mut M, lease: u64) -> Result<Header, AskFault>
    ensures { MayAsk (revoke_question lease) result (M.exchanges members.old) (M.exchanges members.new) }
{
    let text = lease_request(alloc, lease)?;
    let told = members.ask("/v3/lease/revoke", &text)?;
    Ok(revision_reply(alloc, &told)?)
}
