//! A list as it stood at one version, whatever is written meanwhile.

ghost use Rattle.etcd_client.specs.Exchanges.{MayAsk, head_question, past_question};

use crate::asked::{head_request, past_request};
use crate::leading::transact;
use crate::members::{AskFault, Members};
use crate::told::{head_read, past_told};
use etcd_cluster::change::{Piece, Standing, Wanted};
use etcd_keys::Names;
use std::alloc::Global;

/// The head, where a list stands in that cluster.
pub fn head_there<M: Members>(
    alloc: Global,
    members: &mut M,
    names: &Names,
    cluster: u64,
) -> Result<Option<Standing>, AskFault>
    ensures { MayAsk (head_question names.now.prefix.items cluster) result (M.exchanges members.old) (M.exchanges members.new) }
{
    let text = head_request(alloc, names)?;
    let reply = transact(alloc, members, Some(cluster), &text)?;
    Ok(head_read(names, &reply)?)
}

/// Pieces that stood there when the head was put at that version.
pub fn pieces_then<M: Members>(
    alloc: Global,
    members: &mut M,
    names: &Names,
    cluster: u64,
    wanted: Wanted,
) -> Result<Vec<Piece>, AskFault>
    ensures { MayAsk (past_question names.now.prefix.items cluster wanted) result (M.exchanges members.old) (M.exchanges members.new) }
{
    let text = past_request(alloc, names, wanted)?;
    let reply = transact(alloc, members, Some(cluster), &text)?;
    Ok(past_told(alloc, names, wanted.generation, &reply)?)
}
