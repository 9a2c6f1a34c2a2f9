//! What is told of a list, read from replies.

ghost use Rattle.std.specs.Prelude.{◌≡◌, map};
ghost use Rattle.etcd_cluster.specs.Stands.{piece_fact};
ghost use Rattle.etcd_json.specs.Outcomes.{ReadsAs};
ghost use Rattle.etcd_json.specs.Replies.{entry_fact, reply_fact};
ghost use Rattle.etcd_client.specs.Told.{are_of_other, change_told, elsewhere_told, head_in, head_read, leader_told, past_told, piece_told, pieces_in, pieces_of, pieces_seen, pieces_told, standing_of};

use etcd_cluster::change::{Answer, Head, Piece, Standing};
use etcd_json::ReplyFault::Strange;
use etcd_json::{Entry, Reply, ReplyFault, Response};
use etcd_keys::{Names, head_told, is_head_of_other, place_told};
use std::alloc::Global;

/// The head that stands under its key, if it is one of that cluster.
fn head_in(names: &Names, cluster: u64, entry: &Entry) -> Option<Head>
    ensures { result ≡ head_in names.now.prefix.items cluster (entry_fact entry.now) }
{
    if !names.is_head(&entry.key) {
        return None;
    }
    head_told(cluster, &entry.value)
}

/// The head that was found in that cluster: none where no list stands there.
fn standing_of(
    names: &Names,
    cluster: u64,
    entries: &[Entry],
) -> Result<Option<Standing>, ReplyFault>
    ensures { ReadsAs (λ standing. standing) result (standing_of names.now.prefix.items cluster (map entry_fact entries.now)) }
{
    match entries {
        [] => Ok(None),
        [entry] => match head_in(names, cluster, entry) {
            None => Err(Strange),
            Some(head) => Ok(Some(Standing {
                version: entry.written,
                head,
            })),
        },
        _ => Err(Strange),
    }
}

/// Whether the head that was found was put in another cluster.
fn are_of_other(names: &Names, cluster: u64, entries: &[Entry]) -> bool
    ensures { result ≡ are_of_other names.now.prefix.items cluster (map entry_fact entries.now) }
{
    match entries {
        [entry] => names.is_head(&entry.key) && is_head_of_other(cluster, &entry.value),
        _ => false,
    }
}

/// Whether the list was begun in another cluster than the one that answers.
pub(crate) fn elsewhere_told(names: &Names, reply: &Reply) -> Result<bool, ReplyFault>
    ensures { ReadsAs (λ elsewhere. elsewhere) result (elsewhere_told names.now.prefix.items (reply_fact reply.now)) }
{
    match reply.responses.as_slice() {
        [Response::Found(found)] => Ok(are_of_other(names, reply.header.cluster, &found.entries)),
        _ => Err(Strange),
    }
}

/// The head.
pub(crate) fn head_read(names: &Names, reply: &Reply) -> Result<Option<Standing>, ReplyFault>
    ensures { ReadsAs (λ standing. standing) result (head_read names.now.prefix.items (reply_fact reply.now)) }
{
    match reply.responses.as_slice() {
        [Response::Found(found)] => standing_of(names, reply.header.cluster, &found.entries),
        _ => Err(Strange),
    }
}

/// What became of a change.
pub(crate) fn change_told(names: &Names, reply: &Reply) -> Result<Answer, ReplyFault>
    ensures { ReadsAs (λ answer. answer) result (change_told names.now.prefix.items (reply_fact reply.now)) }
{
    if reply.succeeded {
        return Ok(Answer::Done(reply.header.revision));
    }
    Ok(Answer::NotDone(head_read(names, reply)?))
}

/// A piece that was found under a key that begins so.
fn piece_told(alloc: Global, before: &[u8], entry: &Entry) -> Result<Piece, ReplyFault>
    ensures { ReadsAs piece_fact result (piece_told before.now (entry_fact entry.now)) }
{
    let at = place_told(before, &entry.key).ok_or(Strange)?;
    Ok(Piece {
        at,
        bytes: entry.value.to_vec(alloc)?,
    })
}

/// The pieces that were found under keys that begin so.
fn pieces_in(alloc: Global, before: &[u8], entries: &[Entry]) -> Result<Vec<Piece>, ReplyFault>
    ensures { ReadsAs pieces_of result (pieces_in before.now (map entry_fact entries.now)) }
{
    let mut pieces = Vec::new(alloc);
    let mut rest = entries;
    while let [entry, later @ ..] = rest {
        pieces.push(piece_told(alloc, before, entry)?)?;
        rest = later;
    }
    Ok(pieces)
}

/// Pieces of that generation.
pub(crate) fn past_told(
    alloc: Global,
    names: &Names,
    generation: u64,
    reply: &Reply,
) -> Result<Vec<Piece>, ReplyFault>
    ensures { ReadsAs pieces_of result (past_told names.now.prefix.items generation (reply_fact reply.now)) }
{
    let before = names.before(alloc, generation)?;
    match reply.responses.as_slice() {
        [Response::Found(found)] => pieces_in(alloc, &before, &found.entries),
        _ => Err(Strange),
    }
}

/// Those, where the head was of the version that was wanted.
pub(crate) fn pieces_told(
    alloc: Global,
    names: &Names,
    generation: u64,
    reply: &Reply,
) -> Result<Option<Vec<Piece>>, ReplyFault>
    ensures { ReadsAs pieces_seen result (pieces_told names.now.prefix.items generation (reply_fact reply.now)) }
{
    if !reply.succeeded {
        return Ok(None);
    }
    Ok(Some(past_told(alloc, names, generation, reply)?))
}

/// Whether somebody leads.
pub(crate) fn leader_told(reply: &Reply) -> Result<bool, ReplyFault>
    ensures { ReadsAs (λ leads. leads) result (leader_told (reply_fact reply.now)) }
{
    match reply.responses.as_slice() {
        [Response::Found(found)] => Ok(!found.entries.is_empty()),
        _ => Err(Strange),
    }
}
