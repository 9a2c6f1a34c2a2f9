//! The bytes of a list, as it stood at one version: whoever leads goes on meanwhile, and nothing is changed.

ghost use Rattle.std.specs.Prelude.{◌≡◌, ◌≤◌, ◌++◌, ℕ, IfErr, IfOk, OnOk, length, map, replicate};
ghost use Rattle.etcd_client.specs.Asked.{head_asked, past_asked};
ghost use Rattle.etcd_client.specs.Exchanges.{head_question, past_question};
ghost use Rattle.etcd_client.specs.Past.{AreFirst, IsListed, OnlyReads};
ghost use Rattle.etcd_cluster.specs.Stands.{piece_fact};
ghost use Rattle.standby.specs.Copied.{IsUnreadBy, IsUntaken};
ghost use Rattle.standby.specs.Listed.{AddsPiece, Told};
ghost use Rattle.standby.specs.declared.fault.ListFault.TheVariants.{Memory};

use crate::copying::cluster_told;
use crate::fault::ListFault;
use crate::opening::refuse_other;
use etcd_client::laws::pieces_that_were_told_stood_there;
use etcd_client::{AskFault, Members, Names, head_there, pieces_then};
use etcd_cluster::change::{Piece, Standing, Wanted};
use std::alloc::Global;

/// So often the members are asked again, where they tell nothing.
const MORE: u32 = 30;

/// So many milliseconds pass before they are.
const PAUSE: u64 = 50;

/// So often a list is read of which what stood there was let go of meanwhile.
const TRIES: u32 = 4;

/// The code of that.
const GONE: u64 = 11;

/// The head.
fn head_again<M: Members>(
    alloc: Global,
    members: &mut M,
    names: &Names,
    cluster: u64,
) -> Result<Option<Standing>, AskFault>
    ensures reads { OnlyReads (M.exchanges members.old) (M.exchanges members.new) }
    ensures told { IfOk result (Told (head_question names.now.prefix.items cluster) (head_asked names.now.prefix.items) (M.exchanges members.new)) }
{
    'tries: for _again in 0..MORE {
        match head_there(alloc, members, names, cluster) {
            Ok(found) => return Ok(found),
            Err(AskFault::Unclear) => members.pause(PAUSE),
            Err(AskFault::Refused(code)) => return Err(AskFault::Refused(code)),
            Err(AskFault::Memory) => return Err(AskFault::Memory),
        }
    }
    Err(AskFault::Unclear)
}

/// Pieces as they stood there then.
fn pieces_again<M: Members>(
    alloc: Global,
    members: &mut M,
    names: &Names,
    cluster: u64,
    wanted: Wanted,
) -> Result<Vec<Piece>, AskFault>
    ensures reads { OnlyReads (M.exchanges members.old) (M.exchanges members.new) }
    ensures told { IfOk result (Told (past_question names.now.prefix.items cluster wanted) (past_asked names.now.prefix.items wanted) (M.exchanges members.new)) }
{
    'tries: for _again in 0..MORE {
        match pieces_then(alloc, members, names, cluster, wanted) {
            Ok(found) => return Ok(found),
            Err(AskFault::Unclear) => members.pause(PAUSE),
            Err(AskFault::Refused(code)) => return Err(AskFault::Refused(code)),
            Err(AskFault::Memory) => return Err(AskFault::Memory),
        }
    }
    Err(AskFault::Unclear)
}

/// Adds the bytes of the piece that was told, where it is one and begins where those end that are there.
fn add_piece(bytes: &mut Vec<u8>, pieces: &[Piece], end: u64) -> Result<(), ListFault>
    requires { length bytes.old.items ≤ end }
    ensures added { OnOk result (AddsPiece (map piece_fact pieces.now) end bytes.old.items bytes.new.items) }
    ensures refused { IfErr result IsUnreadBy }
{
    let [piece] = pieces else {
        return Err(ListFault::Unread);
    };
    let at = bytes.len() as u64;
    let size = piece.bytes.len() as u64;
    if piece.at != at || size == 0 || size > end - at {
        return Err(ListFault::Unread);
    }
    bytes.extend_from_slice(&piece.bytes)?;
    Ok(())
}

/// Adds so many zeros.
fn add_zeros(bytes: &mut Vec<u8>, room: u64) -> Result<(), ListFault>
    ensures added { OnOk result (bytes.new.items ≡ bytes.old.items ++ replicate room 0) }
    ensures refused { IfErr result (λ fault. fault ≡ Memory) }
{
    let Some(size) = bytes.len().checked_add(room as usize) else {
        return Err(ListFault::Memory);
    };
    bytes.resize(size, 0)?;
    Ok(())
}

/// The bytes that a head counts, of the pieces that stood there when it was put, one after the other.
fn pieced<M: Members>(
    alloc: Global,
    members: &mut M,
    names: &Names,
    cluster: u64,
    standing: Standing,
) -> Result<Vec<u8>, ListFault>
    ensures reads { OnlyReads (M.exchanges members.old) (M.exchanges members.new) }
    ensures first { IfOk result (λ bytes. AreFirst names.now.prefix.items cluster standing (M.exchanges members.new) bytes.items) }
    ensures size { IfOk result (λ bytes. length bytes.items ≡ standing.head.end) }
    ensures refused { IfErr result IsUntaken }
{
    pieces_that_were_told_stood_there();
    let mut bytes = Vec::new(alloc);
    'pieces: while (bytes.len() as u64) < standing.head.end {
        let wanted = Wanted {
            version: standing.version,
            generation: standing.head.generation,
            from: bytes.len() as u64,
            most: 1,
        };
        let pieces = pieces_again(alloc, members, names, cluster, wanted)?;
        add_piece(&mut bytes, &pieces, standing.head.end)?;
    }
    Ok(bytes)
}

/// The bytes of the list of the head that is told.
fn read_once<M: Members>(
    alloc: Global,
    members: &mut M,
    names: &Names,
    cluster: u64,
) -> Result<Vec<u8>, ListFault>
    ensures reads { OnlyReads (M.exchanges members.old) (M.exchanges members.new) }
    ensures listed { IfOk result (λ bytes. IsListed names.now.prefix.items cluster (M.exchanges members.new) bytes.items) }
    ensures refused { IfErr result IsUntaken }
{
    let Some(standing) = head_again(alloc, members, names, cluster)? else {
        return Err(ListFault::Missing);
    };
    if standing.version == 0 {
        return Err(ListFault::Unread);
    }
    let mut bytes = pieced(alloc, members, names, cluster, standing)?;
    add_zeros(&mut bytes, standing.head.room)?;
    Ok(bytes)
}

/// Whether it is of no use to read it anew.
fn is_final(told: &Result<Vec<u8>, ListFault>) -> bool {
    match told {
        Err(ListFault::Refused(code)) => *code != GONE,
        _ => true,
    }
}

/// The bytes of the list that stands there. It is read anew where what stood there was let go of meanwhile, a few times.
pub(crate) fn read_list<M: Members>(
    alloc: Global,
    members: &mut M,
    names: &Names,
) -> Result<Vec<u8>, ListFault>
    ensures reads { OnlyReads (M.exchanges members.old) (M.exchanges members.new) }
    ensures listed { IfOk result (λ bytes. (cluster : ℕ) × IsListed names.now.prefix.items cluster (M.exchanges members.new) bytes.items) }
    ensures refused { IfErr result IsUntaken }
{
    let cluster = cluster_told(alloc, members, names)?;
    refuse_other(alloc, members, names)?;
    'tries: for _again in 0..TRIES {
        let told = read_once(alloc, members, names, cluster);
        if is_final(&told) {
            return told;
        }
    }
    Err(ListFault::Unread)
}
