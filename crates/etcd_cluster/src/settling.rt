//! How a server learns what became of a change.

ghost use Rattle.std.specs.Prelude.{◌≡◌, ◌<◌, ◌≤◌, ◌⊎◌, ◌∷◌, ℕ, IfOk, IfSome, OnErr, OnOk, map};
ghost use Rattle.std.specs.Result.{result_ok};
ghost use Rattle.etcd_cluster.specs.Again.{AsksAgain, Confirms, IsConfirmed, IsSettled, fault_told, settled_by};
ghost use Rattle.etcd_cluster.specs.Calls.{AskedHead, AskedPieces, Compacted, Forgot, Kept, Sent};
ghost use Rattle.etcd_cluster.specs.Knowing.{HasRead, IsForeignTo, IsUnused, Knows, stand_found, version_of};
ghost use Rattle.etcd_cluster.specs.Leading.{IsBeginning, IsResting, Pends, StaysSo};
ghost use Rattle.etcd_cluster.specs.Sides.{ArePiecesTold, Begins, Does, IsFresh, IsHeadTold, IsLeading, IsNew, IsSilent, IsSole, IsToldOf, IsUntold, MayBegin, MayDo, MayHaveBeen, MayHaveMoved, RestsThere, StaysThere, may_come};
ghost use Rattle.etcd_cluster.specs.Stands.{ChangeFact, change_fact, done_at, piece_fact};
ghost use Rattle.etcd_cluster.specs.Worlds.{IsHeadOf, IsLater, IsVersioned, forgotten, is_head, seen_pieces, stand_seen, stand_then, stand_told, version_found, version_told};

use crate::change::{Answer, CallFault, Change, Head, Piece, Standing, Wanted};
use crate::cluster::Cluster;
use std::alloc::Global;

/// Why a change is not known to be done. The server goes on no more.
#[derive(Clone, Copy, Debug, PartialEq, Eq)]
pub enum SettleFault {
    /// Another server has begun, or this one does not lead any more.
    Overtaken,
    /// It may be done, or be done later: nothing was told in time.
    Unclear,
    /// It was refused.
    Refused,
}

/// Whether two heads say the same.
fn is_head(a: &Head, b: &Head) -> bool
    ensures { result ≡ is_head a.now b.now }
{
    a.server == b.server
        && a.turn == b.turn
        && a.generation == b.generation
        && a.end == b.end
        && a.room == b.room
}

/// The version at which a change was done before, where it was not done this time and its own head stands there.
fn version_found(change: &Change<'_>, told: Option<Standing>) -> Option<u64>
    ensures { result ≡ version_found (change_fact change.now) told }
{
    match told {
        Some(told) if is_head(&told.head, &change.head) && change.after < told.version => {
            Some(told.version)
        }
        _ => None,
    }
}

/// The version at which a change is known to be done.
fn version_told(change: &Change<'_>, told: Result<Answer, CallFault>) -> Result<u64, SettleFault>
    ensures version { result_ok result ≡ version_told (change_fact change.now) told }
    ensures settled { result ≡ settled_by (change_fact change.now) told }
{
    match told {
        Ok(Answer::Done(version)) => Ok(version),
        Ok(Answer::NotDone(found)) => version_found(change, found).ok_or(SettleFault::Overtaken),
        Err(fault) => Err(settle_fault(fault)),
    }
}

/// Where nothing was told.
fn settle_fault(fault: CallFault) -> SettleFault
    ensures { result ≡ fault_told fault }
{
    match fault {
        CallFault::Unclear => SettleFault::Unclear,
        CallFault::Refused => SettleFault::Refused,
    }
}

/// Sends a change, the same again where nothing is told of it, no more than so many times more.
fn send_again<C: Cluster>(
    cluster: &mut C,
    change: &Change<'_>,
    more: u32,
) -> Result<Answer, CallFault>
    ensures asked { AsksAgain more (Sent (change_fact change.now)) result (C.calls cluster.old) (C.calls cluster.new) }
    ensures told { IfOk result (IsToldOf C.Cluster cluster.old cluster.new (change_fact change.now)) }
    ensures untold { OnErr result (IsUntold C.Cluster cluster.old cluster.new (change_fact change.now)) }
    ensures later { IfOk result (IsLater (change_fact change.now)) }
    ensures sent { (one : ChangeFact) → C.sent cluster.new one → (one ≡ change_fact change.now) ⊎ C.sent cluster.old one }
    ensures stand { C.stand cluster.new ≡ stand_then (change_fact change.now) result (C.stand cluster.old) }
    ensures meanwhile { MayHaveMoved C.Cluster cluster.old cluster.new (may_come C.Cluster cluster.old (change_fact change.now)) }
    ensures server { C.server cluster.new ≡ C.server cluster.old }
    ensures moment { C.moment cluster.old ≤ C.moment cluster.new }
{
    let mut left = more;
    'sends: loop {
        match cluster.send(change) {
            Ok(answer) => return Ok(answer),
            Err(CallFault::Refused) => return Err(CallFault::Refused),
            Err(CallFault::Unclear) => {}
        }
        if left == 0 {
            return Err(CallFault::Unclear);
        }
        left -= 1;
        cluster.pause();
    }
}

/// Makes the first change of a server, as `settle` makes another: the server begins, where the head is of the version that the change
/// names, and nothing that others sent before is done from then on.
pub fn begin<C: Cluster>(
    cluster: &mut C,
    change: &Change<'_>,
    more: u32,
) -> Result<u64, SettleFault>
    requires unbegun { IsNew C.Cluster cluster.old change.now.after }
    requires mine { change.now.head.server ≡ C.server cluster.old }
    ensures asked { IsSettled more (change_fact change.now) result (C.calls cluster.old) (C.calls cluster.new) }
    ensures begun { IfOk result (λ version. Begins C.Cluster cluster.old cluster.new version (change_fact change.now)) }
    ensures later { IfOk result (λ version. change.now.after < version) }
    ensures leads { IfOk result (IsLeading C.Cluster cluster.new) }
    ensures pending { OnErr result (MayBegin C.Cluster cluster.old cluster.new (change_fact change.now)) }
    ensures stand { IfOk result (λ version. C.stand cluster.new ≡ done_at version (change_fact change.now) (C.stand cluster.old)) }
    ensures stays { OnErr result (C.stand cluster.new ≡ C.stand cluster.old) }
    ensures knows { OnOk result (HasRead C.Cluster cluster.old → (C.stand cluster.old).version ≡ change.now.after → Knows C.Cluster cluster.new) }
    ensures meanwhile { MayHaveBeen C.Cluster cluster.old cluster.new
        (IsBeginning (C.server cluster.old) (C.moment cluster.old) (change_fact change.now)) }
    ensures server { C.server cluster.new ≡ C.server cluster.old }
    ensures moment { C.moment cluster.old ≤ C.moment cluster.new }
{
    let told = send_again(cluster, change, more);
    version_told(change, told)
}

/// Sends a change, the same again where nothing is told of it, no more than so many times more, until it is known whether it was
/// done. Then the list is what it was, with this change, and no other server has begun since; else it may be either, and the server
/// must not go on.
pub fn settle<C: Cluster>(
    cluster: &mut C,
    change: &Change<'_>,
    more: u32,
) -> Result<u64, SettleFault>
    requires leads { IsLeading C.Cluster cluster.old change.now.after }
    requires mine { change.now.head.server ≡ C.server cluster.old }
    requires fresh { IsFresh C.Cluster cluster.old change.now.head }
    ensures asked { IsSettled more (change_fact change.now) result (C.calls cluster.old) (C.calls cluster.new) }
    ensures done { IfOk result (λ version. Does C.Cluster cluster.old cluster.new version (change_fact change.now)) }
    ensures later { IfOk result (λ version. change.now.after < version) }
    ensures leads { IfOk result (IsLeading C.Cluster cluster.new) }
    ensures pending { OnErr result (MayDo C.Cluster cluster.old cluster.new (change_fact change.now)) }
    ensures stand { IfOk result (λ version. C.stand cluster.new ≡ done_at version (change_fact change.now) (C.stand cluster.old)) }
    ensures stays { OnErr result (C.stand cluster.new ≡ C.stand cluster.old) }
    ensures knows { OnOk result (Knows C.Cluster cluster.old → Knows C.Cluster cluster.new) }
    ensures meanwhile { MayHaveBeen C.Cluster cluster.old cluster.new (Pends (C.server cluster.old) (C.moment cluster.old) (change_fact change.now)) }
    ensures server { C.server cluster.new ≡ C.server cluster.old }
    ensures moment { C.moment cluster.old ≤ C.moment cluster.new }
{
    let told = send_again(cluster, change, more);
    version_told(change, told)
}

/// Asks for the head, again where nothing is told, no more than so many times more. A server begins with this.
pub fn ask_head<C: Cluster>(cluster: &mut C, more: u32) -> Result<Option<Standing>, CallFault>
    ensures asked { AsksAgain more AskedHead result (C.calls cluster.old) (C.calls cluster.new) }
    ensures told { IfOk result (IsHeadTold C.Cluster cluster.old cluster.new) }
    ensures silent { OnErr result (IsSilent C.Cluster cluster.old cluster.new) }
    ensures some { IfOk result IsVersioned }
    ensures sent { (one : ChangeFact) → C.sent cluster.new one → C.sent cluster.old one }
    ensures stand { C.stand cluster.new ≡ stand_told result (C.stand cluster.old) }
    ensures meanwhile { MayHaveMoved C.Cluster cluster.old cluster.new (C.sent cluster.old) }
    ensures server { C.server cluster.new ≡ C.server cluster.old }
    ensures moment { C.moment cluster.old ≤ C.moment cluster.new }
{
    let mut left = more;
    'asks: loop {
        match cluster.head() {
            Ok(found) => return Ok(found),
            Err(CallFault::Refused) => return Err(CallFault::Refused),
            Err(CallFault::Unclear) => {}
        }
        if left == 0 {
            return Err(CallFault::Unclear);
        }
        left -= 1;
        cluster.pause();
    }
}

/// The head, before anything else is asked or sent: what stands there is to be read, and may be begun.
pub fn find_head<C: Cluster>(cluster: &mut C, more: u32) -> Result<Option<Standing>, CallFault>
    requires { IsUnused C.Cluster cluster.old }
    ensures asked { AsksAgain more AskedHead result (C.calls cluster.old) (C.calls cluster.new) }
    ensures found { IfOk result (λ found. IsForeignTo (C.server cluster.new) found → IsNew C.Cluster cluster.new (version_of found)) }
    ensures read { IfOk result (λ found. IsForeignTo (C.server cluster.new) found → HasRead C.Cluster cluster.new) }
    ensures stand { IfOk result (λ found. C.stand cluster.new ≡ stand_found found) }
    ensures server { C.server cluster.new ≡ C.server cluster.old }
{
    ask_head(cluster, more)
}

/// Asks for pieces, again where nothing is told, no more than so many times more. What was known stays known.
pub fn look_again<C: Cluster>(
    cluster: &mut C,
    alloc: Global,
    wanted: Wanted,
    more: u32,
) -> Result<Option<Vec<Piece>>, CallFault>
    ensures asked { AsksAgain more (AskedPieces wanted) (seen_pieces result) (C.calls cluster.old) (C.calls cluster.new) }
    ensures told { IfOk result (λ found. IfSome found (λ pieces. ArePiecesTold C.Cluster cluster.old cluster.new wanted (map piece_fact pieces.items))) }
    ensures silent { IsSilent C.Cluster cluster.old cluster.new }
    ensures sent { (one : ChangeFact) → C.sent cluster.new one → C.sent cluster.old one }
    ensures stand { C.stand cluster.new ≡ stand_seen wanted (seen_pieces result) (C.stand cluster.old) }
    ensures meanwhile { MayHaveMoved C.Cluster cluster.old cluster.new (C.sent cluster.old) }
    ensures server { C.server cluster.new ≡ C.server cluster.old }
    ensures moment { C.moment cluster.old ≤ C.moment cluster.new }
{
    let mut left = more;
    'looks: loop {
        match cluster.look(alloc, wanted) {
            Ok(found) => return Ok(found),
            Err(CallFault::Refused) => return Err(CallFault::Refused),
            Err(CallFault::Unclear) => {}
        }
        if left == 0 {
            return Err(CallFault::Unclear);
        }
        left -= 1;
        cluster.pause();
    }
}

/// Reads pieces before the server has begun.
pub fn read_pieces<C: Cluster>(
    cluster: &mut C,
    alloc: Global,
    wanted: Wanted,
    more: u32,
) -> Result<Option<Vec<Piece>>, CallFault>
    requires unbegun { IsNew C.Cluster cluster.old wanted.version }
    requires read { HasRead C.Cluster cluster.old }
    requires version { (C.stand cluster.old).version ≡ wanted.version }
    ensures asked { AsksAgain more (AskedPieces wanted) (seen_pieces result) (C.calls cluster.old) (C.calls cluster.new) }
    ensures unbegun { IsNew C.Cluster cluster.new wanted.version }
    ensures read { HasRead C.Cluster cluster.new }
    ensures rests { RestsThere C.Cluster cluster.old cluster.new wanted.version }
    ensures stand { C.stand cluster.new ≡ stand_seen wanted (seen_pieces result) (C.stand cluster.old) }
    ensures meanwhile { MayHaveBeen C.Cluster cluster.old cluster.new (IsResting (C.server cluster.old) (C.moment cluster.old) wanted.version) }
    ensures server { C.server cluster.new ≡ C.server cluster.old }
{
    look_again(cluster, alloc, wanted, more)
}

/// Reads pieces once it has begun.
pub fn look_up<C: Cluster>(
    cluster: &mut C,
    alloc: Global,
    wanted: Wanted,
    more: u32,
) -> Result<Option<Vec<Piece>>, CallFault>
    requires leads { IsLeading C.Cluster cluster.old wanted.version }
    requires knows { Knows C.Cluster cluster.old }
    requires version { (C.stand cluster.old).version ≡ wanted.version }
    ensures asked { AsksAgain more (AskedPieces wanted) (seen_pieces result) (C.calls cluster.old) (C.calls cluster.new) }
    ensures leads { IsLeading C.Cluster cluster.new wanted.version }
    ensures knows { Knows C.Cluster cluster.new }
    ensures stays { StaysThere C.Cluster cluster.old cluster.new wanted.version }
    ensures stand { C.stand cluster.new ≡ stand_seen wanted (seen_pieces result) (C.stand cluster.old) }
    ensures meanwhile { MayHaveBeen C.Cluster cluster.old cluster.new (StaysSo (C.server cluster.old) (C.moment cluster.old) wanted.version) }
    ensures server { C.server cluster.new ≡ C.server cluster.old }
    ensures moment { C.moment cluster.old ≤ C.moment cluster.new }
{
    look_again(cluster, alloc, wanted, more)
}

/// Whether a head of this version was told.
fn is_of(told: Result<Option<Standing>, CallFault>, version: u64) -> Result<(), SettleFault>
    ensures { Confirms version told result }
{
    match told {
        Ok(Some(standing)) => {
            if standing.version == version {
                Ok(())
            } else {
                Err(SettleFault::Overtaken)
            }
        }
        Ok(None) => Err(SettleFault::Overtaken),
        Err(fault) => Err(settle_fault(fault)),
    }
}

/// Asks for the head, again where nothing is told, no more than so many times more. Where it is of this version still, no other
/// server had begun when it was asked; else the server must not go on.
pub fn confirm<C: Cluster>(cluster: &mut C, version: u64, more: u32) -> Result<(), SettleFault>
    requires { IsLeading C.Cluster cluster.old version }
    ensures asked { IsConfirmed more version result (C.calls cluster.old) (C.calls cluster.new) }
    ensures sole { OnOk result (IsSole C.Cluster cluster.old cluster.new) }
    ensures stays { StaysThere C.Cluster cluster.old cluster.new version }
    ensures leads { IsLeading C.Cluster cluster.new version }
    ensures stand { 0 < (C.stand cluster.old).version → C.stand cluster.new ≡ C.stand cluster.old }
    ensures knows { OnOk result (Knows C.Cluster cluster.old → (C.stand cluster.old).version ≡ version → Knows C.Cluster cluster.new) }
    ensures meanwhile { MayHaveBeen C.Cluster cluster.old cluster.new (StaysSo (C.server cluster.old) (C.moment cluster.old) version) }
    ensures server { C.server cluster.new ≡ C.server cluster.old }
    ensures moment { C.moment cluster.old ≤ C.moment cluster.new }
{
    let told = ask_head(cluster, more);
    is_of(told, version)
}

/// Keeps the lease of a server that leads. Nothing of what stands there changes by that. It says by when it is to be kept again, or
/// that it is no more.
pub fn keep_lease<C: Cluster>(cluster: &mut C, now: u64) -> Result<u64, CallFault>
    ensures called { C.calls cluster.new ≡ Kept ∷ C.calls cluster.old }
    ensures stays { (version : ℕ) → IsLeading C.Cluster cluster.old version → StaysThere C.Cluster cluster.old cluster.new version }
    ensures leads { (version : ℕ) → IsLeading C.Cluster cluster.old version → IsLeading C.Cluster cluster.new version }
    ensures knows { (version : ℕ) → IsLeading C.Cluster cluster.old version → Knows C.Cluster cluster.old → Knows C.Cluster cluster.new }
    ensures stand { C.stand cluster.new ≡ C.stand cluster.old }
    ensures meanwhile { (version : ℕ) → IsLeading C.Cluster cluster.old version
        → MayHaveBeen C.Cluster cluster.old cluster.new (StaysSo (C.server cluster.old) (C.moment cluster.old) version) }
    ensures server { C.server cluster.new ≡ C.server cluster.old }
    ensures moment { C.moment cluster.old ≤ C.moment cluster.new }
{
    cluster.keep(now)
}

/// Lets go of what stood there before that version, for a server that leads. Nothing of what stands there changes by that.
pub fn compact_older<C: Cluster>(cluster: &mut C, version: u64)
    ensures called { C.calls cluster.new ≡ Compacted version ∷ C.calls cluster.old }
    ensures stays { (at : ℕ) → IsLeading C.Cluster cluster.old at → StaysThere C.Cluster cluster.old cluster.new at }
    ensures leads { (at : ℕ) → IsLeading C.Cluster cluster.old at → IsLeading C.Cluster cluster.new at }
    ensures knows { (at : ℕ) → IsLeading C.Cluster cluster.old at → Knows C.Cluster cluster.old → Knows C.Cluster cluster.new }
    ensures stand { C.stand cluster.new ≡ C.stand cluster.old }
    ensures meanwhile { (at : ℕ) → IsLeading C.Cluster cluster.old at
        → MayHaveBeen C.Cluster cluster.old cluster.new (StaysSo (C.server cluster.old) (C.moment cluster.old) at) }
    ensures server { C.server cluster.new ≡ C.server cluster.old }
    ensures moment { C.moment cluster.old ≤ C.moment cluster.new }
{
    cluster.compact(version);
}

/// What was told of pieces is not known any more: whoever leads still does, and what was read before a server begins is its head.
pub fn forget_pieces<C: Cluster>(cluster: &mut C)
    ensures called { C.calls cluster.new ≡ Forgot ∷ C.calls cluster.old }
    ensures leads { (version : ℕ) → IsLeading C.Cluster cluster.old version → IsLeading C.Cluster cluster.new version }
    ensures unbegun { (version : ℕ) → IsNew C.Cluster cluster.old version → IsNew C.Cluster cluster.new version }
    ensures read { HasRead C.Cluster cluster.old → HasRead C.Cluster cluster.new }
    ensures knows { Knows C.Cluster cluster.old → Knows C.Cluster cluster.new }
    ensures stand { C.stand cluster.new ≡ forgotten (C.stand cluster.old) }
    ensures server { C.server cluster.new ≡ C.server cluster.old }
    ensures moment { C.moment cluster.old ≤ C.moment cluster.new }
{
    cluster.forget();
}
