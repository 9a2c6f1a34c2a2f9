//! A file in a cluster.

ghost use Rattle.std.specs.Prelude.{◌≡◌, ◌≢◌, ◌↔◌, ◌<◌, ◌≤◌, ◌+◌, ◌-◌, ◌^◌, ◌++◌, ◌∷◌, [], IfErr, IfNone, IfOk, IfSome, Option, Result, IsFalse, IsTrue, Some, None, OnErr, OnOk, drop, is_some, length, replicate, take, true};
ghost use Rattle.batch_file.specs.Crashes.{IsFailure, IsWrittenAt, Only, Swapped};
ghost use Rattle.system_faults.specs.declared.SystemFault.TheVariants.{FileTooLarge};
ghost use Rattle.batch_file.specs.Tears.{Torn};
ghost use Rattle.cluster_file.specs.Causes.{FailsFor, FailsForLease, HasConfirmed, HasNoPlace, IsTooLong, IsUnconfirmed};
ghost use Rattle.cluster_file.specs.Devices.{GoesOn, IsWell, KeepsLease, LeavesByStep, KeepsReading, IsSoleSince, KeepsSeen, LeavesNoMore, LeavesOrPut, LeavesOrSeen, LeavesOrThis, LosesAtFailure, Proceeds, TellsWhy, failed_by, leaves};
ghost use Rattle.etcd_cluster.specs.Again.{IsSettled};
ghost use Rattle.etcd_cluster.specs.Calls.{Kept};
ghost use Rattle.etcd_cluster.specs.declared.change.Standing.{Standing};
ghost use Rattle.etcd_cluster.specs.Knowing.{IsUnused, Knows};
ghost use Rattle.etcd_cluster.specs.Sides.{IsLeading};
ghost use Rattle.etcd_cluster.specs.Stands.{change_fact, done_at};
ghost use Rattle.cluster_file.specs.Runs.{IsRunOf, MergesMany};
ghost use Rattle.cluster_file.specs.Opened.{IsOpened};
ghost use Rattle.cluster_file.specs.Places.{EndsThere, IsOver, IsRead};
ghost use Rattle.etcd_cluster.specs.declared.settling.SettleFault.TheVariants.{Overtaken, Refused};
ghost use Rattle.cluster_file.specs.Files.{CountsSame, MayHaveMadeIt, change_with, last_change, FindsSame, IsGivenUp, IsLaid, IsLaidTo, IsMade, IsMadeBy, IsNotMade, IsSent, KeepsWritten, LaysMore, IsSameBut, IsSound, IsSynced, IsTried, IsWhole, MayBeMadeBy, MayHaveMade, MayMake, next_of, seen_of};

use crate::beside::{NextFile, without_zeros};
use crate::merging::Run;
use batch_file::device::DeviceFault;
use etcd_cluster::change::{Change, Head, Piece, Standing, Write};
use etcd_cluster::cluster::Cluster;
use etcd_cluster::settling::{SettleFault, begin, confirm, find_head, keep_lease, settle};
use std::alloc::Global;
use system_faults::SystemFault;

/// A piece has so many bytes at most.
pub(crate) const PIECE: usize = 1 << 17;

/// What is not told is asked for again no more than so often.
pub(crate) const MORE: u32 = 30;

/// No file.
const ABSENT: Standing = Standing {
    version: 0,
    head: Head {
        server: 0,
        turn: 0,
        generation: 0,
        end: 0,
        room: 0,
    },
};

/// A file in a cluster, which one server writes from its first change on.
#[derive(Drop)]
pub struct ClusterFile<C: Cluster> {
    pub(crate) cluster: C,
    pub(crate) alloc: Global,
    /// The number of the server.
    pub(crate) server: u64,
    /// The head that stands there, and its version.
    pub(crate) standing: Standing,
    /// The version that was read before the server began.
    pub(crate) read: u64,
    /// Its first bytes, so many, are in pieces that are known,
    pub(crate) known: u64,
    /// each of which begins at one of these places.
    pub(crate) starts: Vec<u64>,
    /// The piece that was read last.
    pub(crate) piece: Option<Piece>,
    /// What was written behind the pieces, and is in none yet.
    pub(crate) unsynced: Vec<u8>,
    /// So many zeros stand behind that.
    pub(crate) room: u64,
    /// The next file, where one was begun and nothing on it was refused since.
    pub(crate) next: Option<NextFile>,
    /// The small pieces at its end.
    pub(crate) run: Run,
    /// The server has begun: it put the head.
    pub(crate) has_begun: bool,
    /// Why it writes nothing more, if it does not.
    pub(crate) lost: Option<SettleFault>,
}

/// What is told of a file that is lost, or not known to be as it was: `lost` says why.
pub(crate) const FAILED: DeviceFault = DeviceFault::Failed(SystemFault::Other);

/// As which fault it is told that a file is lost.
pub(crate) fn failed_of(fault: SettleFault) -> DeviceFault
    ensures { result ≡ failed_by fault }
{
    match fault {
        SettleFault::Overtaken => DeviceFault::Failed(SystemFault::Overtaken),
        SettleFault::Unclear => DeviceFault::Failed(SystemFault::Unclear),
        SettleFault::Refused => FAILED,
    }
}

/// Makes a change: the first one of a server begins.
fn make<C: Cluster>(
    cluster: &mut C,
    change: &Change<'_>,
    has_begun: bool,
) -> Result<u64, SettleFault>
    requires may { MayMake C.Cluster cluster.old (change_fact change.now) has_begun }
    requires mine { change.now.head.server ≡ C.server cluster.old }
    ensures asked { IsSettled MORE (change_fact change.now) result (C.calls cluster.old) (C.calls cluster.new) }
    ensures made { IfOk result (λ version. IsMadeBy C.Cluster cluster.old cluster.new version (change_fact change.now) has_begun) }
    ensures leads { IfOk result (IsLeading C.Cluster cluster.new) }
    ensures later { IfOk result (λ version. change.now.after < version) }
    ensures knows { OnOk result (Knows C.Cluster cluster.new) }
    ensures stand { IfOk result (λ version. C.stand cluster.new ≡ done_at version (change_fact change.now) (C.stand cluster.old)) }
    ensures may_be { OnErr result (MayBeMadeBy C.Cluster cluster.old cluster.new (change_fact change.now) has_begun) }
    ensures stays { OnErr result (C.stand cluster.new ≡ C.stand cluster.old) }
    ensures meanwhile { MayHaveMade C.Cluster cluster.old cluster.new (change_fact change.now) has_begun }
    ensures server { C.server cluster.new ≡ C.server cluster.old }
{
    if has_begun {
        settle(cluster, change, MORE)
    } else {
        begin(cluster, change, MORE)
    }
}

impl<C: Cluster + Drop> ClusterFile<C> {
    /// Finds the file: nothing of it was read, and where there is none it is to be made.
    pub fn find(alloc: Global, mut cluster: C, server: u64) -> Result<ClusterFile<C>, DeviceFault>
        requires unused { IsUnused C.Cluster cluster }
        requires mine { C.server cluster ≡ server }
        ensures sound { IfOk result (IsSound C.Cluster) }
        ensures unbegun { IfOk result (λ file. IsFalse file.has_begun) }
        ensures kept { IfOk result (λ file. file.lost ≡ None) }
        ensures synced { IfOk result IsSynced }
        ensures opened { IfOk result (IsOpened C.Cluster) }
        ensures read { IfOk result (IsRead C.Cluster) }
        ensures server { IfOk result (λ file. file.server ≡ server) }
    {
        let standing = match find_head(&mut cluster, MORE) {
            Ok(Some(found)) if found.head.server != server => found,
            Ok(None) => ABSENT,
            _ => return Err(FAILED),
        };
        Ok(ClusterFile {
            cluster,
            alloc,
            server,
            standing,
            read: standing.version,
            known: 0,
            starts: Vec::new(alloc),
            piece: None,
            unsynced: Vec::new(alloc),
            room: standing.head.room,
            next: None,
            run: Run::new(alloc),
            has_begun: false,
            lost: None,
        })
    }
}

impl<C: Cluster> ClusterFile<C> {
    /// Its head, as the next change puts it where nothing else is changed.
    pub(crate) fn next_head(&self) -> Head
        ensures server { result.server ≡ self.now.server }
        ensures fresh { self.now.standing.head.turn ≢ result.turn }
        ensures generation { result.generation ≡ self.now.standing.head.generation }
        ensures end { result.end ≡ self.now.standing.head.end }
        ensures room { result.room ≡ self.now.standing.head.room }
    {
        Head {
            server: self.server,
            turn: self.standing.head.turn.wrapping_add(1),
            ..self.standing.head
        }
    }

    /// Makes a change, and waits until it is known to be done. Where it is not, nothing more is written. The first change of a server
    /// begins.
    pub(crate) fn change(&mut self, head: Head, writes: &[Write<'_>]) -> Result<(), DeviceFault>
        requires sound { self.old.lost ≡ None → IsSound C.Cluster self.old }
        requires mine { head.server ≡ self.old.server }
        requires fresh { self.old.standing.head.turn ≢ head.turn }
        ensures made { OnOk result (IsMade C.Cluster self.old self.new (change_with self.old head writes.now)) }
        // It alone was sent, until it was known what became of it, and the file says what did; once it is lost nothing is sent.
        ensures tried { self.old.lost ≡ None → IsTried C.Cluster self.old self.new (change_with self.old head writes.now) }
        ensures meanwhile { self.old.lost ≡ None → MayHaveMadeIt C.Cluster self.old self.new (change_with self.old head writes.now) }
        ensures unsent { is_some self.old.lost ≡ true → self.new ≡ self.old }
        ensures why { self.old.lost ≡ None → TellsWhy result self.new }
        ensures failed { IfErr result IsFailure }
        ensures kept { OnOk result (self.new.lost ≡ None) }
        ensures given_up { OnErr result (IsGivenUp C.Cluster self.old self.new (change_with self.old head writes.now)) }
        ensures same { IsSameBut self.old self.new }
        ensures cause { self.old.lost ≡ None → FailsFor C.Cluster ⊥ result self.old self.new }
    {
        if self.lost.is_some() {
            return Err(FAILED);
        }
        let change = Change {
            after: self.standing.version,
            head,
            writes,
        };
        match make(&mut self.cluster, &change, self.has_begun) {
            Ok(version) => {
                self.standing = Standing { version, head };
                self.has_begun = true;
                Ok(())
            }
            Err(fault) => Err(self.lose(fault)),
        }
    }

    /// Nothing more is written.
    pub(crate) fn lose(&mut self, fault: SettleFault) -> DeviceFault
        ensures lost { self.new ≡ record self.old { lost = Some fault } }
        ensures told { result ≡ failed_by fault }
    {
        self.lost = Some(fault);
        failed_of(fault)
    }

    /// Whether a file stands there.
    pub fn is_there(&self) -> bool
        ensures { IsTrue result ↔ (0 < self.now.standing.version) }
    {
        self.standing.version > 0
    }

    /// Whether all of it was read, where it was read up to that place.
    pub fn is_over(&self, at: u64) -> bool
        ensures { IsTrue result ↔ IsOver self.now at }
    {
        let end = self.standing.head.end;
        let Some(behind) = (self.unsynced.len() as u64).checked_add(self.room) else {
            return false;
        };
        match end.checked_add(behind) {
            Some(all) => self.known >= end && all <= at,
            None => false,
        }
    }

    /// Nothing more is written.
    pub fn give_up(&mut self)
        ensures { self.new ≡ record self.old { lost = Some Refused } }
    {
        self.lost = Some(SettleFault::Refused);
    }

    /// Writes over the zeros, and past them, from a place in them on.
    pub(crate) fn write_behind(&mut self, at: u64, bytes: &[u8]) -> Result<(), DeviceFault>
        requires working { self.old.lost ≡ None }
        requires whole { IsSound C.Cluster self.old × IsWhole C.Cluster self.old }
        requires synced { self.old.unsynced.items ≡ [] }
        requires within { at ≤ length (seen_of C.Cluster self.old) }
        ensures written { OnOk result (IsWrittenAt (seen_of C.Cluster self.old) at bytes.now (seen_of C.Cluster self.new)) }
        ensures items { OnOk result (self.new.unsynced.items ≡ replicate (at - self.old.standing.head.end) 0 ++ bytes.now) }
        ensures behind { OnOk result (self.old.standing.head.end ≤ at) }
        ensures same { OnOk result (self.new ≡ record self.old { unsynced = self.new.unsynced; room = self.new.room }) }
        ensures not { OnErr result (self.new ≡ record self.old { lost = self.new.lost }) }
        ensures loses { LosesAtFailure result self.new }
        ensures room { OnOk result (self.new.room ≤ self.old.room) }
        ensures cause { IfErr result (λ fault. IsFailure fault → at < self.old.standing.head.end) }
    {
        let end = self.standing.head.end;
        if at < end {
            return Err(self.lose(SettleFault::Refused));
        }
        let mut more = vec![in self.alloc; 0; (at - end) as usize]?;
        more.extend_from_slice(bytes)?;
        let left = self.room.saturating_sub(more.len() as u64);
        self.unsynced = more;
        self.room = left;
        Ok(())
    }

    /// What was written is put there by one change; where it is long, pieces of it stand there before, behind its end. Zeros at its end
    /// are in no piece.
    pub(crate) fn sync_all(&mut self) -> Result<(), DeviceFault>
        requires known { self.old.lost ≡ None → IsSound C.Cluster self.old × IsWhole C.Cluster self.old }
        requires run { self.old.lost ≡ None → IsRunOf (C.stand self.old.cluster) self.old.run }
        ensures seen { seen_of C.Cluster self.new ≡ seen_of C.Cluster self.old }
        ensures synced { OnOk result (IsSynced self.new) }
        ensures whole { self.new.lost ≡ None → IsSound C.Cluster self.new × IsWhole C.Cluster self.new }
        ensures begun { OnOk result (IsTrue self.new.has_begun) }
        ensures proceeds { self.old.lost ≡ None → Proceeds C.Cluster self.old self.new }
        ensures sole { OnOk result (IsSoleSince C.Cluster self.old self.new) }
        // Whoever begins then finds what a read would return,
        ensures durable { OnOk result (Only (seen_of C.Cluster self.old) (leaves C.Cluster self.new)) }
        // and meanwhile that, or what it would have found before.
        ensures crash { self.old.lost ≡ None → LeavesOrSeen C.Cluster self.old self.new }
        ensures loses { LosesAtFailure result self.new }
        ensures cause { self.old.lost ≡ None → FailsFor C.Cluster (IsTooLong self.old) result self.old self.new }
    {
        if self.lost.is_some() {
            return Err(FAILED);
        }
        let size = without_zeros(&self.unsynced);
        let zeros = (self.unsynced.len() - size) as u64;
        let old = self.standing.head;
        let (Some(end), Some(room)) = (
            old.end.checked_add(size as u64),
            self.room.checked_add(zeros),
        ) else {
            return Err(self.lose(SettleFault::Refused));
        };
        let at = self.lay_all(size)?;
        self.put_rest(at, size, end, room)
    }

    /// The last piece of what was written, from that place on, and the new end of the file.
    fn put_rest(&mut self, at: usize, size: usize, end: u64, room: u64) -> Result<(), DeviceFault>
        requires working { self.old.lost ≡ None }
        requires sound { IsSound C.Cluster self.old }
        requires run { IsRunOf (C.stand self.old.cluster) self.old.run }
        requires laid { IsLaidTo C.Cluster self.old at }
        requires ordered { at ≤ size }
        requires few { size ≤ at + 2 ^ 17 }
        requires within { size ≤ length self.old.unsynced.items }
        requires zeros { drop size self.old.unsynced.items ≡ replicate (length self.old.unsynced.items - size) 0 }
        requires end { end ≡ self.old.standing.head.end + size }
        requires room { room ≡ self.old.room + (length self.old.unsynced.items - size) }
        ensures seen { seen_of C.Cluster self.new ≡ seen_of C.Cluster self.old }
        ensures synced { OnOk result (IsSynced self.new) }
        ensures whole { self.new.lost ≡ None → IsSound C.Cluster self.new × IsWhole C.Cluster self.new }
        ensures begun { OnOk result (IsTrue self.new.has_begun) }
        ensures proceeds { Proceeds C.Cluster self.old self.new }
        ensures sole { OnOk result (IsSoleSince C.Cluster self.old self.new) }
        ensures durable { OnOk result (Only (seen_of C.Cluster self.old) (leaves C.Cluster self.new)) }
        ensures crash { LeavesOrSeen C.Cluster self.old self.new }
        ensures loses { LosesAtFailure result self.new }
        ensures cause { FailsFor C.Cluster ⊥ result self.old self.new }
    {
        let mut head = self.next_head();
        let place = head.end + at as u64;
        head.end = end;
        head.room = room;
        self.put_last(head, place, at, size)?;
        self.room = room;
        self.unsynced.truncate(size);
        self.note_synced(place, at);
        Ok(())
    }

    /// Puts bytes over the zeros at its end, and past them, from a place in them on: all at once. Where that is refused it is as it
    /// was, or lost.
    pub fn put(&mut self, at: u64, bytes: &[u8]) -> Result<(), DeviceFault>
        requires well { IsWell C.Cluster self.old }
        requires within { at ≤ length (seen_of C.Cluster self.old) }
        ensures written { OnOk result (IsWrittenAt (seen_of C.Cluster self.old) at bytes.now (seen_of C.Cluster self.new)) }
        ensures sole { OnOk result (IsSoleSince C.Cluster self.old self.new) }
        ensures crash { LeavesByStep C.Cluster (Torn at bytes.now) self.old self.new }
        ensures goes_on { GoesOn C.Cluster self.old self.new }
        ensures loses { LosesAtFailure result self.new }
        ensures next { next_of C.Cluster self.new ≡ next_of C.Cluster self.old }
        ensures cause { self.old.lost ≡ None → FailsFor C.Cluster (HasNoPlace self.old at bytes.now) result self.old self.new }
    {
        if self.lost.is_some() {
            return Err(FAILED);
        }
        let told = self.put_now(at, bytes);
        self.drop_unput(&told);
        told
    }

    /// Writes, and puts what was written.
    fn put_now(&mut self, at: u64, bytes: &[u8]) -> Result<(), DeviceFault>
        requires well { IsWell C.Cluster self.old }
        requires working { self.old.lost ≡ None }
        requires within { at ≤ length (seen_of C.Cluster self.old) }
        ensures written { OnOk result (IsWrittenAt (seen_of C.Cluster self.old) at bytes.now (seen_of C.Cluster self.new)) }
        ensures synced { OnOk result (IsSynced self.new) }
        ensures whole { self.new.lost ≡ None → IsSound C.Cluster self.new × IsWhole C.Cluster self.new }
        ensures sole { OnOk result (IsSoleSince C.Cluster self.old self.new) }
        ensures proceeds { Proceeds C.Cluster self.old self.new }
        ensures durable { OnOk result (Only (seen_of C.Cluster self.new) (leaves C.Cluster self.new)) }
        ensures crash { LeavesOrPut C.Cluster self.old self.new at bytes.now }
        ensures loses { LosesAtFailure result self.new }
        ensures cause { FailsFor C.Cluster (HasNoPlace self.old at bytes.now) result self.old self.new }
    {
        self.write_behind(at, bytes)?;
        self.sync_all()
    }

    /// Puts so many zeros more behind it, where a number can count them.
    pub fn put_room(&mut self, size: u64) -> Result<Option<SystemFault>, DeviceFault>
        requires { IsWell C.Cluster self.old }
        ensures longer { IfOk result (λ refused. IfNone refused (seen_of C.Cluster self.new ≡ seen_of C.Cluster self.old ++ replicate size 0)) }
        ensures same { IfOk result (λ refused. IfSome refused (λ _. self.new ≡ self.old)) }
        ensures of_room { IfOk result (λ refused. IfSome refused (λ reason. reason ≡ FileTooLarge)) }
        ensures crash { LeavesByStep C.Cluster (Torn (length (seen_of C.Cluster self.old)) (replicate size 0)) self.old self.new }
        ensures goes_on { GoesOn C.Cluster self.old self.new }
        ensures loses { LosesAtFailure result self.new }
        ensures next { next_of C.Cluster self.new ≡ next_of C.Cluster self.old }
        ensures cause { self.old.lost ≡ None → FailsFor C.Cluster ⊥ result self.old self.new }
        ensures full { IfOk result (λ refused. IfSome refused (λ _. 2 ^ 64 ≤ self.old.room + size)) }
    {
        if self.lost.is_some() {
            return Err(FAILED);
        }
        let Some(room) = self.room.checked_add(size) else {
            return Ok(Some(SystemFault::FileTooLarge));
        };
        let head = Head {
            room,
            ..self.next_head()
        };
        let told = self.change(head, &[]);
        self.room = room;
        told?;
        Ok(None)
    }

    /// Whether all that a read would return was put there: by a server that has begun, and has not lost the file.
    pub fn still_works(&mut self) -> Result<(), DeviceFault>
        requires { IsWell C.Cluster self.old }
        ensures durable { OnOk result (Only (seen_of C.Cluster self.old) (leaves C.Cluster self.new)) }
        ensures same { self.new ≡ record self.old { lost = self.new.lost } }
        ensures seen { KeepsSeen C.Cluster self.old self.new }
        ensures loses { LosesAtFailure result self.new }
        ensures goes_on { GoesOn C.Cluster self.old self.new }
        ensures next { next_of C.Cluster self.new ≡ next_of C.Cluster self.old }
        ensures works { self.old.lost ≡ None → IsTrue self.old.has_begun → OnErr result ⊥ }
    {
        if self.lost.is_some() {
            return Err(FAILED);
        }
        if !self.has_begun {
            return Err(self.lose(SettleFault::Refused));
        }
        Ok(())
    }

    /// So many bytes of what was written are put there, behind the end, but for a last piece of them. It tells where that begins.
    fn lay_all(&mut self, size: usize) -> Result<usize, DeviceFault>
        requires working { self.old.lost ≡ None }
        requires sound { IsSound C.Cluster self.old }
        requires whole { IsWhole C.Cluster self.old }
        requires within { size ≤ length self.old.unsynced.items }
        requires few { self.old.standing.head.end + size < 2 ^ 64 }
        ensures within { IfOk result (λ at. at ≤ size) }
        ensures few { IfOk result (λ at. size ≤ at + 2 ^ 17) }
        ensures laid { IfOk result (IsLaid C.Cluster self.old self.new) }
        ensures proceeds { Proceeds C.Cluster self.old self.new }
        ensures left { LeavesNoMore C.Cluster self.old self.new }
        ensures loses { LosesAtFailure result self.new }
        ensures kept { KeepsWritten self.old self.new }
        ensures seen { seen_of C.Cluster self.new ≡ seen_of C.Cluster self.old }
        ensures found { FindsSame C.Cluster self.old self.new }
        ensures whole { self.new.lost ≡ None → IsSound C.Cluster self.new × IsWhole C.Cluster self.new }
        ensures cause { FailsFor C.Cluster ⊥ result self.old self.new }
    {
        let end = self.standing.head.end;
        let mut at = 0;
        'pieces: while size - at > PIECE {
            self.lay(end + at as u64, at, at + PIECE)?;
            at += PIECE;
        }
        Ok(at)
    }

    /// A piece of what was written, at a place behind the end. No request has more bytes than one piece may.
    fn lay(&mut self, place: u64, from: usize, to: usize) -> Result<(), DeviceFault>
        requires working { self.old.lost ≡ None }
        requires sound { IsSound C.Cluster self.old }
        requires whole { IsWhole C.Cluster self.old }
        requires within { to ≤ length self.old.unsynced.items }
        requires some { from < to }
        requires few { to ≤ from + 2 ^ 17 }
        requires place { place ≡ self.old.standing.head.end + from }
        ensures laid { OnOk result (LaysMore C.Cluster self.old self.new from to) }
        ensures proceeds { Proceeds C.Cluster self.old self.new }
        ensures left { LeavesNoMore C.Cluster self.old self.new }
        ensures loses { LosesAtFailure result self.new }
        ensures kept { KeepsWritten self.old self.new }
        ensures seen { seen_of C.Cluster self.new ≡ seen_of C.Cluster self.old }
        ensures found { FindsSame C.Cluster self.old self.new }
        ensures whole { self.new.lost ≡ None → IsSound C.Cluster self.new × IsWhole C.Cluster self.new }
        ensures cause { FailsFor C.Cluster ⊥ result self.old self.new }
    {
        let head = self.next_head();
        let bytes = self.unsynced[from..to].to_vec(self.alloc)?;
        self.change(head, &[Write::Lay(head.generation, place, &bytes)])
    }

    /// The last piece of what was written, and the new end.
    fn put_last(&mut self, head: Head, at: u64, from: usize, to: usize) -> Result<(), DeviceFault>
        requires working { self.old.lost ≡ None }
        requires sound { IsSound C.Cluster self.old }
        requires mine { head.server ≡ self.old.server }
        requires fresh { self.old.standing.head.turn ≢ head.turn }
        requires within { to ≤ length self.old.unsynced.items }
        requires ordered { from ≤ to }
        requires few { to ≤ from + 2 ^ 17 }
        ensures made { OnOk result (IsMade C.Cluster self.old self.new (last_change self.old head at from to)) }
        ensures not { OnErr result (IsNotMade C.Cluster self.old self.new (last_change self.old head at from to)) }
        ensures kept { KeepsWritten self.old self.new }
        ensures reading { KeepsReading self.old self.new }
        ensures loses { LosesAtFailure result self.new }
        ensures sent { IsSent C.Cluster self.old self.new (last_change self.old head at from to) }
        ensures cause { FailsFor C.Cluster ⊥ result self.old self.new }
    {
        if from == to {
            return self.change(head, &[]);
        }
        let bytes = self.unsynced[from..to].to_vec(self.alloc)?;
        self.change(head, &[Write::Lay(head.generation, at, &bytes)])
    }

    /// Begins, and puts these bytes in the place of what stands behind that end. Where that is not known to be done it is lost.
    pub fn begin_with(&mut self, end: u64, bytes: &[u8]) -> Result<(), DeviceFault>
        requires well { IsWell C.Cluster self.old }
        requires within { end ≤ length (seen_of C.Cluster self.old) }
        ensures settled { OnOk result (seen_of C.Cluster self.new ≡ take end (seen_of C.Cluster self.old) ++ bytes.now) }
        ensures durable { OnOk result (Only (seen_of C.Cluster self.new) (leaves C.Cluster self.new)) }
        ensures begun { OnOk result (IsTrue self.new.has_begun) }
        ensures crash { LeavesByStep C.Cluster (Swapped (take end (seen_of C.Cluster self.old) ++ bytes.now)) self.old self.new }
        ensures failed { IfErr result IsFailure }
        ensures loses { LosesAtFailure result self.new }
        ensures goes_on { GoesOn C.Cluster self.old self.new }
    {
        if self.lost.is_some() {
            return Err(FAILED);
        }
        let stood = self.standing.head.end;
        if end < stood {
            return Err(self.lose(SettleFault::Refused));
        }
        self.take_over()?;
        match self.put_begun(end, bytes) {
            Ok(()) => Ok(()),
            Err(_refused) => Err(self.lose_any()),
        }
    }

    /// Begins, and clears away what another server left behind the end, and of a next file.
    fn take_over(&mut self) -> Result<(), DeviceFault>
        requires well { IsWell C.Cluster self.old }
        requires working { self.old.lost ≡ None }
        ensures seen { KeepsSeen C.Cluster self.old self.new }
        ensures goes_on { GoesOn C.Cluster self.old self.new }
        ensures working { OnOk result (self.new.lost ≡ None) }
        ensures lost { OnErr result (is_some self.new.lost ≡ true) }
        ensures ends { OnOk result (EndsThere C.Cluster self.new) }
        ensures failed { IfErr result IsFailure }
    {
        self.touch()?;
        self.begin_beside()
    }

    /// Puts these bytes behind that end, in the place of all zeros.
    fn put_begun(&mut self, end: u64, bytes: &[u8]) -> Result<(), DeviceFault>
        requires well { IsWell C.Cluster self.old }
        requires working { self.old.lost ≡ None }
        requires within { end ≤ length (seen_of C.Cluster self.old) }
        ensures settled { OnOk result (seen_of C.Cluster self.new ≡ take end (seen_of C.Cluster self.old) ++ bytes.now) }
        ensures synced { OnOk result (IsSynced self.new) }
        ensures whole { self.new.lost ≡ None → IsSound C.Cluster self.new × IsWhole C.Cluster self.new }
        ensures begun { OnOk result (IsTrue self.new.has_begun) }
        ensures proceeds { Proceeds C.Cluster self.old self.new }
        ensures durable { OnOk result (Only (seen_of C.Cluster self.new) (leaves C.Cluster self.new)) }
        ensures crash { LeavesOrThis C.Cluster self.old self.new (take end (seen_of C.Cluster self.old) ++ bytes.now) }
    {
        self.write_behind(end, bytes)?;
        self.room = 0;
        self.sync_all()
    }

    /// Nothing more is written, for the reason that there is.
    pub(crate) fn lose_any(&mut self) -> DeviceFault
        ensures lost { is_some self.new.lost ≡ true }
        ensures same { self.new ≡ record self.old { lost = self.new.lost } }
        ensures failed { IsFailure result }
    {
        match self.lost {
            Some(reason) => failed_of(reason),
            None => self.lose(SettleFault::Refused),
        }
    }

    /// Where nothing was put and it is not lost, it is as it was.
    fn drop_unput(&mut self, told: &Result<(), DeviceFault>)
        ensures put { OnOk told.now (self.new ≡ self.old) }
        ensures lost { is_some self.old.lost ≡ true → self.new ≡ self.old }
        ensures not { OnErr told.now (self.old.lost ≡ None → IsSynced self.new) }
        ensures same { self.new ≡ record self.old { unsynced = self.new.unsynced; room = self.new.room } }
    {
        if told.is_err() && self.lost.is_none() {
            self.unsynced.clear();
            self.room = self.standing.head.room;
        }
    }

    /// Keeps the lease of the server, and has few pieces at the end. It says by when it wants to be called again.
    pub fn keep_place(&mut self, now: u64) -> Result<u64, DeviceFault>
        requires { IsWell C.Cluster self.old }
        ensures seen { KeepsSeen C.Cluster self.old self.new }
        ensures loses { LosesAtFailure result self.new }
        ensures goes_on { GoesOn C.Cluster self.old self.new }
        ensures kept { OnOk result (KeepsLease (C.calls self.old.cluster) (C.calls self.new.cluster)) }
        ensures next { next_of C.Cluster self.new ≡ next_of C.Cluster self.old }
        ensures merged { OnOk result (MergesMany C.Cluster self.old self.new) }
        ensures cause { self.old.lost ≡ None → IsTrue self.old.has_begun → FailsForLease C.Cluster result self.old self.new }
    {
        if self.lost.is_some() {
            return Err(FAILED);
        }
        if !self.has_begun {
            return Err(self.lose(SettleFault::Refused));
        }
        self.merge()?;
        self.keep_alone(now)
    }

    /// Keeps the lease.
    fn keep_alone(&mut self, now: u64) -> Result<u64, DeviceFault>
        requires well { IsWell C.Cluster self.old }
        requires working { self.old.lost ≡ None }
        requires begun { IsTrue self.old.has_begun }
        ensures seen { KeepsSeen C.Cluster self.old self.new }
        ensures loses { LosesAtFailure result self.new }
        ensures goes_on { GoesOn C.Cluster self.old self.new }
        ensures kept { C.calls self.new.cluster ≡ Kept ∷ C.calls self.old.cluster }
        ensures next { next_of C.Cluster self.new ≡ next_of C.Cluster self.old }
        ensures stand { C.stand self.new.cluster ≡ C.stand self.old.cluster }
        ensures overtaken { OnErr result (self.new.lost ≡ Some Overtaken) }
    {
        match keep_lease(&mut self.cluster, now) {
            Ok(due) => Ok(due),
            Err(_none) => {
                self.lost = Some(SettleFault::Overtaken);
                Err(DeviceFault::Failed(SystemFault::Overtaken))
            }
        }
    }

    /// Nobody else has begun since, where this server has begun.
    pub fn ask_head(&mut self) -> Result<(), DeviceFault>
        requires { IsWell C.Cluster self.old }
        ensures sole { OnOk result (IsSoleSince C.Cluster self.old self.new) }
        ensures asked { OnOk result (HasConfirmed C.Cluster self.old self.new) }
        ensures seen { KeepsSeen C.Cluster self.old self.new }
        ensures loses { LosesAtFailure result self.new }
        ensures goes_on { GoesOn C.Cluster self.old self.new }
        ensures next { next_of C.Cluster self.new ≡ next_of C.Cluster self.old }
        ensures refused { self.old.lost ≡ None → IsTrue self.old.has_begun → IfErr result (IsUnconfirmed C.Cluster self.old self.new) }
    {
        if self.lost.is_some() {
            return Err(FAILED);
        }
        if !self.has_begun {
            return Err(self.lose(SettleFault::Refused));
        }
        match confirm(&mut self.cluster, self.standing.version, MORE) {
            Ok(()) => Ok(()),
            Err(reason) => {
                self.lost = Some(reason);
                Err(failed_of(reason))
            }
        }
    }

    /// Begins: what stands there was read, and from here on nothing that another server sent before is done any more. What stands
    /// behind its end goes.
    fn touch(&mut self) -> Result<(), DeviceFault>
        requires working { self.old.lost ≡ None }
        requires sound { IsSound C.Cluster self.old }
        requires whole { IsWhole C.Cluster self.old }
        ensures seen { seen_of C.Cluster self.new ≡ seen_of C.Cluster self.old }
        ensures begun { OnOk result (IsTrue self.new.has_begun) }
        ensures kept { KeepsWritten self.old self.new }
        ensures counts { OnOk result (CountsSame self.old.standing.head self.new.standing.head) }
        ensures ends { OnOk result (EndsThere C.Cluster self.new) }
        ensures found { FindsSame C.Cluster self.old self.new }
        ensures proceeds { Proceeds C.Cluster self.old self.new }
        ensures left { LeavesNoMore C.Cluster self.old self.new }
        ensures whole { OnOk result (IsWhole C.Cluster self.new) }
        ensures sound { OnOk result (IsSound C.Cluster self.new) }
        ensures working { OnOk result (self.new.lost ≡ None) }
        ensures lost { OnErr result (is_some self.new.lost ≡ true) }
        ensures failed { IfErr result IsFailure }
    {
        let head = self.next_head();
        self.change(head, &[Write::Clear(head.generation, head.end, u64::MAX)])
    }
}
