//! The next file, in the generation behind the one that counts.

ghost use Rattle.std.specs.Prelude.{◌≡◌, ◌<◌, ◌≤◌, ◌+◌, ◌-◌, ◌^◌, ◌++◌, ◌∷◌, [], IfErr, IfSome, IsTrue, None, OnErr, OnOk, Some, drop, is_some, length, replicate, true, vec_len};
ghost use Rattle.batch_file.specs.Crashes.{IsFailure, IsReplaceFailure, IsUnplaced, Only, Swapped};
ghost use Rattle.cluster_file.specs.Devices.{GoesOn, HasCompacted, IsBegun, IsWell, KeepsSeen, LeavesByStep, LeavesOrThis, leaves};
ghost use Rattle.cluster_file.specs.Files.{LeavesZeros, next_of, next_with, seen_of, written_beside};
ghost use Rattle.cluster_file.specs.Places.{EndsThere};
ghost use Rattle.cluster_file.specs.Nexts.{IsWrittenBeside, LeavesCounted, placed_file};
ghost use Rattle.etcd_cluster.specs.Stands.{write_fact};

use crate::file::{ClusterFile, FAILED, PIECE};
use batch_file::device::{DeviceFault, ReplaceFault};
use etcd_cluster::change::{Head, Write};
use etcd_cluster::cluster::Cluster;
use etcd_cluster::settling::SettleFault;
use std::alloc::Global;
use system_faults::SystemFault;

/// What was written to the next file.
#[derive(Drop)]
pub(crate) struct NextFile {
    /// So many bytes stand in its pieces.
    pub laid: u64,
    /// Where each of them begins.
    pub starts: Vec<u64>,
    /// These are in none yet: zeros at the end of what was written stay here.
    pub rest: Vec<u8>,
}

impl NextFile {
    /// Nothing was written to it.
    fn new(alloc: Global) -> NextFile
        ensures laid { result.laid ≡ 0 }
        ensures starts { result.starts.items ≡ [] }
        ensures rest { result.rest.items ≡ [] }
    {
        NextFile {
            laid: 0,
            starts: Vec::new(alloc),
            rest: Vec::new(alloc),
        }
    }
}

/// None was begun, or something on it was refused since.
const NOT_BEGUN: DeviceFault = DeviceFault::Failed(SystemFault::NotFound);

/// Adds one.
pub(crate) fn push_one<T: Drop>(items: &mut Vec<T>, item: T) -> Result<(), DeviceFault>
    ensures ok { OnOk result (items.new.items ≡ items.old.items ++ item ∷ []) }
    ensures err { OnErr result (items.new.items ≡ items.old.items) }
{
    match items.push(item) {
        Ok(()) => Ok(()),
        Err(_refused) => Err(DeviceFault::Memory),
    }
}

/// Takes the first bytes away.
fn take_front(bytes: &mut Vec<u8>, count: usize)
    requires { count ≤ vec_len bytes.old }
    ensures { bytes.new.items ≡ drop count bytes.old.items }
{
    let left = bytes.len() - count;
    bytes.copy_within(count.., 0);
    bytes.truncate(left);
}

/// How many bytes there are without the zeros at their end.
pub(crate) fn without_zeros(bytes: &[u8]) -> usize
    ensures within { result ≤ length bytes.now }
    ensures zeros { drop result bytes.now ≡ replicate (length bytes.now - result) 0 }
{
    let mut size = bytes.len();
    'zeros: while size > 0 {
        let byte = bytes[size - 1];
        if byte != 0 {
            return size;
        }
        size -= 1;
    }
    0
}

impl<C: Cluster> ClusterFile<C> {
    /// The generation of the next file, if a number can count it.
    fn generation_beside(&self) -> Option<u64>
        ensures { IfSome result (λ generation. generation ≡ self.now.standing.head.generation + 1) }
    {
        self.standing.head.generation.checked_add(1)
    }

    /// The next file, which is held no more.
    fn take_next(&mut self) -> Option<NextFile>
        ensures taken { result ≡ self.old.next }
        ensures none { self.new ≡ record self.old { next = None } }
    {
        self.next.take()
    }

    /// A change of the next file alone.
    fn change_beside(&mut self, write: Write<'_>) -> Result<(), DeviceFault>
        requires well { IsWell C.Cluster self.old }
        requires working { self.old.lost ≡ None }
        requires none { self.old.next ≡ None }
        requires beside { LeavesCounted self.old.standing.head.generation (write_fact write) }
        ensures written { OnOk result (IsWrittenBeside C.Cluster self.old self.new (write_fact write.entry)) }
        ensures working { OnOk result (self.new.lost ≡ None) }
        ensures none { self.new.next ≡ None }
        ensures ends { OnOk result (self.old.has_begun ≡ true → EndsThere C.Cluster self.old → EndsThere C.Cluster self.new) }
        ensures seen { KeepsSeen C.Cluster self.old self.new }
        ensures lost { OnErr result (is_some self.new.lost ≡ true) }
        ensures failed { IfErr result IsFailure }
        ensures goes_on { GoesOn C.Cluster self.old self.new }
    {
        let head = self.next_head();
        self.change(head, &[write])
    }

    /// The next file is dropped.
    pub fn drop_beside(&mut self)
        ensures { self.new ≡ record self.old { next = None } }
    {
        self.next = None;
    }

    /// Begins the next file.
    pub fn begin_beside(&mut self) -> Result<(), DeviceFault>
        requires { IsWell C.Cluster self.old }
        ensures begun { OnOk result (next_of C.Cluster self.new ≡ Some []) }
        ensures ends { OnOk result (self.old.has_begun ≡ true → EndsThere C.Cluster self.old → EndsThere C.Cluster self.new) }
        ensures seen { KeepsSeen C.Cluster self.old self.new }
        ensures lost { OnErr result (is_some self.new.lost ≡ true) }
        ensures failed { IfErr result IsFailure }
        ensures goes_on { GoesOn C.Cluster self.old self.new }
        ensures working { OnOk result (self.new.lost ≡ None) }
    {
        if self.lost.is_some() {
            return Err(FAILED);
        }
        self.next = None;
        let Some(generation) = self.generation_beside() else {
            return Err(self.lose(SettleFault::Refused));
        };
        self.change_beside(Write::Clear(generation, 0, u64::MAX))?;
        self.next = Some(NextFile::new(self.alloc));
        Ok(())
    }

    /// Writes behind what was written to it.
    pub fn add_beside(&mut self, bytes: &[u8]) -> Result<(), DeviceFault>
        requires { IsWell C.Cluster self.old }
        ensures added { OnOk result (next_of C.Cluster self.new ≡ next_with C.Cluster self.old bytes.now) }
        ensures seen { KeepsSeen C.Cluster self.old self.new }
        ensures goes_on { GoesOn C.Cluster self.old self.new }
        ensures working { OnOk result (self.new.lost ≡ None) }
    {
        if self.lost.is_some() {
            return Err(FAILED);
        }
        let Some(mut next) = self.take_next() else {
            return Err(NOT_BEGUN);
        };
        next.rest.extend_from_slice(bytes)?;
        self.lay_full(next)
    }

    /// What was written to it is laid, piece by piece, as long as there is enough for a whole one.
    fn lay_full(&mut self, next: NextFile) -> Result<(), DeviceFault>
        requires well { IsWell C.Cluster self.old }
        requires working { self.old.lost ≡ None }
        requires none { self.old.next ≡ None }
        requires begun { IsBegun C.Cluster self.old.cluster next }
        ensures same { OnOk result (next_of C.Cluster self.new ≡ Some (written_beside C.Cluster self.old.cluster next)) }
        ensures seen { KeepsSeen C.Cluster self.old self.new }
        ensures goes_on { GoesOn C.Cluster self.old self.new }
        ensures working { OnOk result (self.new.lost ≡ None) }
    {
        let mut next = next;
        'pieces: while without_zeros(&next.rest) >= PIECE {
            self.lay_beside(&mut next, PIECE)?;
        }
        self.next = Some(next);
        Ok(())
    }

    /// All of it is in pieces, but for zeros at its end.
    pub fn sync_beside(&mut self) -> Result<(), DeviceFault>
        requires { IsWell C.Cluster self.old }
        ensures same { OnOk result (next_of C.Cluster self.new ≡ next_of C.Cluster self.old) }
        ensures zeros { OnOk result (IfSome self.new.next LeavesZeros) }
        ensures seen { KeepsSeen C.Cluster self.old self.new }
        ensures goes_on { GoesOn C.Cluster self.old self.new }
        ensures working { OnOk result (self.new.lost ≡ None) }
    {
        if self.lost.is_some() {
            return Err(FAILED);
        }
        let Some(next) = self.take_next() else {
            return Err(NOT_BEGUN);
        };
        let size = without_zeros(&next.rest);
        self.lay_whole(next, size)
    }

    /// So much of what was written to it is laid, piece by piece: but for zeros that is all.
    fn lay_whole(&mut self, next: NextFile, size: usize) -> Result<(), DeviceFault>
        requires well { IsWell C.Cluster self.old }
        requires working { self.old.lost ≡ None }
        requires none { self.old.next ≡ None }
        requires begun { IsBegun C.Cluster self.old.cluster next }
        requires within { size ≤ length next.rest.items }
        requires zeros { drop size next.rest.items ≡ replicate (length next.rest.items - size) 0 }
        ensures same { OnOk result (next_of C.Cluster self.new ≡ Some (written_beside C.Cluster self.old.cluster next)) }
        ensures zeros { OnOk result (IfSome self.new.next LeavesZeros) }
        ensures seen { KeepsSeen C.Cluster self.old self.new }
        ensures goes_on { GoesOn C.Cluster self.old self.new }
        ensures working { OnOk result (self.new.lost ≡ None) }
    {
        let mut next = next;
        let mut left = size;
        'pieces: while left > 0 {
            let part = left.min(PIECE);
            self.lay_beside(&mut next, part)?;
            left -= part;
        }
        self.next = Some(next);
        Ok(())
    }

    /// A piece more. No request has more bytes than one piece may.
    fn lay_beside(&mut self, next: &mut NextFile, size: usize) -> Result<(), DeviceFault>
        requires well { IsWell C.Cluster self.old }
        requires working { self.old.lost ≡ None }
        requires none { self.old.next ≡ None }
        requires begun { IsBegun C.Cluster self.old.cluster next.old }
        requires within { size ≤ length next.old.rest.items }
        requires few { size ≤ 2 ^ 17 }
        requires some { 0 < size }
        ensures begun { OnOk result (IsBegun C.Cluster self.new.cluster next.new) }
        ensures same { OnOk result (written_beside C.Cluster self.new.cluster next.new ≡ written_beside C.Cluster self.old.cluster next.old) }
        ensures rest { OnOk result (next.new.rest.items ≡ drop size next.old.rest.items) }
        ensures working { OnOk result (self.new.lost ≡ None) }
        ensures none { self.new.next ≡ None }
        ensures seen { KeepsSeen C.Cluster self.old self.new }
        ensures goes_on { GoesOn C.Cluster self.old self.new }
    {
        let Some(generation) = self.generation_beside() else {
            return Err(self.lose(SettleFault::Refused));
        };
        let place = next.laid;
        let Some(to) = place.checked_add(size as u64) else {
            return Err(self.lose(SettleFault::Refused));
        };
        push_one(&mut next.starts, place)?;
        let piece = &next.rest[..size];
        self.change_beside(Write::Lay(generation, place, piece))?;
        next.laid = to;
        take_front(&mut next.rest, size);
        Ok(())
    }

    /// It takes the place of the file, and what stood there before is let go of.
    pub fn place_beside(&mut self) -> Result<(), ReplaceFault>
        requires { IsWell C.Cluster self.old }
        ensures replaced { OnOk result (IfSome (next_of C.Cluster self.old) (λ bytes. seen_of C.Cluster self.new ≡ bytes)) }
        ensures durable { OnOk result (IfSome (next_of C.Cluster self.old) (λ bytes. Only bytes (leaves C.Cluster self.new))) }
        ensures compacted { OnOk result (HasCompacted C.Cluster self.new) }
        ensures crash { IfSome (next_of C.Cluster self.old) (λ bytes. LeavesByStep C.Cluster (Swapped bytes) self.old self.new) }
        ensures unplaced { IfErr result (λ fault. IsUnplaced fault → KeepsSeen C.Cluster self.old self.new) }
        ensures loses { IfErr result (λ fault. IsReplaceFailure fault → is_some self.new.lost ≡ true) }
        ensures goes_on { GoesOn C.Cluster self.old self.new }
    {
        if self.lost.is_some() {
            return Err(ReplaceFault::Failed(SystemFault::Other));
        }
        match self.sync_beside() {
            Ok(()) => self.place_held(),
            Err(fault) => Err(self.not_placed(fault)),
        }
    }

    /// The one that is held, once it is in pieces.
    fn place_held(&mut self) -> Result<(), ReplaceFault>
        requires well { IsWell C.Cluster self.old }
        requires working { self.old.lost ≡ None }
        requires zeros { IfSome self.old.next LeavesZeros }
        ensures replaced { OnOk result (IfSome (next_of C.Cluster self.old) (λ bytes. seen_of C.Cluster self.new ≡ bytes)) }
        ensures durable { OnOk result (IfSome (next_of C.Cluster self.old) (λ bytes. Only bytes (leaves C.Cluster self.new))) }
        ensures compacted { OnOk result (HasCompacted C.Cluster self.new) }
        ensures crash { IfSome (next_of C.Cluster self.old) (LeavesOrThis C.Cluster self.old self.new) }
        ensures unplaced { IfErr result (λ fault. IsUnplaced fault → KeepsSeen C.Cluster self.old self.new) }
        ensures loses { IfErr result (λ fault. IsReplaceFailure fault → is_some self.new.lost ≡ true) }
        ensures goes_on { GoesOn C.Cluster self.old self.new }
    {
        match self.take_next() {
            Some(next) => self.place_and_compact(next),
            None => Err(ReplaceFault::Unplaced(SystemFault::NotFound)),
        }
    }

    /// As which fault it is told that it was not made ready.
    fn not_placed(&self, fault: DeviceFault) -> ReplaceFault
        ensures { IsReplaceFailure result → is_some self.now.lost ≡ true }
    {
        match fault {
            DeviceFault::Memory => ReplaceFault::Memory,
            DeviceFault::Failed(reason) if self.lost.is_some() => ReplaceFault::Failed(reason),
            DeviceFault::Failed(reason) => ReplaceFault::Unplaced(reason),
        }
    }

    /// A file that is in pieces, but for zeros at its end, takes the place of this one.
    fn place(&mut self, next: NextFile) -> Result<(), ReplaceFault>
        requires well { IsWell C.Cluster self.old }
        requires working { self.old.lost ≡ None }
        requires none { self.old.next ≡ None }
        requires begun { IsBegun C.Cluster self.old.cluster next }
        requires zeros { LeavesZeros next }
        ensures replaced { OnOk result (seen_of C.Cluster self.new ≡ written_beside C.Cluster self.old.cluster next) }
        ensures durable { OnOk result (Only (written_beside C.Cluster self.old.cluster next) (leaves C.Cluster self.new)) }
        ensures working { OnOk result (self.new.lost ≡ None) }
        ensures begun { OnOk result (IsTrue self.new.has_begun) }
        ensures crash { LeavesOrThis C.Cluster self.old self.new (written_beside C.Cluster self.old.cluster next) }
        ensures loses { OnErr result (is_some self.new.lost ≡ true) }
        ensures failed { IfErr result IsReplaceFailure }
        ensures goes_on { GoesOn C.Cluster self.old self.new }
    {
        let Some(generation) = self.generation_beside() else {
            self.lost = Some(SettleFault::Refused);
            return Err(ReplaceFault::Failed(SystemFault::Other));
        };
        let old = self.standing.head.generation;
        let room = next.rest.len() as u64;
        let head = Head {
            generation,
            end: next.laid,
            room,
            ..self.next_head()
        };
        match self.change(head, &[Write::Clear(old, 0, u64::MAX)]) {
            Ok(()) => {
                self.hold_placed(next, room);
                Ok(())
            }
            Err(fault) => Err(ReplaceFault::from(fault)),
        }
    }

    /// A file that is in pieces, but for zeros at its end, takes the place of this one; and what stood there before is let go of.
    fn place_and_compact(&mut self, next: NextFile) -> Result<(), ReplaceFault>
        requires well { IsWell C.Cluster self.old }
        requires working { self.old.lost ≡ None }
        requires none { self.old.next ≡ None }
        requires begun { IsBegun C.Cluster self.old.cluster next }
        requires zeros { LeavesZeros next }
        ensures replaced { OnOk result (seen_of C.Cluster self.new ≡ written_beside C.Cluster self.old.cluster next) }
        ensures durable { OnOk result (Only (written_beside C.Cluster self.old.cluster next) (leaves C.Cluster self.new)) }
        ensures compacted { OnOk result (HasCompacted C.Cluster self.new) }
        ensures crash { LeavesOrThis C.Cluster self.old self.new (written_beside C.Cluster self.old.cluster next) }
        ensures loses { OnErr result (is_some self.new.lost ≡ true) }
        ensures failed { IfErr result IsReplaceFailure }
        ensures goes_on { GoesOn C.Cluster self.old self.new }
    {
        self.place(next)?;
        self.compact();
        Ok(())
    }

    /// It is the file now.
    fn hold_placed(&mut self, next: NextFile, room: u64)
        ensures same { self.new ≡ placed_file self.old self.new next.laid room }
        ensures starts { self.new.starts.items ≡ next.starts.items }
        ensures none { self.new.unsynced.items ≡ [] }
        ensures run { self.new.run.bytes.items ≡ [] }
    {
        self.starts = next.starts;
        self.known = next.laid;
        self.room = room;
        self.piece = None;
        self.unsynced.clear();
        self.run.end();
    }

    /// Puts another file in the place of this one: by the next file. Where that is not known to be done it is lost.
    pub fn put_other(&mut self, bytes: &[u8]) -> Result<(), DeviceFault>
        requires { IsWell C.Cluster self.old }
        ensures replaced { OnOk result (seen_of C.Cluster self.new ≡ bytes.now) }
        ensures durable { OnOk result (Only bytes.now (leaves C.Cluster self.new)) }
        ensures crash { LeavesByStep C.Cluster (Swapped bytes.now) self.old self.new }
        ensures failed { IfErr result IsFailure }
        ensures loses { OnErr result (is_some self.new.lost ≡ true) }
        ensures goes_on { GoesOn C.Cluster self.old self.new }
    {
        if self.lost.is_some() {
            return Err(FAILED);
        }
        match self.put_by_next(bytes) {
            Ok(()) => Ok(()),
            Err(_refused) => Err(self.lose_any()),
        }
    }

    /// Begins the next file, writes it, and puts it in the place of this one.
    fn put_by_next(&mut self, bytes: &[u8]) -> Result<(), ReplaceFault>
        requires well { IsWell C.Cluster self.old }
        requires working { self.old.lost ≡ None }
        ensures replaced { OnOk result (seen_of C.Cluster self.new ≡ bytes.now) }
        ensures durable { OnOk result (Only bytes.now (leaves C.Cluster self.new)) }
        ensures crash { LeavesByStep C.Cluster (Swapped bytes.now) self.old self.new }
        ensures goes_on { GoesOn C.Cluster self.old self.new }
    {
        self.begin_beside()?;
        self.add_beside(bytes)?;
        self.place_beside()
    }
}
