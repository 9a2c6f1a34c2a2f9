//! A list in etcd: what is asked of it is noted, and nothing else is. Nobody else has its log.

ghost use Rattle.std.specs.Prelude.{◌≡◌, ◌∷◌, IfOk, Result, Option};
ghost use Rattle.std.specs.Global.{Vec};
ghost use Rattle.etcd_cluster.specs.declared.change.Answer.{Answer};
ghost use Rattle.etcd_cluster.specs.declared.change.Piece.{Piece};
ghost use Rattle.etcd_cluster.specs.declared.change.Standing.{Standing};
ghost use Rattle.etcd_client.specs.declared.members.AskFault.{AskFault};
ghost use Rattle.etcd_json.specs.declared.reply.Header.{Header};
ghost use Rattle.etcd_cluster.specs.Calls.{AskedHead, AskedPieces, Compacted, Forgot, Kept, Sent};
ghost use Rattle.etcd_cluster.specs.Stands.{change_fact};
ghost use Rattle.etcd_cluster.specs.Worlds.{IsLater, IsVersioned, seen_pieces};
ghost use Rattle.etcd_client.specs.Exchanges.{KeepsLease, MayAsk, MayKeep, answer_by, change_question, compaction_question, due_at, fault_by, head_by, head_question, keepalive_question, kept_by, pieces_by, pieces_question, third};
ghost use Rattle.etcd_client.specs.Noted.{no_log};

use crate::asked::{change_request, pieces_request};
use crate::call_log::CallLog;
use crate::leading::{Led, transact};
use crate::members::{AskFault, Members};
use crate::past::head_there;
use crate::told::{change_told, pieces_told};
use etcd_cluster::change::{Answer, CallFault, Change, Piece, Standing, Wanted};
use etcd_json::{Header, compaction_request, keepalive_reply, lease_request, revision_reply};
use etcd_keys::Names;
use std::alloc::Global;

/// So long is waited before the same is sent again, in milliseconds.
const PAUSE: u64 = 50;

/// A list in etcd, as the server sees it that leads by this.
#[derive(Drop)]
pub struct EtcdCluster<M: Members> {
    alloc: Global,
    members: M,
    names: Names,
    led: Led,
    /// When its lease began last, by a clock that never goes back.
    kept: u64,
    log: CallLog,
}

/// What is told of a request.
fn fault_of(fault: AskFault) -> CallFault
    ensures { result ≡ fault_by fault }
{
    match fault {
        AskFault::Unclear | AskFault::Memory => CallFault::Unclear,
        AskFault::Refused(_) => CallFault::Refused,
    }
}

/// What is told of a change: it is done only at a later version than the one that it names.
fn answer_of(change: &Change<'_>, told: Result<Answer, AskFault>) -> Result<Answer, CallFault>
    ensures by { result ≡ answer_by (change_fact change.now) told }
    ensures later { IfOk result (IsLater (change_fact change.now)) }
{
    match told {
        Ok(Answer::Done(version)) => {
            if version <= change.after {
                Err(CallFault::Unclear)
            } else {
                Ok(Answer::Done(version))
            }
        }
        Ok(Answer::NotDone(found)) => Ok(Answer::NotDone(found)),
        Err(fault) => Err(fault_of(fault)),
    }
}

/// What is told of the head: one that is there has a version.
fn head_of(told: Result<Option<Standing>, AskFault>) -> Result<Option<Standing>, CallFault>
    ensures by { result ≡ head_by told }
    ensures some { IfOk result IsVersioned }
{
    match told {
        Ok(None) => Ok(None),
        Ok(Some(found)) => {
            if found.version == 0 {
                Err(CallFault::Unclear)
            } else {
                Ok(Some(found))
            }
        }
        Err(fault) => Err(fault_of(fault)),
    }
}

/// What is told of pieces.
fn pieces_of(told: Result<Option<Vec<Piece>>, AskFault>) -> Result<Option<Vec<Piece>>, CallFault>
    ensures { result ≡ pieces_by told }
{
    match told {
        Ok(found) => Ok(found),
        Err(fault) => Err(fault_of(fault)),
    }
}

/// So many milliseconds pass between two beginnings of a lease of so many seconds.
fn third(seconds: u64) -> u64
    ensures { result ≡ third seconds }
{
    seconds.saturating_mul(1000) / 3
}

/// When a lease that began then is to begin anew.
fn due_at(led: &Led, kept: u64) -> u64
    ensures { result ≡ due_at led.now kept }
{
    kept.saturating_add(third(led.seconds))
}

/// By when a lease is to be kept again, by what was told of it: or it is no more.
fn kept_of(led: &Led, now: u64, told: Result<u64, AskFault>) -> Result<u64, CallFault>
    ensures { result ≡ kept_by led.now now told }
{
    match told {
        Ok(seconds) => {
            if seconds == 0 {
                Err(CallFault::Refused)
            } else {
                Ok(due_at(led, now))
            }
        }
        Err(AskFault::Refused(_)) => Err(CallFault::Refused),
        Err(AskFault::Unclear | AskFault::Memory) => {
            Ok(now.saturating_add(third(led.seconds) / 4))
        }
    }
}

impl<M: Members> EtcdCluster<M> {
    /// A list of which nothing was asked.
    pub fn new(alloc: Global, members: M, names: Names, led: Led) -> EtcdCluster<M>
        ensures led { result.led ≡ led }
        ensures names { result.names ≡ names }
        ensures members { result.members ≡ members }
        ensures unused { result.log.log ≡ no_log }
    {
        let kept = members.now().unwrap_or(0);
        EtcdCluster {
            alloc,
            members,
            names,
            led,
            kept,
            log: CallLog::new(),
        }
    }

    /// Sends a change once.
    fn change(&mut self, change: &Change<'_>) -> Result<Answer, AskFault>
        ensures asked { MayAsk (change_question self.old.names.prefix.items self.old.led (change_fact change.now)) result
            (M.exchanges self.old.members) (M.exchanges self.new.members) }
        ensures led { self.new.led ≡ self.old.led }
        ensures log { self.new.log ≡ self.old.log }
        ensures names { self.new.names ≡ self.old.names }
    {
        let (server, cluster) = (self.led.server, self.led.cluster);
        let text = change_request(self.alloc, &self.names, server, cluster, change)?;
        let reply = transact(self.alloc, &mut self.members, Some(cluster), &text)?;
        Ok(change_told(&self.names, &reply)?)
    }

    /// Asks for the head once.
    fn ask_head(&mut self) -> Result<Option<Standing>, AskFault>
        ensures asked { MayAsk (head_question self.old.names.prefix.items self.old.led.cluster) result
            (M.exchanges self.old.members) (M.exchanges self.new.members) }
        ensures led { self.new.led ≡ self.old.led }
        ensures log { self.new.log ≡ self.old.log }
        ensures names { self.new.names ≡ self.old.names }
    {
        let cluster = self.led.cluster;
        head_there(self.alloc, &mut self.members, &self.names, cluster)
    }

    /// Asks for pieces once.
    fn ask_pieces(&mut self, wanted: Wanted) -> Result<Option<Vec<Piece>>, AskFault>
        ensures asked { MayAsk (pieces_question self.old.names.prefix.items self.old.led wanted) result
            (M.exchanges self.old.members) (M.exchanges self.new.members) }
        ensures led { self.new.led ≡ self.old.led }
        ensures log { self.new.log ≡ self.old.log }
        ensures names { self.new.names ≡ self.old.names }
    {
        let cluster = self.led.cluster;
        let text = pieces_request(self.alloc, &self.names, wanted)?;
        let reply = transact(self.alloc, &mut self.members, Some(cluster), &text)?;
        Ok(pieces_told(self.alloc, &self.names, wanted.generation, &reply)?)
    }

    /// Lets the lease begin anew, once: for so many seconds, where it is a lease still.
    fn renew(&mut self) -> Result<u64, AskFault>
        ensures asked { MayAsk (keepalive_question self.old.led.lease) result (M.exchanges self.old.members) (M.exchanges self.new.members) }
        ensures led { self.new.led ≡ self.old.led }
        ensures log { self.new.log ≡ self.old.log }
        ensures names { self.new.names ≡ self.old.names }
    {
        let body = lease_request(self.alloc, self.led.lease)?;
        let text = self.members.ask("/v3/lease/keepalive", &body)?;
        Ok(keepalive_reply(self.alloc, &text)?)
    }

    /// Asks that what keys had before that version be let go of, once.
    fn ask_compaction(&mut self, version: u64) -> Result<Header, AskFault>
        ensures asked { MayAsk (compaction_question version) result (M.exchanges self.old.members) (M.exchanges self.new.members) }
        ensures led { self.new.led ≡ self.old.led }
        ensures log { self.new.log ≡ self.old.log }
        ensures names { self.new.names ≡ self.old.names }
    {
        let body = compaction_request(self.alloc, version)?;
        let text = self.members.ask("/v3/kv/compaction", &body)?;
        Ok(revision_reply(self.alloc, &text)?)
    }

    /// Asks that, and notes it, whatever is told.
    pub(crate) fn compact_noted(&mut self, version: u64)
        ensures noted { self.new.log.log.calls ≡ Compacted version ∷ self.old.log.log.calls }
        ensures asked { (told : Result Header AskFault)
            × MayAsk (compaction_question version) told (M.exchanges self.old.members) (M.exchanges self.new.members) }
        ensures led { self.new.led ≡ self.old.led }
        ensures names { self.new.names ≡ self.old.names }
    {
        let _told = self.ask_compaction(version);
        self.log.compacted(version);
    }

    /// Lets the lease begin anew where it is time, by the clock: a long list is read for longer than a lease lasts. Where that is
    /// refused, the first change of the server is, too.
    pub(crate) fn keep_while_reading(&mut self)
        ensures kept { MayKeep self.old.led.lease (M.exchanges self.old.members) (M.exchanges self.new.members) }
        ensures led { self.new.led ≡ self.old.led }
        ensures log { self.new.log ≡ self.old.log }
        ensures names { self.new.names ≡ self.old.names }
    {
        let Some(now) = self.members.now() else {
            return;
        };
        if now < due_at(&self.led, self.kept) {
            return;
        }
        let told = self.renew();
        self.note_kept(now, told);
    }

    /// Sends a change once, and notes what is told of it.
    pub(crate) fn send_noted(&mut self, change: &Change<'_>) -> Result<Answer, CallFault>
        ensures noted { self.new.log.log.calls ≡ Sent (change_fact change.now) result ∷ self.old.log.log.calls }
        ensures asked { (told : Result Answer AskFault) × (result ≡ answer_by (change_fact change.now) told)
            × MayAsk (change_question self.old.names.prefix.items self.old.led (change_fact change.now)) told
            (M.exchanges self.old.members) (M.exchanges self.new.members) }
        ensures later { IfOk result (IsLater (change_fact change.now)) }
        ensures led { self.new.led ≡ self.old.led }
        ensures names { self.new.names ≡ self.old.names }
    {
        let told = self.change(change);
        let answer = answer_of(change, told);
        self.log.sent(change, answer);
        answer
    }

    /// Asks for the head once, and notes what is told.
    pub(crate) fn head_noted(&mut self) -> Result<Option<Standing>, CallFault>
        ensures noted { self.new.log.log.calls ≡ AskedHead result ∷ self.old.log.log.calls }
        ensures asked { (told : Result (Option Standing) AskFault) × (result ≡ head_by told)
            × MayAsk (head_question self.old.names.prefix.items self.old.led.cluster) told
            (M.exchanges self.old.members) (M.exchanges self.new.members) }
        ensures some { IfOk result IsVersioned }
        ensures led { self.new.led ≡ self.old.led }
        ensures names { self.new.names ≡ self.old.names }
    {
        let told = self.ask_head();
        let found = head_of(told);
        self.log.asked_head(found);
        found
    }

    /// Lets the lease begin anew where it is time, and notes that.
    pub(crate) fn keep_noted(&mut self, now: u64) -> Result<u64, CallFault>
        ensures noted { self.new.log.log.calls ≡ Kept ∷ self.old.log.log.calls }
        ensures kept { KeepsLease self.old.led self.old.kept now result (M.exchanges self.old.members) (M.exchanges self.new.members) }
        ensures led { self.new.led ≡ self.old.led }
        ensures names { self.new.names ≡ self.old.names }
    {
        self.log.kept();
        let due = due_at(&self.led, self.kept);
        if now < due {
            return Ok(due);
        }
        let told = self.renew();
        let kept = kept_of(&self.led, now, told);
        self.note_kept(now, told);
        kept
    }

    /// The lease began anew, where that was told.
    fn note_kept(&mut self, now: u64, told: Result<u64, AskFault>)
        ensures { self.new ≡ record self.old { kept = self.new.kept } }
    {
        if let Ok(seconds) = told {
            if seconds > 0 {
                self.kept = now;
            }
        }
    }

    /// Asks for pieces once, and notes what is told.
    pub(crate) fn pieces_noted(&mut self, wanted: Wanted) -> Result<Option<Vec<Piece>>, CallFault>
        ensures noted { self.new.log.log.calls ≡ AskedPieces wanted (seen_pieces result) ∷ self.old.log.log.calls }
        ensures asked { (told : Result (Option (Vec Piece)) AskFault) × (result ≡ pieces_by told)
            × MayAsk (pieces_question self.old.names.prefix.items self.old.led wanted) told
            (M.exchanges self.old.members) (M.exchanges self.new.members) }
        ensures led { self.new.led ≡ self.old.led }
        ensures names { self.new.names ≡ self.old.names }
    {
        let told = self.ask_pieces(wanted);
        let found = pieces_of(told);
        self.log.asked_pieces(wanted, &found);
        found
    }

    /// Notes that what was told of pieces is not known any more: nothing is asked.
    pub(crate) fn forget_noted(&mut self)
        ensures noted { self.new.log.log.calls ≡ Forgot ∷ self.old.log.log.calls }
        ensures same { self.new ≡ record self.old { log = self.new.log } }
    {
        self.log.forgot();
    }

    /// Waits a little.
    pub(crate) fn wait(&mut self)
        ensures { self.new ≡ self.old }
    {
        self.members.pause(PAUSE);
    }
}
