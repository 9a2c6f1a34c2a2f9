//! What is promised of a cluster in which a list stands.

ghost use Rattle.std.specs.Prelude.{◌≡◌, ◌<◌, ◌≤◌, ◌∷◌, ℕ, IfOk, List, Some, length};
ghost use Rattle.etcd_cluster.specs.Calls.{AreTrue, AskedHead, AskedPieces, Called, Compacted, Forgot, Kept, Sent, stand_by};
ghost use Rattle.etcd_cluster.specs.Worlds.{Begun, Follows, HeadFollows, IsLater, IsVersioned, Passes, PiecesFollow, Unanswered, World, forgotten, seen_pieces, sent_then, side, stand_seen, stand_then, stand_told};
ghost use Rattle.etcd_cluster.specs.Stands.{ChangeFact, Stand, change_fact};

use crate::change::{Answer, CallFault, Change, Piece, Standing, Wanted};
use std::alloc::Global;

/// A cluster in which a list stands, as one server sees it.
pub trait Cluster {
    /// The number of the server: no other has it.
    ghost server: { Self → ℕ };

    /// The moment, as a number that doesn't fall.
    ghost moment: { Self → ℕ };

    /// What was sent and asked, and what was told of it, the last first.
    ghost calls: { Self → List Called };

    /// The changes that were sent: each may be done yet.
    ghost sent: { Self → ChangeFact → Type 0 };

    /// What may be the case, by what was sent and told.
    ghost may_be: { Self → World → Type 0 };

    /// What may have been the case at some moment from that one on.
    ghost been_since: { Self → ℕ → World → Type 0 };

    /// What stands there, by what was sent and told: pieces that were not told of are not known.
    ghost stand: { Self → Stand };

    /// Sends a change once, and waits for what is told of it, until its time is over.
    fn send(&mut self, change: &Change<'_>) -> Result<Answer, CallFault>
        ensures called { calls self.new ≡ Sent (change_fact change.now) result ∷ calls self.old }
        ensures server { server self.new ≡ server self.old }
        ensures moment { moment self.old ≤ moment self.new }
        ensures sent { (one : ChangeFact) → sent self.new one →
            (sent_then (change_fact change.now) result (side (server self.old) (moment self.old) (sent self.old))).sent one }
        ensures follows { (w : World) → may_be self.new w →
            Follows (side (server self.old) (moment self.old) (sent self.old)) (change_fact change.now) result (may_be self.old) w }
        ensures later { IfOk result (IsLater (change_fact change.now)) }
        ensures stand { stand self.new ≡ stand_then (change_fact change.now) result (stand self.old) }
        ensures time { Passes (moment self.old) (been_since self.old) (been_since self.new) (may_be self.new) };

    /// Asks for the head: none, where no list stands there.
    fn head(&mut self) -> Result<Option<Standing>, CallFault>
        ensures called { calls self.new ≡ AskedHead result ∷ calls self.old }
        ensures server { server self.new ≡ server self.old }
        ensures moment { moment self.old ≤ moment self.new }
        ensures sent { (one : ChangeFact) → sent self.new one → sent self.old one }
        ensures follows { (w : World) → may_be self.new w →
            HeadFollows (side (server self.old) (moment self.old) (sent self.old)) result (may_be self.old) w }
        ensures some { IfOk result IsVersioned }
        ensures stand { stand self.new ≡ stand_told result (stand self.old) }
        ensures time { Passes (moment self.old) (been_since self.old) (been_since self.new) (may_be self.new) };

    /// Asks for pieces. None is told where the head is of another version.
    fn look(&mut self, alloc: Global, wanted: Wanted) -> Result<Option<Vec<Piece>>, CallFault>
        ensures called { calls self.new ≡ AskedPieces wanted (seen_pieces result) ∷ calls self.old }
        ensures server { server self.new ≡ server self.old }
        ensures moment { moment self.old ≤ moment self.new }
        ensures sent { (one : ChangeFact) → sent self.new one → sent self.old one }
        ensures follows { (w : World) → may_be self.new w →
            PiecesFollow (side (server self.old) (moment self.old) (sent self.old)) wanted (seen_pieces result) (may_be self.old) w }
        ensures stand { stand self.new ≡ stand_seen wanted (seen_pieces result) (stand self.old) }
        ensures time { Passes (moment self.old) (been_since self.old) (been_since self.new) (may_be self.new) };

    /// Waits a little before the same is sent again.
    fn pause(&mut self)
        ensures { self.new ≡ self.old };

    /// Keeps the lease of the server, by a steady clock in milliseconds. It says by when it wants to be called again, or that the lease
    /// is no more.
    fn keep(&mut self, now: u64) -> Result<u64, CallFault>
        ensures called { calls self.new ≡ Kept ∷ calls self.old }
        ensures server { server self.new ≡ server self.old }
        ensures moment { moment self.old ≤ moment self.new }
        ensures sent { (one : ChangeFact) → sent self.new one → sent self.old one }
        ensures follows { (w : World) → may_be self.new w →
            Unanswered (side (server self.old) (moment self.old) (sent self.old)) (may_be self.old) w }
        ensures stand { stand self.new ≡ stand self.old }
        ensures time { Passes (moment self.old) (been_since self.old) (been_since self.new) (may_be self.new) };

    /// What stood there before that version may be let go of: nothing of what stands there changes by that, nor where it is refused.
    fn compact(&mut self, version: u64)
        ensures called { calls self.new ≡ Compacted version ∷ calls self.old }
        ensures server { server self.new ≡ server self.old }
        ensures moment { moment self.old ≤ moment self.new }
        ensures sent { (one : ChangeFact) → sent self.new one → sent self.old one }
        ensures follows { (w : World) → may_be self.new w →
            Unanswered (side (server self.old) (moment self.old) (sent self.old)) (may_be self.old) w }
        ensures stand { stand self.new ≡ stand self.old }
        ensures time { Passes (moment self.old) (been_since self.old) (been_since self.new) (may_be self.new) };

    /// What was told of pieces is not known any more: it is to be read anew. Nothing is asked or sent.
    fn forget(&mut self)
        ensures called { calls self.new ≡ Forgot ∷ calls self.old }
        ensures server { server self.new ≡ server self.old }
        ensures moment { moment self.old ≤ moment self.new }
        ensures sent { (one : ChangeFact) → sent self.new one → sent self.old one }
        ensures follows { (w : World) → may_be self.new w → may_be self.old w }
        ensures stand { stand self.new ≡ forgotten (stand self.old) }
        ensures time { Passes (moment self.old) (been_since self.old) (been_since self.new) (may_be self.new) };

    /// This moment is one of those since an earlier one.
    ghost counts_now: { (cluster : Self) (t : ℕ) (w : World) → t ≤ moment cluster → may_be cluster w → been_since cluster t w };

    /// Who has begun by this moment has begun before.
    ghost earlier: { (cluster : Self) (w : World) (begun : Begun) → may_be cluster w → w.begun ≡ Some begun → begun.moment < moment cluster };

    /// A moment is a number of calls.
    ghost counts_calls: { (cluster : Self) → moment cluster ≡ length (calls cluster) };

    /// What was told of pieces is what was known of them, where anything may be the case.
    ghost true_calls: { (cluster : Self) (w : World) → may_be cluster w → AreTrue (calls cluster) };

    /// What stands there is what the calls tell.
    ghost by_calls: { (cluster : Self) → stand cluster ≡ stand_by (calls cluster) };

    /// Since this moment there is no other.
    ghost only_now: { (cluster : Self) (w : World) → been_since cluster (moment cluster) w → may_be cluster w };
}
