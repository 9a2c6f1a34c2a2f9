//! What the form of a list promises beside what each call does. The functions here do nothing: read their contracts.

ghost use Rattle.std.specs.Prelude.{◌≡◌, ◌≢◌, ◌<◌, ◌^◌, List, ℕ, None, Some};
ghost use Rattle.etcd_cluster.specs.declared.change.Head.{Head};
ghost use Rattle.etcd_cluster.specs.declared.change.Standing.{Standing};
ghost use Rattle.etcd_cluster.specs.declared.change.Wanted.{Wanted};
ghost use Rattle.etcd_cluster.specs.Stands.{ChangeFact, PieceFact, Stand, done_at};
ghost use Rattle.etcd_cluster.specs.Worlds.{AreThere};
ghost use Rattle.etcd_json.specs.Replies.{EntryFact};
ghost use Rattle.etcd_client.specs.Asked.{change_asked, change_operations, head_asked, lead_asked, leader_asked, past_asked, pieces_asked};
ghost use Rattle.etcd_client.specs.Effects.{AreReadAs, AreWritesOfWords, Held, Holds, HoldsPieces, IsOfQuorum, IsReadAs, effects};
ghost use Rattle.etcd_client.specs.Past.{StoodThere};
ghost use Rattle.etcd_keys.specs.Keys.{IsOfWords, before_key, head_bytes, head_told, piece_key, place_told};

/// A piece is read of its key as of the place at which it was put.
pub fn pieces_are_found_again()
    ensures { (prefix : List ℕ) (generation at : ℕ) → at < 2 ^ 64
        → place_told (before_key prefix generation) (piece_key prefix generation at) ≡ Some at }
{}

/// No two pieces have one key.
pub fn pieces_are_apart()
    ensures { (prefix : List ℕ) (generation other at place : ℕ) → generation < 2 ^ 64 → other < 2 ^ 64 → at < 2 ^ 64 → place < 2 ^ 64
        → piece_key prefix generation at ≡ piece_key prefix other place → (generation ≡ other) × (at ≡ place) }
{}

/// A head is read as it was put, in the cluster in which it was.
pub fn heads_are_read_again()
    ensures { (cluster : ℕ) (head : Head) → cluster < 2 ^ 64 → IsOfWords head → head_told cluster (head_bytes cluster head) ≡ Some head }
{}

/// In another cluster it is none.
pub fn no_head_is_of_another_cluster()
    ensures { (cluster known : ℕ) (head : Head) → cluster < 2 ^ 64 → cluster ≢ known → head_told known (head_bytes cluster head) ≡ None }
{}

/// A transaction that is done makes of the list what its change says: where its keys hold the pieces, they hold those that the change
/// leaves from then on, and its head. That is of etcd as it documents puts, deletions and the order of keys.
pub fn changes_do_what_they_say()
    ensures { (prefix : List ℕ) (cluster version : ℕ) (change : ChangeFact) (held : Held) (stand : Stand)
        → AreWritesOfWords change.writes → HoldsPieces prefix held stand.pieces
        → Holds prefix cluster (effects (change_operations prefix cluster change) held) (done_at version change stand) }
{}

/// Pieces that are read of entries stand there, where each entry is what stands under its key.
pub fn pieces_that_are_read_stand_there()
    ensures { (prefix : List ℕ) (generation : ℕ) (entries : List EntryFact) (pieces : List PieceFact) (held : Held) (stand : Stand)
        → generation < 2 ^ 64 → AreReadAs prefix generation held entries pieces → HoldsPieces prefix held stand.pieces
        → AreThere generation pieces stand }
{}

/// So do those that were told of a version, by all that was told of it.
pub fn pieces_that_were_told_stood_there()
    ensures { StoodThere }
{}

/// A head that is read of what stands under its key is the one that stands there, and was put in that cluster.
pub fn heads_that_are_read_stand_there()
    ensures { (prefix : List ℕ) (known cluster : ℕ) (entries : List EntryFact) (held : Held) (stand : Stand) (standing : Standing)
        → cluster < 2 ^ 64 → IsOfWords stand.head → IsReadAs prefix known held entries standing → Holds prefix cluster held stand
        → (known ≡ cluster) × (standing.head ≡ stand.head) }
{}

/// Each transaction is answered by a quorum.
pub fn transactions_are_of_a_quorum()
    ensures changes { (prefix : List ℕ) (server cluster : ℕ) (change : ChangeFact) → IsOfQuorum (change_asked prefix server cluster change) }
    ensures heads { (prefix : List ℕ) → IsOfQuorum (head_asked prefix) }
    ensures pieces { (prefix : List ℕ) (wanted : Wanted) → IsOfQuorum (pieces_asked prefix wanted) }
    ensures past { (prefix : List ℕ) (wanted : Wanted) → IsOfQuorum (past_asked prefix wanted) }
    ensures leaders { (prefix : List ℕ) → IsOfQuorum (leader_asked prefix) }
    ensures leads { (prefix : List ℕ) (lease : ℕ) → IsOfQuorum (lead_asked prefix lease) }
{}
