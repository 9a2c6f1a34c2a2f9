//! What files of batches promise beside what each call does. The functions here do nothing: read their contracts.

ghost use Rattle.std.specs.Prelude.{◌≡◌, ◌⊎◌, ◌+◌, ◌≤◌, ◌++◌, [], ◌∷◌, List, ℕ, length, take, drop};
ghost use Rattle.batch_file.specs.declared.framing.ReadFault.{ReadFault};
ghost use Rattle.batch_file.specs.Coincidences.{AreSameBeside, IsCoincidence};
ghost use Rattle.batch_file.specs.Frames.{recovered, IsAtRest, IsFileOf, IsFrame, IsReadable, IsRightFront, RefusesFile, Spells};
ghost use Rattle.batch_file.specs.FramesLaws.{Collision};

/// A file that is readable is never refused, so none is that a crash leaves.
#[tactic(auto, using(crate::specs::FramesLaws::readable_is_kept))]
pub fn readable_is_kept()
    ensures { (file : List ℕ) (fault : ReadFault) → IsReadable file → RefusesFile file fault → ⊥ }
{}

/// Bytes are a file of no batches but those that they stand for.
pub fn stands_for_one()
    ensures { (batches : List (List ℕ)) (file : List ℕ) → IsFileOf batches file → recovered file ≡ batches }
{}

/// The batches before the last one of a file are those of some file.
#[tactic(auto, using(crate::specs::FramesLaws::front_file))]
pub fn front_file()
    ensures { (file batch : List ℕ) (xs : List (List ℕ)) → recovered file ≡ xs ++ batch ∷ [] → (front : List ℕ) × (recovered front ≡ xs) }
{}

/// A file has one right front.
pub fn one_front()
    ensures { (xs ys : List (List ℕ)) (file : List ℕ) → IsRightFront xs file → IsRightFront ys file → xs ≡ ys }
{}

/// Two frames behind the same bytes, in which the same digest stands, are of the same batch, or two inputs of SHA-256 are known
/// whose digests begin with the same 16 bytes. So a change of a length or a batch is refused but for these; a change of a
/// digest is refused, since the batch is the same.
pub fn digest_vouches()
    ensures { (before batch other rest more bytes changed : List ℕ) → IsFrame before batch rest bytes → IsFrame before other more changed
        → take 16 (drop 5 bytes) ≡ take 16 (drop 5 changed) → (batch ≡ other) ⊎ Collision }
{}

/// Two files that are read as the same number of batches, and have one last digest, are read as the same batches, or two inputs
/// of SHA-256 are known whose digests begin with the same 16 bytes.
pub fn last_digest_vouches()
    ensures { (xs ys : List (List ℕ)) (last file other : List ℕ) → Spells xs last file → Spells ys last other → length xs ≡ length ys → (xs ≡ ys) ⊎ Collision }
{}

/// What else it would take than the premise on chance allows. An append that a crash cuts short leaves the batches from before it, or
/// the new one with them; or behind them stand 16 bytes that are the digest of another batch, which nobody wrote, and are not those
/// that were written; or two inputs of SHA-256 are known whose digests begin with the same 16 bytes.
pub fn chance_is_coincidence()
    ensures { (end room : ℕ) (last old batch left : List ℕ) → IsAtRest end room last old → 21 + length batch ≤ room
        → AreSameBeside end (21 + length batch) old left
        → (recovered left ≡ recovered old) ⊎ (recovered left ≡ recovered old ++ batch ∷ [])
        ⊎ IsCoincidence last batch (take 16 (drop (end + 5) left)) }
{}
