//! What is known of words for which a condition has an answer.

ghost use Rattle.std.specs.Prelude.{◌≡◌, ◌<◌, ◌^◌, ℕ, IsTrue, IfNone, IfSome, true};
ghost use Rattle.insn.specs.Word.{seen, word_holds};
ghost use Rattle.range.specs.Domain.{IsRefined};
ghost use Rattle.range.specs.Sets.{AreWithin};

use crate::bits::KnownBits;
use insn::operation::{Cond, Width};
use word::holds;

/// The bits of the upper half.
const UPPER_HALF: u64 = 0xffff_ffff_0000_0000;

impl KnownBits {
    ghost use Rattle.known_bits.specs.Members.{HasBits};
    ghost use Rattle.known_bits.specs.Moves.{IsWanted};
    ghost use Rattle.known_bits.specs.Refined.{HasPartner, IsOneBit, IsDecided, IsTight, IsUnanswered};

    /// The words of which a width sees the same as of one of these.
    #[tactic(auto, using(crate::proofs::Refining::alike_apart))]
    pub fn seen_alike(self, width: Width) -> KnownBits
        ensures alike { (x y : ℕ) → y < 2 ^ 64 → HasBits self x → seen width x ≡ seen width y → HasBits result y }
        ensures partner { (y : ℕ) → HasBits result y → HasPartner width self y }
    {
        match width {
            Width::W32 => {
                let low = self.in_width(Width::W32);
                KnownBits::new(low.value, low.mask | UPPER_HALF)
            }
            Width::W64 => self,
        }
    }

    /// What two words can be of which a width sees the same; `None` where they cannot.
    pub(crate) fn equal(width: Width, a: KnownBits, b: KnownBits) -> Option<(KnownBits, KnownBits)>
        ensures kept { IsRefined HasBits Cond.Eq width true a b result }
        ensures within { AreWithin HasBits a b result }
        ensures tight { IfSome result (IsTight width a b) }
    {
        let left = KnownBits::meet(a, b.seen_alike(width))?;
        let right = KnownBits::meet(b, a.seen_alike(width))?;
        Some((left, right))
    }

    /// The bits of this word, where it is known, of which a test of a bit in common asks: none, or the only one.
    fn wanted(self, taken: bool) -> Option<u64>
        ensures told { IfSome result (IsWanted self taken) }
        ensures none { IfNone result ((k : ℕ) → self.mask ≡ 0 → self.value ≡ 2 ^ k → ⊥) }
    {
        if taken {
            match self.exponent() {
                Some(_) => Some(self.value),
                None => None,
            }
        } else if self.mask == 0 {
            Some(0)
        } else {
            None
        }
    }

    /// What two words can be with a common bit that a width sees, or with none, where the right word is known, and has for
    /// the one no bit but one.
    pub(crate) fn tested(
        width: Width,
        a: KnownBits,
        b: KnownBits,
        taken: bool,
    ) -> Option<(KnownBits, KnownBits)>
        ensures kept { IsRefined HasBits Cond.Set width taken a b result }
        ensures within { AreWithin HasBits a b result }
        ensures settled { (k : ℕ) → IsOneBit width b k → IfSome result (IsDecided Cond.Set width taken b) }
    {
        let tests = b.in_width(width);
        match tests.wanted(taken) {
            Some(wanted) => match KnownBits::meet(a, KnownBits::new(wanted, !tests.value)) {
                Some(left) => Some((left, b)),
                None => None,
            },
            None => Some((a, b)),
        }
    }

    /// Whether a condition cannot have an answer, as far as a width sees single words.
    pub(crate) fn excludes(
        cond: Cond,
        width: Width,
        a: KnownBits,
        b: KnownBits,
        taken: bool,
    ) -> bool
        ensures sound { IsTrue result → (x y : ℕ) → HasBits a x → HasBits b y → word_holds width cond x y ≡ taken → ⊥ }
        ensures single { (x y : ℕ) → IsUnanswered cond width taken a b x y → IsTrue result }
    {
        let left = a.in_width(width);
        let right = b.in_width(width);
        left.mask | right.mask == 0 && holds(width, cond, left.value, right.value) != taken
    }
}
