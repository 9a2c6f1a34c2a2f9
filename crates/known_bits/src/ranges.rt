//! What known bits and a range of words say of each other.

ghost use Rattle.std.specs.Prelude.{◌≡◌, ℕ};
ghost use Rattle.std.specs.Int.RustNames.{bit_or, bit_xor};
ghost use Rattle.range.specs.Unsigned.{InRange};
ghost use Rattle.range.specs.Widths.{IsFilled};

use crate::bits::KnownBits;
use range::unsigned::URange;
use range::width::filled;

impl KnownBits {
    ghost use Rattle.known_bits.specs.Members.{HasBits};

    /// The bits that all words of a range share: those above the highest bit in which its ends differ.
    pub fn shared(words: URange) -> KnownBits
        ensures members { (x : ℕ) → InRange words x → HasBits result x }
        ensures unknown { IsFilled (bit_xor words.least words.greatest) result.mask }
    {
        let least = words.least();
        KnownBits::outside(least, filled(least ^ words.greatest()))
    }

    /// From the word whose unknown bits are 0 to the one whose unknown bits are 1.
    #[tactic(auto, using(std::proofs::lemmas::Nat::le_or_l))]
    pub fn range(self) -> URange
        ensures members { (x : ℕ) → HasBits self x → InRange result x }
        ensures least { result.least ≡ self.value }
        ensures greatest { result.greatest ≡ bit_or self.value self.mask }
    {
        URange::new(self.value, self.greatest())
    }
}
