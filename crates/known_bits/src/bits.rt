//! Words with bits that are known and bits that are not.

ghost use Rattle.std.specs.Prelude.{◌≡◌, ◌<◌, ◌^◌, ℕ, true};
ghost use Rattle.std.specs.Int.{bit_at};
ghost use Rattle.std.specs.Int.RustNames.{bit_and, bit_or};
ghost use mir.Val.{bits};
ghost use Rattle.insn.specs.Word.{int_width, seen};
ghost use Rattle.range.specs.Sets.{IsMeet, IsWithin};

use insn::operation::Width;
use range::domain::Domain;

/// The number of words that a low half has.
const LOW_HALF: u64 = 0x1_0000_0000;

/// The words that have some bits as a value has them; of the bits of a mask nothing is known.
#[derive(Clone, Copy, Debug, PartialEq, Eq)]
pub struct KnownBits {
    pub(crate) value: u64,
    pub(crate) mask: u64,
    ghost fits: { value < 2 ^ 64 },
    ghost mask_fits: { mask < 2 ^ 64 },
    ghost apart: { bit_and value mask ≡ 0 },
}

impl KnownBits {
    ghost use Rattle.known_bits.specs.Members.{HasBits};

    /// The words that have the bits of `value` outside `mask`; `value` itself has none of the unknown bits.
    pub fn new(value: u64, mask: u64) -> KnownBits
        requires { bit_and value mask ≡ 0 }
        ensures value { result.value ≡ value }
        ensures mask { result.mask ≡ mask }
    {
        KnownBits { value, mask }
    }

    /// The bits that are known to be 1.
    pub fn value(self) -> u64
        ensures { result ≡ self.value }
    {
        self.value
    }

    /// The bits that are not known.
    pub fn mask(self) -> u64
        ensures { result ≡ self.mask }
    {
        self.mask
    }

    /// The words that have the bits of a word outside a mask.
    pub(crate) fn outside(n: u64, mask: u64) -> KnownBits
        ensures mask { result.mask ≡ mask }
        ensures value { (k : ℕ) → bit_at result.mask k ≡ 0 → bit_at result.value k ≡ bit_at n k }
    {
        KnownBits::new(n & !mask, mask)
    }

    /// The greatest word.
    pub(crate) fn greatest(self) -> u64
        ensures { result ≡ bit_or self.value self.mask }
    {
        self.value | self.mask
    }

    /// What a width sees of the words: their low halves, or all of them.
    pub(crate) fn in_width(self, width: Width) -> KnownBits
        ensures value { result.value ≡ seen width self.value }
        ensures mask { result.mask ≡ seen width self.mask }
    {
        match width {
            Width::W32 => KnownBits::new(self.value % LOW_HALF, self.mask % LOW_HALF),
            Width::W64 => self,
        }
    }

    /// Every word of a width.
    pub(crate) fn all_of(width: Width) -> KnownBits
        ensures { (x : ℕ) → x < 2 ^ bits (int_width width) → HasBits result x }
    {
        KnownBits::any().in_width(width)
    }

    /// The words that are in both; `None` where there is none.
    #[tactic(auto, using(crate::proofs::Agreeing::meet_apart))]
    pub fn meet(a: KnownBits, b: KnownBits) -> Option<KnownBits>
        ensures { IsMeet HasBits a b result }
    {
        let differs = (a.value ^ b.value) & !(a.mask | b.mask);
        if differs == 0 {
            Some(KnownBits::new(a.value | b.value, a.mask & b.mask))
        } else {
            None
        }
    }

    /// Whether each word of another value is in this one: it knows no bit that the other does not know, or has otherwise.
    pub fn covers(self, other: KnownBits) -> bool
        ensures members { result ≡ true → IsWithin HasBits other self }
        ensures itself { other ≡ self → result ≡ true }
    {
        other.mask & !self.mask == 0 && other.value & !self.mask == self.value
    }
}
