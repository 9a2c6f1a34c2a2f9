//! Sums, differences and operations on bits, of whole words.

ghost use Rattle.std.specs.Prelude.{◌≡◌, ◌<◌, ◌^◌, ◌*◌, ◌%◌, ◌↔◌, ℕ, IfNone, IfSome, true};
ghost use Rattle.std.specs.Int.{bit_at, w64, bit_not};
ghost use Rattle.std.specs.Int.RustNames.{bit_and};
ghost use Rattle.range.specs.Domain.{IsSoundResult};
ghost use Rattle.known_bits.specs.Exact.{carry};

use crate::bits::KnownBits;
use insn::operation::{BinOp, Width};
use range::domain::Domain;

/// The carries into the bits of a sum.
#[tactic(auto, using(crate::proofs::Witnesses::carries_at))]
fn carries(x: u64, y: u64) -> u64
    ensures { (k : ℕ) → k < 64 → bit_at result k ≡ carry k x y }
{
    x.wrapping_add(y) ^ x ^ y
}

impl KnownBits {
    ghost use Rattle.known_bits.specs.Members.{HasBits, Agrees};
    ghost use Rattle.known_bits.specs.Exact.{IsExact, HasExactBits};
    ghost use Rattle.range.specs.Half.{is_told};

    /// The sums of two words.
    pub(crate) fn sum(a: KnownBits, b: KnownBits) -> KnownBits
        ensures sound { IsSoundResult HasBits BinOp.Add Width.W64 a b result }
        ensures exact { IsExact BinOp.Add Width.W64 a b result }
    {
        let least = carries(a.value, b.value);
        let greatest = carries(a.greatest(), b.greatest());
        let mask = a.mask | b.mask | (least ^ greatest);
        KnownBits::outside(a.value.wrapping_add(b.value), mask)
    }

    /// The words whose complements are in it.
    #[tactic(auto, using(crate::proofs::Witnesses::complement_apart))]
    fn complement(self) -> KnownBits
        ensures has { (x : ℕ) → x < 2 ^ 64 → HasBits result x ↔ HasBits self (bit_not w64 x) }
        ensures mask { result.mask ≡ self.mask }
    {
        KnownBits::new(!self.greatest(), self.mask)
    }

    /// The differences of two words: the complement of a difference is the sum of the complement and the other word.
    pub(crate) fn difference(a: KnownBits, b: KnownBits) -> KnownBits
        ensures sound { IsSoundResult HasBits BinOp.Sub Width.W64 a b result }
        ensures exact { IsExact BinOp.Sub Width.W64 a b result }
    {
        KnownBits::sum(a.complement(), b).complement()
    }

    /// The words that have the bits of a least one, and none but those of a greatest one.
    #[tactic(auto, using(crate::proofs::Witnesses::without_apart))]
    fn between(least: u64, greatest: u64) -> KnownBits
        ensures value { result.value ≡ least }
        ensures mask { result.mask ≡ bit_and greatest (bit_not w64 least) }
    {
        KnownBits::new(least, greatest & !least)
    }

    /// The words with their bits moved up.
    fn raised(self, k: u32) -> KnownBits
        requires { k < 64 }
        ensures { (x : ℕ) → HasBits self x → HasBits result ((x * 2 ^ k) % 2 ^ 64) }
    {
        KnownBits::new(self.value << k, self.mask << k)
    }

    /// The products of two words: where one is a power of two, the bits of the other move up.
    pub(crate) fn product(a: KnownBits, b: KnownBits) -> KnownBits
        ensures { IsSoundResult HasBits BinOp.Mul Width.W64 a b result }
    {
        match b.exponent() {
            Some(k) => a.raised(k),
            None => match a.exponent() {
                Some(k) => b.raised(k),
                None => KnownBits::any(),
            },
        }
    }

    /// The quotients of two words: where the divisor is a power of two, the bits move down, and by 0 they are 0.
    pub(crate) fn quotient(a: KnownBits, b: KnownBits) -> KnownBits
        ensures { IsSoundResult HasBits BinOp.Div Width.W64 a b result }
    {
        if b.greatest() == 0 {
            return KnownBits::exact(0);
        }
        match b.exponent() {
            Some(k) => KnownBits::new(a.value >> k, a.mask >> k),
            None => KnownBits::any(),
        }
    }

    /// The remainders of two words: where the divisor is a power of two, they are the low bits, and by 0 all of them.
    pub(crate) fn remainder(a: KnownBits, b: KnownBits) -> KnownBits
        ensures { IsSoundResult HasBits BinOp.Mod Width.W64 a b result }
    {
        if b.greatest() == 0 {
            return a;
        }
        match b.exponent() {
            Some(k) => KnownBits::new(a.value % (1 << k), a.mask % (1 << k)),
            None => KnownBits::any(),
        }
    }

    /// The exponent of the power of two that is the only word.
    pub(crate) fn exponent(self) -> Option<u32>
        ensures some { IfSome result (λ k. (k < 64) × ((x : ℕ) → HasBits self x → x ≡ 2 ^ k)) }
        ensures none { IfNone result ((k : ℕ) → self.mask ≡ 0 → self.value ≡ 2 ^ k → ⊥) }
    {
        let k = self.value.trailing_zeros();
        if self.mask == 0 && k < 64 && self.value == 1 << k {
            Some(k)
        } else {
            None
        }
    }

    /// The results of an operation on whole words; every word for a shift.
    pub(crate) fn whole(op: BinOp, a: KnownBits, b: KnownBits) -> KnownBits
        ensures sound { IsSoundResult HasBits op Width.W64 a b result }
        ensures exact { is_told op Width.W32 ≡ true → HasExactBits op Width.W64 a b result }
    {
        match op {
            BinOp::Add => KnownBits::sum(a, b),
            BinOp::Sub => KnownBits::difference(a, b),
            BinOp::Mul => KnownBits::product(a, b),
            BinOp::Or => KnownBits::between(a.value | b.value, a.greatest() | b.greatest()),
            BinOp::And => KnownBits::between(a.value & b.value, a.greatest() & b.greatest()),
            BinOp::Xor => KnownBits::outside(a.value ^ b.value, a.mask | b.mask),
            BinOp::Mov => b,
            BinOp::Div => KnownBits::quotient(a, b),
            BinOp::Mod => KnownBits::remainder(a, b),
            BinOp::Sdiv | BinOp::Smod | BinOp::Lsh | BinOp::Rsh | BinOp::Arsh => KnownBits::any(),
        }
    }
}
