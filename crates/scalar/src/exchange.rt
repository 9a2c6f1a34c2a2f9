//! What the four say to each other.

ghost use Rattle.std.specs.Prelude.{◌≡◌, ◌↔◌, ℕ, IfSome, Some};
ghost use Rattle.range.specs.Half.{InHalfRange};
ghost use Rattle.known_bits.specs.Members.{HasBits};

use crate::scalar::Scalar;
use insn::operation::{BinOp, Width};
use known_bits::KnownBits;
use range::domain::Domain;
use range::half::HalfRange;
use range::signed::SRange;
use range::unsigned::URange;

/// The low halves of the words that have some known bits.
fn low_halves(bits: KnownBits) -> HalfRange
    ensures { (x : ℕ) → HasBits bits x → InHalfRange result x }
{
    let low = KnownBits::apply(BinOp::Mov, Width::W32, bits, bits);
    HalfRange::of_words(SRange::of_unsigned(low.range()))
}

impl Scalar {
    ghost use Rattle.scalar.specs.Members.{InScalar, ShowsOne, HasSame};
    ghost use Rattle.scalar.specs.Bounds.{least_word, greatest_word};

    /// The word that its unsigned range is alone.
    pub(crate) fn only(self) -> Option<u64>
        ensures some { IfSome result (λ n. (x : ℕ) → InScalar self x → x ≡ n) }
        ensures ends { IfSome result (λ n. (least_word self ≡ n) × (greatest_word self ≡ n)) }
        ensures single { (x : ℕ) → ShowsOne self x → result ≡ Some x }
    {
        let least = self.unsigned.least();
        if least == self.unsigned.greatest() {
            Some(least)
        } else {
            None
        }
    }

    /// Its range of words narrowed by its numbers and its bits, and these by it.
    fn with_words_exchanged(self) -> Option<Scalar>
        ensures { HasSame self result }
    {
        let unsigned = URange::meet(self.unsigned, self.bits.range())?;
        let signed = SRange::meet(self.signed, SRange::of_unsigned(unsigned))?;
        let unsigned = URange::meet(unsigned, signed.unsigned())?;
        let bits = KnownBits::meet(self.bits, KnownBits::shared(unsigned))?;
        Some(Scalar {
            unsigned,
            signed,
            bits,
            half: self.half,
        })
    }

    /// Its low halves narrowed by its numbers and its bits, and its bits by them, and its ranges where they say all of a
    /// word.
    fn with_halves_exchanged(self) -> Option<Scalar>
        ensures { HasSame self result }
    {
        let half = HalfRange::meet(self.half, HalfRange::of_words(self.signed))?;
        let half = HalfRange::meet(half, low_halves(self.bits))?;
        let unsigned = URange::meet(self.unsigned, half.words_within(self.unsigned))?;
        let signed = SRange::meet(self.signed, half.numbers_within(self.signed))?;
        let low = KnownBits::shared(half.words()).seen_alike(Width::W32);
        let bits = KnownBits::meet(self.bits, low)?;
        Some(Scalar {
            unsigned,
            signed,
            bits,
            half,
        })
    }

    /// The same words, each of the four narrowed by the others; `None` where there is no word.
    pub(crate) fn exchange(self) -> Option<Scalar>
        ensures { HasSame self result }
    {
        match self.only() {
            Some(n) => {
                if self.has(n) {
                    Some(Scalar::exact(n))
                } else {
                    None
                }
            }
            None => self
                .with_words_exchanged()?
                .with_halves_exchanged()?
                .with_words_exchanged(),
        }
    }

    /// The same words after an exchange; it stays as it is where there is no word.
    pub(crate) fn exchanged(self) -> Scalar
        ensures { (x : ℕ) → InScalar result x ↔ InScalar self x }
    {
        self.exchange().unwrap_or(self)
    }
}
