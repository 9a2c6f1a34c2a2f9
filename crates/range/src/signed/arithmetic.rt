//! Sums, differences, shifts and sign extensions of signed words between bounds.

ghost use Rattle.std.specs.Prelude.{◌≤ℤ◌};
ghost use Rattle.range.specs.Domain.{IsSoundImage, IsSoundResult};

use crate::domain::Domain;
use crate::signed::SRange;
use crate::unsigned::URange;
use crate::width::extended_half_of;
use insn::operation::{BinOp, ExtendBits, UnOp, Width};

impl SRange {
    ghost use Rattle.range.specs.Signed.{greatest_of, InSignedRange, least_of};

    /// What an operation gives of the words as unsigned ranges.
    pub(crate) fn by_words(op: BinOp, width: Width, a: SRange, b: SRange) -> SRange
        ensures { IsSoundResult InSignedRange op width a b result }
    {
        SRange::of_unsigned(URange::apply(op, width, a.unsigned(), b.unsigned()))
    }

    /// What an operation on one word gives of the words as an unsigned range.
    pub(crate) fn image_by_words(self, op: UnOp, width: Width) -> SRange
        ensures { IsSoundImage InSignedRange op width self result }
    {
        SRange::of_unsigned(URange::unary(op, width, self.unsigned()))
    }

    /// The sums of two ranges' words in 64 bits.
    pub(crate) fn sum(a: SRange, b: SRange) -> SRange
        ensures { IsSoundResult InSignedRange BinOp.Add Width.W64 a b result }
    {
        match (
            a.least().checked_add(b.least()),
            a.greatest().checked_add(b.greatest()),
        ) {
            (Some(least), Some(greatest)) => SRange::new(least, greatest),
            _ => SRange::by_words(BinOp::Add, Width::W64, a, b),
        }
    }

    /// Their differences in 64 bits.
    pub(crate) fn difference(a: SRange, b: SRange) -> SRange
        ensures { IsSoundResult InSignedRange BinOp.Sub Width.W64 a b result }
    {
        match (
            a.least().checked_sub(b.greatest()),
            a.greatest().checked_sub(b.least()),
        ) {
            (Some(least), Some(greatest)) => SRange::new(least, greatest),
            _ => SRange::by_words(BinOp::Sub, Width::W64, a, b),
        }
    }

    /// The least range that has four numbers.
    fn spanning(first: i64, second: i64, third: i64, fourth: i64) -> SRange
        ensures first { (least_of result ≤ℤ first) × (first ≤ℤ greatest_of result) }
        ensures second { (least_of result ≤ℤ second) × (second ≤ℤ greatest_of result) }
        ensures third { (least_of result ≤ℤ third) × (third ≤ℤ greatest_of result) }
        ensures fourth { (least_of result ≤ℤ fourth) × (fourth ≤ℤ greatest_of result) }
    {
        SRange::new(
            first.min(second).min(third.min(fourth)),
            first.max(second).max(third.max(fourth)),
        )
    }

    /// Their products in 64 bits.
    pub(crate) fn product(a: SRange, b: SRange) -> SRange
        ensures { IsSoundResult InSignedRange BinOp.Mul Width.W64 a b result }
    {
        let low = a.least();
        let high = a.greatest();
        let least = b.least();
        let greatest = b.greatest();
        match (
            low.checked_mul(least),
            low.checked_mul(greatest),
            high.checked_mul(least),
            high.checked_mul(greatest),
        ) {
            (Some(first), Some(second), Some(third), Some(fourth)) => {
                SRange::spanning(first, second, third, fourth)
            }
            _ => SRange::by_words(BinOp::Mul, Width::W64, a, b),
        }
    }

    /// Their quotients in 64 bits, rounded toward 0: by a positive constant they are in the order of the dividends.
    pub(crate) fn quotient(a: SRange, b: SRange) -> SRange
        ensures { IsSoundResult InSignedRange BinOp.Sdiv Width.W64 a b result }
    {
        let divisor = b.least();
        if 0 < divisor && divisor == b.greatest() {
            SRange::new(a.least() / divisor, a.greatest() / divisor)
        } else {
            SRange::by_words(BinOp::Sdiv, Width::W64, a, b)
        }
    }

    /// What these divisions leave: by a positive constant a number that is less, and has the dividend's sign.
    pub(crate) fn remainder(a: SRange, b: SRange) -> SRange
        ensures { IsSoundResult InSignedRange BinOp.Smod Width.W64 a b result }
    {
        let low = a.least();
        let high = a.greatest();
        let divisor = b.least();
        if low < 0 && 0 < divisor && divisor == b.greatest() {
            if -divisor < low && high < divisor {
                a
            } else {
                let least = low.max(1 - divisor);
                let greatest = high.max(0).min(divisor - 1);
                SRange::new(least, greatest)
            }
        } else {
            SRange::by_words(BinOp::Smod, Width::W64, a, b)
        }
    }

    /// The words of one range moved up by those of another in 64 bits.
    pub(crate) fn moved_up(a: SRange, b: SRange) -> SRange
        ensures { IsSoundResult InSignedRange BinOp.Lsh Width.W64 a b result }
    {
        let by = b.unsigned().amounts(Width::W64);
        let amount = by.least();
        if amount == by.greatest() {
            SRange::product(a, SRange::exact(1 << amount))
        } else {
            SRange::by_words(BinOp::Lsh, Width::W64, a, b)
        }
    }

    /// The words of one range moved down by those of another in 64 bits, with copies of the sign above.
    pub(crate) fn moved_down(a: SRange, b: SRange) -> SRange
        ensures { IsSoundResult InSignedRange BinOp.Arsh Width.W64 a b result }
    {
        let by = b.unsigned().amounts(Width::W64);
        let amount = by.least();
        let low = a.least();
        let high = a.greatest();
        if amount == by.greatest() {
            SRange::new(low >> amount, high >> amount)
        } else {
            SRange::new(low.min(0), high.max(-1))
        }
    }

    /// The low bits of the words, read as signed numbers of 64 bits.
    pub(crate) fn extended(self, bits: ExtendBits) -> SRange
        ensures { IsSoundImage InSignedRange (UnOp.Extend bits) Width.W64 self result }
    {
        let half = extended_half_of(bits);
        let words = self.image_by_words(UnOp::Extend(bits), Width::W64);
        let low = self.least();
        let high = self.greatest();
        let least = words.least();
        let greatest = words.greatest();
        if -half <= low && high < half {
            self
        } else if -half <= least && greatest < half {
            words
        } else {
            SRange::new(-half, half - 1)
        }
    }
}
