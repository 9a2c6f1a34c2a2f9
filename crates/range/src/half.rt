//! Words by their low halves, read as signed numbers of 32 bits.

ghost use Rattle.std.specs.Prelude.{◌≡◌, ◌<◌, ◌≤◌, ◌<ℤ◌, ◌≤ℤ◌, ◌%◌, ◌^◌, ◌↔◌, ℕ, IfSome, IsTrue, pos, negsuc, true};
ghost use Rattle.insn.specs.Word.{word_extended, word_result};
ghost use Rattle.range.specs.Sets.{IsMeet, IsWithin};

use crate::domain::Domain;
use crate::place::low_place_of;
use crate::signed::SRange;
use crate::unsigned::URange;
use insn::operation::{BinOp, ExtendBits, Width};

mod operations;

/// How far the places of low halves are below those of the words that have their signs in the upper half.
const ABOVE: u64 = 0x7fff_ffff_8000_0000;

/// The words whose low halves, read as signed numbers, lie between a least and a greatest number, both among them: here
/// these are places. It is no `Domain`, since no range of them is one word alone.
#[derive(Clone, Copy)]
pub struct HalfRange {
    least: u32,
    greatest: u32,
    ghost ordered: { least ≤ greatest },
}

impl HalfRange {
    ghost use Rattle.range.specs.Domain.{IsSingle};
    ghost use Rattle.range.specs.Half.{HaveOneEnds, InHalfRange, IsHalf, places_of};
    ghost use Rattle.range.specs.Signed.{greatest_of, InSignedRange, least_of};
    ghost use Rattle.range.specs.Unsigned.{InRange};
    ghost use Rattle.range.specs.UnsignedParts.{IsCutBy};

    /// The places of the low halves.
    fn places(self) -> URange
        ensures is { result ≡ places_of self }
        ensures fits { result.greatest < 2 ^ 32 }
    {
        URange::new(u64::from(self.least), u64::from(self.greatest))
    }

    /// The words whose low halves have these places.
    fn of_places(places: URange) -> HalfRange
        requires { places.greatest < 2 ^ 32 }
        ensures { places_of result ≡ places }
    {
        HalfRange {
            least: places.least() as u32,
            greatest: places.greatest() as u32,
        }
    }

    /// Every word.
    pub fn any() -> HalfRange
        ensures { (x : ℕ) → x < 2 ^ 64 → InHalfRange result x }
    {
        HalfRange {
            least: 0,
            greatest: u32::MAX,
        }
    }

    /// The words that have the low half of one.
    pub fn exact(n: u64) -> HalfRange
        ensures { IsHalf result n }
    {
        let place = low_place_of(n);
        HalfRange {
            least: place,
            greatest: place,
        }
    }

    /// Whether a word is among them.
    pub fn has(self, n: u64) -> bool
        ensures { IsTrue result ↔ InHalfRange self n }
    {
        let place = low_place_of(n);
        self.least <= place && place <= self.greatest
    }

    /// The low halves as words, with their signs in the upper half.
    pub fn signed(self) -> SRange
        ensures has { (x : ℕ) → InHalfRange self x → InSignedRange result (word_extended Width.W64 ExtendBits.B32 x) }
        ensures ends { HaveOneEnds result self }
        ensures single { (x : ℕ) → x < 2 ^ 64 → IsHalf self x → IsSingle InSignedRange result (word_extended Width.W64 ExtendBits.B32 x) }
    {
        SRange {
            places: URange::new(
                ABOVE + u64::from(self.least),
                ABOVE + u64::from(self.greatest),
            ),
        }
    }

    /// The low halves as words, with 0 in the upper half, and all of them where they have both signs.
    pub fn words(self) -> URange
        ensures has { (x : ℕ) → InHalfRange self x → InRange result (x % 2 ^ 32) }
        ensures fits { result.greatest < 2 ^ 32 }
    {
        self.places().turned(Width::W32)
    }

    /// The words of a signed range and all that share a low half with one; every word where these halves go past the
    /// greatest one.
    pub fn of_words(words: SRange) -> HalfRange
        ensures has { (x : ℕ) → InSignedRange words x → InHalfRange result x }
        ensures ends { negsuc 2147483647 ≤ℤ least_of words → greatest_of words ≤ℤ pos 2147483647 → HaveOneEnds words result }
        ensures single { (x : ℕ) → x < 2 ^ 64 → IsSingle InSignedRange words x → IsHalf result x }
    {
        let first = words.places.least();
        let last = words.places.greatest();
        let least = low_place_of(first);
        let greatest = low_place_of(last);
        if last - first < 0x1_0000_0000 && least <= greatest {
            return HalfRange { least, greatest };
        }
        HalfRange::any()
    }

    /// The words of both ranges; `None` where there is none.
    pub fn meet(a: HalfRange, b: HalfRange) -> Option<HalfRange>
        ensures { IsMeet InHalfRange a b result }
    {
        Some(HalfRange::of_places(URange::meet(a.places(), b.places())?))
    }

    /// The words whose low halves are in an unsigned range too, and more where these have both signs.
    fn cut_by(self, low: URange) -> Option<HalfRange>
        requires { low.greatest < 2 ^ 32 }
        ensures kept { IsCutBy InHalfRange (λ x. InRange low (x % 2 ^ 32)) self result }
        ensures within { IfSome result (λ r. IsWithin InHalfRange r self) }
    {
        HalfRange::meet(self, HalfRange::of_places(low.turned(Width::W32)))
    }

    /// Whether each word of another range is in this one.
    pub fn covers(self, other: HalfRange) -> bool
        ensures members { result ≡ true → IsWithin InHalfRange other self }
        ensures itself { other ≡ self → result ≡ true }
    {
        self.places().covers(other.places())
    }

    /// The words of an unsigned range, by their low halves where all are below 2^32.
    pub fn words_within(self, words: URange) -> URange
        ensures { (x : ℕ) → InRange words x → InHalfRange self x → InRange result x }
    {
        if words.greatest() < 0x1_0000_0000 {
            self.words()
        } else {
            words
        }
    }

    /// The words of a signed range, by their low halves where all fit 32 bits.
    pub fn numbers_within(self, words: SRange) -> SRange
        ensures { (x : ℕ) → InSignedRange words x → InHalfRange self x → InSignedRange result x }
    {
        if -0x8000_0000 <= words.least() && words.greatest() < 0x8000_0000 {
            self.signed()
        } else {
            words
        }
    }

    /// The words moved up by 32 bits or more: their low halves are then all that is left of them.
    pub fn raised(self, amounts: SRange) -> SRange
        requires least { pos 32 ≤ℤ least_of amounts }
        requires greatest { greatest_of amounts <ℤ pos 64 }
        ensures { (x y : ℕ) → InHalfRange self x → InSignedRange amounts y → InSignedRange result (word_result Width.W64 BinOp.Lsh x y) }
    {
        SRange::apply(BinOp::Lsh, Width::W64, self.signed(), amounts)
    }
}
