//! An unsigned range, a signed range, known bits and a range of low halves of one word.

ghost use Rattle.std.specs.Prelude.{◌≡◌, ◌<◌, ◌≤◌, ◌^◌, ◌≤ℤ◌, ℕ, Bool, IfSome, IsTrue, true};
ghost use Rattle.std.specs.Int.{w64, cast_signed};
ghost use Rattle.insn.specs.Word.{word_holds, word_result};
ghost use Rattle.range.specs.Conditions.{says};

use insn::operation::{BinOp, Cond, UnOp, Width};
use known_bits::KnownBits;
use range::domain::Domain;
use range::half::HalfRange;
use range::signed::SRange;
use range::unsigned::URange;
use word::{alu, unary};

/// Words below this answer a condition as their low halves do.
fn plain_below(cond: Cond) -> u64
    ensures alike { (x y : ℕ) → x < result → y < result → word_holds Width.W32 cond x y ≡ word_holds Width.W64 cond x y }
    ensures whole { (taken : Bool) → IsTrue (says cond taken).words → result ≡ 2 ^ 32 }
{
    match cond {
        Cond::Eq | Cond::Gt | Cond::Ge | Cond::Set | Cond::Ne | Cond::Lt | Cond::Le =>
            0x1_0000_0000,
        Cond::Sgt | Cond::Sge | Cond::Slt | Cond::Sle => 0x8000_0000,
    }
}

/// The words that are in an unsigned range, in a signed range, have some known bits, and a low half in a range.
#[derive(Clone, Copy)]
pub struct Scalar {
    pub(crate) unsigned: URange,
    pub(crate) signed: SRange,
    pub(crate) bits: KnownBits,
    pub(crate) half: HalfRange,
}

impl Scalar {
    ghost use Rattle.scalar.specs.Members.{InScalar, ShowsOne};
    ghost use Rattle.scalar.specs.Bounds.{least_word, greatest_word, least_number, greatest_number};
    ghost use Rattle.range.specs.Sets.{IsWithin};

    /// A least and a greatest word, between which each member lies.
    pub fn bounds(self) -> (u64, u64)
        ensures value { (result.0 ≡ least_word self) × (result.1 ≡ greatest_word self) }
        ensures least { (x : ℕ) → InScalar self x → result.0 ≤ x }
        ensures greatest { (x : ℕ) → InScalar self x → x ≤ result.1 }
        ensures single { (x : ℕ) → ShowsOne self x → (result.0 ≡ x) × (result.1 ≡ x) }
    {
        (self.unsigned.least(), self.unsigned.greatest())
    }

    /// A least and a greatest number, between which each member lies when it is read as a signed number.
    pub fn signed_bounds(self) -> (i64, i64)
        ensures value { (result.0 ≡ least_number self) × (result.1 ≡ greatest_number self) }
        ensures least { (x : ℕ) → InScalar self x → result.0 ≤ℤ cast_signed w64 x }
        ensures greatest { (x : ℕ) → InScalar self x → cast_signed w64 x ≤ℤ result.1 }
        ensures single { (x : ℕ) → ShowsOne self x → (result.0 ≡ cast_signed w64 x) × (result.1 ≡ cast_signed w64 x) }
    {
        (self.signed.least(), self.signed.greatest())
    }

    /// Whether each word of another value is in this one, as each of the four tells it of its own: a join then adds
    /// nothing to this one. It may be so though they do not tell it.
    pub fn covers(self, other: Scalar) -> bool
        ensures members { result ≡ true → IsWithin InScalar other self }
        ensures itself { other ≡ self → result ≡ true }
    {
        self.unsigned.covers(other.unsigned)
            && self.signed.covers(other.signed)
            && self.bits.covers(other.bits)
            && self.half.covers(other.half)
    }
}

impl Domain for Scalar {
    ghost use Rattle.scalar.specs.Members.{InScalar, LiesInEachJoin, ShowsOne};
    ghost use Rattle.scalar.specs.MemberLaws.{InScalar-words, shows_one};
    ghost use Rattle.scalar.specs.Narrowed.{AreNarrowed, LiesInLeastSum};
    ghost use Rattle.range.specs.Domain.{IsJoin, IsRefined, IsSoundResult, IsSingleResult};
    ghost use Rattle.range.specs.Sets.{AreWithin};

    ghost Has = { InScalar };

    ghost Single = { ShowsOne };

    fn any() -> Scalar {
        Scalar {
            unsigned: URange::any(),
            signed: SRange::any(),
            bits: KnownBits::any(),
            half: HalfRange::any(),
        }
    }

    fn exact(n: u64) -> Scalar {
        Scalar {
            unsigned: URange::exact(n),
            signed: SRange::exact(n),
            bits: KnownBits::exact(n),
            half: HalfRange::exact(n),
        }
    }

    fn has(self, n: u64) -> bool {
        self.unsigned.has(n) && self.signed.has(n) && self.bits.has(n) && self.half.has(n)
    }

    fn apply(op: BinOp, width: Width, a: Scalar, b: Scalar) -> Scalar
        ensures sound { IsSoundResult InScalar op width a b result }
        ensures single { IsSingleResult ShowsOne op width a b result }
        ensures sums { LiesInLeastSum op width a b result }
    {
        match (a.only(), b.only()) {
            (Some(left), Some(right)) => Scalar::exact(alu(width, op, left, right)),
            _ => Scalar::result_of_parts(op, width, a, b).exchanged(),
        }
    }

    fn unary(op: UnOp, width: Width, a: Scalar) -> Scalar {
        match a.only() {
            Some(n) => Scalar::exact(unary(op, width, n)),
            None => Scalar {
                unsigned: URange::unary(op, width, a.unsigned),
                signed: SRange::unary(op, width, a.signed),
                bits: KnownBits::unary(op, width, a.bits),
                half: HalfRange::unary(op, width, a.half),
            }
            .exchanged(),
        }
    }

    fn join(a: Scalar, b: Scalar) -> Scalar
        ensures join { IsJoin InScalar a b result }
        ensures least { LiesInEachJoin a b result }
    {
        Scalar {
            unsigned: URange::join(a.unsigned, b.unsigned),
            signed: SRange::join(a.signed, b.signed),
            bits: KnownBits::join(a.bits, b.bits),
            half: HalfRange::join(a.half, b.half),
        }
        .exchanged()
    }

    fn refine(
        cond: Cond,
        width: Width,
        a: Scalar,
        b: Scalar,
        taken: bool,
    ) -> Option<(Scalar, Scalar)>
        ensures kept { IsRefined InScalar cond width taken a b result }
        ensures within { AreWithin InScalar a b result }
        ensures narrowed { IfSome result (AreNarrowed (record { cond = cond; width = width; taken = taken }) a b) }
    {
        let asked = Scalar::width_asked(cond, width, a, b);
        let (left, right) = Scalar::refined_by_parts(cond, asked, a, b, taken)?;
        let (left, right) = Scalar::refined_by_halves(cond, width, left, right, taken)?;
        Some((left.exchange()?, right.exchange()?))
    }

    ghost words = { InScalar-words };

    ghost single_is = { shows_one };
}

impl Scalar {
    ghost use Rattle.scalar.specs.Members.{InScalar, ShowsOne};
    ghost use Rattle.scalar.specs.Narrowed.{LiesInLeastSum};
    ghost use Rattle.range.specs.Domain.{IsSoundResult, IsSingleResult};

    /// What an operation gives of each of the four by itself. Where its result is met with another value, that narrows
    /// the four by each other anyway, and what `apply` does beyond this would be done twice.
    pub fn apply_by_parts(op: BinOp, width: Width, a: Scalar, b: Scalar) -> Scalar
        ensures sound { IsSoundResult InScalar op width a b result }
        ensures single { IsSingleResult ShowsOne op width a b result }
        ensures sums { LiesInLeastSum op width a b result }
    {
        match (a.only(), b.only()) {
            (Some(x), Some(y)) => Scalar::exact(alu(width, op, x, y)),
            _ => Scalar::result_of_parts(op, width, a, b),
        }
    }

    /// The same, of values that are not single words both.
    fn result_of_parts(op: BinOp, width: Width, a: Scalar, b: Scalar) -> Scalar
        ensures sound { IsSoundResult InScalar op width a b result }
        ensures sums { LiesInLeastSum op width a b result }
    {
        Scalar {
            unsigned: URange::apply(op, width, a.unsigned, b.unsigned),
            signed: Scalar::signed_result(op, width, a, b),
            bits: KnownBits::apply(op, width, a.bits, b.bits),
            half: HalfRange::apply(op, width, a.half, b.half),
        }
    }
}

impl Scalar {
    ghost use Rattle.scalar.specs.Members.{InScalar, IsAskedAlike};
    ghost use Rattle.scalar.specs.NarrowedParts.{AreHalvesNarrowed, ArePartsNarrowed, IsWidthAsked};
    ghost use Rattle.range.specs.Domain.{IsRefined};
    ghost use Rattle.range.specs.Signed.{InSignedRange};

    /// The width in which a condition is asked of each of the three: where no member has a bit that the low half
    /// leaves out or reads as a sign, a condition of low halves is one of whole words.
    fn width_asked(cond: Cond, width: Width, a: Scalar, b: Scalar) -> Width
        ensures alike { IsAskedAlike cond width result a b }
        ensures asked { IsWidthAsked width result cond a b }
    {
        let plain = plain_below(cond);
        if a.unsigned.greatest() < plain && b.unsigned.greatest() < plain {
            Width::W64
        } else {
            width
        }
    }

    /// What an operation gives of the signed ranges; of words that move up by 32 bits or more, of their low halves.
    fn signed_result(op: BinOp, width: Width, a: Scalar, b: Scalar) -> SRange
        ensures { (x y : ℕ) → InScalar a x → InScalar b y → InSignedRange result (word_result width op x y) }
    {
        match (op, width) {
            (BinOp::Lsh, Width::W64) => {
                if 32 <= b.signed.least() && b.signed.greatest() < 64 {
                    a.half.raised(b.signed)
                } else {
                    SRange::apply(op, width, a.signed, b.signed)
                }
            }
            _ => SRange::apply(op, width, a.signed, b.signed),
        }
    }

    /// What a condition says to the low halves.
    fn refined_by_halves(
        cond: Cond,
        width: Width,
        a: Scalar,
        b: Scalar,
        taken: bool,
    ) -> Option<(Scalar, Scalar)>
        ensures kept { IsRefined InScalar cond width taken a b result }
        ensures narrowed { IfSome result (AreHalvesNarrowed (record { cond = cond; width = width; taken = taken }) a b) }
    {
        let (left, right) = HalfRange::refine(cond, width, a.half, b.half, taken)?;
        Some((Scalar { half: left, ..a }, Scalar { half: right, ..b }))
    }

    /// What a condition says to each of the three of whole words by itself.
    fn refined_by_parts(
        cond: Cond,
        width: Width,
        a: Scalar,
        b: Scalar,
        taken: bool,
    ) -> Option<(Scalar, Scalar)>
        ensures kept { IsRefined InScalar cond width taken a b result }
        ensures narrowed { IfSome result (ArePartsNarrowed (record { cond = cond; width = width; taken = taken }) a b) }
    {
        let unsigned = URange::refine(cond, width, a.unsigned, b.unsigned, taken)?;
        let signed = SRange::refine(cond, width, a.signed, b.signed, taken)?;
        let bits = KnownBits::refine(cond, width, a.bits, b.bits, taken)?;
        let left = Scalar {
            unsigned: unsigned.0,
            signed: signed.0,
            bits: bits.0,
            half: a.half,
        };
        let right = Scalar {
            unsigned: unsigned.1,
            signed: signed.1,
            bits: bits.1,
            half: b.half,
        };
        Some((left, right))
    }
}
