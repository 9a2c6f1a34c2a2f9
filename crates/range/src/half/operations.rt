//! The operations of a machine on low halves between bounds.

ghost use Rattle.std.specs.Prelude.{◌≡◌, ◌<◌, ◌^◌, ◌↔◌, ℕ, IsTrue, true};
ghost use Rattle.insn.specs.Word.{unary_result};
ghost use Rattle.range.specs.Conditions.{says};
ghost use Rattle.range.specs.Domain.{IsSoundResult, IsSoundImage, IsJoin, IsRefined};
ghost use Rattle.range.specs.Sets.{AreWithin, IsLeastAnswered, IsLeastJoin};

use crate::condition::{is_equality, placed};
use crate::domain::Domain;
use crate::half::HalfRange;
use crate::signed::SRange;
use crate::unsigned::URange;
use insn::operation::{BinOp, Cond, UnOp, Width};

impl HalfRange {
    ghost use Rattle.range.specs.Half.{InHalfRange, IsSingleHalf, IsSingleHalfImage, is_told};
    ghost use Rattle.range.specs.HalfParts.{HasResults, by_extended, shifted_by};

    /// Whether the low halves of the operands tell that of the result, as they do in 64 bits.
    fn is_told(op: BinOp, width: Width) -> bool
        ensures { result ≡ is_told op width }
    {
        match (op, width) {
            (BinOp::Lsh, Width::W32) => false,
            (BinOp::Div | BinOp::Sdiv | BinOp::Mod | BinOp::Smod | BinOp::Rsh | BinOp::Arsh, _) =>
                false,
            _ => true,
        }
    }

    /// What an operation gives of the low halves as words.
    fn by_words(op: BinOp, width: Width, a: HalfRange, b: HalfRange) -> HalfRange
        ensures { HasResults (by_extended width op) a b result }
    {
        HalfRange::of_words(SRange::apply(op, width, a.signed(), b.signed()))
    }

    /// What a shift gives of the low halves as words, by amounts below 32.
    fn shifted(op: BinOp, a: HalfRange, b: HalfRange) -> HalfRange
        ensures { HasResults (shifted_by op) a b result }
    {
        let amounts = SRange::apply(BinOp::And, Width::W64, b.signed(), SRange::exact(31));
        HalfRange::of_words(SRange::apply(op, Width::W64, a.signed(), amounts))
    }

    /// What an operation gives, for all words of its operands.
    pub fn apply(op: BinOp, width: Width, a: HalfRange, b: HalfRange) -> HalfRange
        ensures sound { IsSoundResult InHalfRange op width a b result }
        ensures single { IsSingleHalf op width a b result }
    {
        if HalfRange::is_told(op, width) {
            HalfRange::by_words(op, Width::W64, a, b)
        } else {
            match width {
                Width::W64 => HalfRange::any(),
                Width::W32 => {
                    match op {
                        BinOp::Lsh | BinOp::Arsh => HalfRange::shifted(op, a, b),
                        BinOp::Sdiv | BinOp::Smod => HalfRange::by_words(op, Width::W64, a, b),
                        _ => HalfRange::by_words(op, width, a, b),
                    }
                }
            }
        }
    }

    /// What an operation on one word gives, for all words of its operand.
    pub fn unary(op: UnOp, width: Width, a: HalfRange) -> HalfRange
        ensures sound { IsSoundImage InHalfRange op width a result }
        ensures single { IsSingleHalfImage op width a result }
    {
        match op {
            UnOp::Swap(..) => HalfRange::any(),
            UnOp::Neg | UnOp::Extend(_) => {
                HalfRange::of_words(SRange::unary(op, Width::W64, a.signed()))
            }
        }
    }

    /// The words of both, and those whose low halves lie between theirs.
    pub fn join(a: HalfRange, b: HalfRange) -> HalfRange
        ensures join { IsJoin InHalfRange a b result }
        ensures least { IsLeastJoin InHalfRange a b result }
    {
        HalfRange::of_places(URange::spanned(a.places(), b.places()))
    }

    /// The pairs for whose low halves a condition has an answer, by these as words.
    fn refined_by_words(
        cond: Cond,
        a: HalfRange,
        b: HalfRange,
        taken: bool,
    ) -> Option<(HalfRange, HalfRange)>
        ensures kept { IsRefined InHalfRange cond Width.W32 taken a b result }
        ensures within { AreWithin InHalfRange a b result }
    {
        let (left, right) = URange::answered(cond, Width::W32, a.words(), b.words(), taken)?;
        let left = a.cut_by(left)?;
        let right = b.cut_by(right)?;
        Some((left, right))
    }

    /// The pairs for whose low halves a condition has an answer: by their places, where it asks for these.
    fn answered(
        cond: Cond,
        a: HalfRange,
        b: HalfRange,
        taken: bool,
    ) -> Option<(HalfRange, HalfRange)>
        ensures kept { IsRefined InHalfRange cond Width.W32 taken a b result }
        ensures within { AreWithin InHalfRange a b result }
        ensures least { IsTrue (says cond taken).numbers → IsLeastAnswered InHalfRange cond Width.W32 taken a b result }
    {
        match placed(cond) {
            Some(order) => {
                let (left, right) = URange::compared(order, a.places(), b.places(), taken)?;
                Some((HalfRange::of_places(left), HalfRange::of_places(right)))
            }
            None => HalfRange::refined_by_words(cond, a, b, taken),
        }
    }

    /// What two operands can still be where a condition of them has this answer; `None` where it never has it.
    pub fn refine(
        cond: Cond,
        width: Width,
        a: HalfRange,
        b: HalfRange,
        taken: bool,
    ) -> Option<(HalfRange, HalfRange)>
        ensures kept { IsRefined InHalfRange cond width taken a b result }
        ensures within { AreWithin InHalfRange a b result }
        ensures least { width ≡ Width.W32 → IsTrue (says cond taken).numbers → IsLeastAnswered InHalfRange cond Width.W32 taken a b result }
        ensures equal { width ≡ Width.W64 → IsTrue (says cond taken).equal → IsLeastAnswered InHalfRange Cond.Eq Width.W32 true a b result }
    {
        match width {
            Width::W32 => HalfRange::answered(cond, a, b, taken),
            Width::W64 => {
                if is_equality(cond, taken) {
                    HalfRange::answered(Cond::Eq, a, b, true)
                } else {
                    Some((a, b))
                }
            }
        }
    }
}
