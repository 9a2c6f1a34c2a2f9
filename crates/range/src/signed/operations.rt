//! The operations of a machine on signed words between bounds.

ghost use Rattle.std.specs.Prelude.{◌≡◌, ◌<◌, ℕ, IfSome, IsTrue, Some};
ghost use Rattle.range.specs.Conditions.{says};
ghost use Rattle.range.specs.Domain.{IsSoundResult, IsSoundImage, IsSingle, IsJoin, IsRefined};
ghost use Rattle.range.specs.Sets.{AreWithin, IsLeastAnswered, IsLeastJoin};

use crate::domain::Domain;
use crate::place::place_of;
use crate::signed::SRange;
use crate::unsigned::URange;
use insn::operation::{BinOp, Cond, UnOp, Width};
use word::{alu, unary};

impl SRange {
    ghost use Rattle.range.specs.Signed.{InSignedRange};

    /// The word that it is alone.
    fn only(self) -> Option<u64>
        ensures some { IfSome result (λ n. (x : ℕ) → InSignedRange self x → x ≡ n) }
        ensures single { (x : ℕ) → IsSingle InSignedRange self x → result ≡ Some x }
    {
        let least = self.places.least();
        if least == self.places.greatest() {
            Some(place_of(least))
        } else {
            None
        }
    }

    /// What an operation gives.
    fn operated(op: BinOp, width: Width, a: SRange, b: SRange) -> SRange
        ensures { IsSoundResult InSignedRange op width a b result }
    {
        match (op, width) {
            (BinOp::Add, Width::W64) => SRange::sum(a, b),
            (BinOp::Sub, Width::W64) => SRange::difference(a, b),
            (BinOp::Mul, Width::W64) => SRange::product(a, b),
            (BinOp::Sdiv, Width::W64) => SRange::quotient(a, b),
            (BinOp::Smod, Width::W64) => SRange::remainder(a, b),
            (BinOp::Lsh, Width::W64) => SRange::moved_up(a, b),
            (BinOp::Arsh, Width::W64) => SRange::moved_down(a, b),
            (BinOp::Mov, Width::W64) => b,
            _ => SRange::by_words(op, width, a, b),
        }
    }

    /// What an operation on one word gives.
    fn image_of(self, op: UnOp, width: Width) -> SRange
        ensures { IsSoundImage InSignedRange op width self result }
    {
        match (op, width) {
            (UnOp::Neg, Width::W64) => SRange::difference(SRange::exact(0), self),
            (UnOp::Extend(bits), Width::W64) => self.extended(bits),
            _ => self.image_by_words(op, width),
        }
    }
}

impl Domain for SRange {
    ghost use Rattle.range.specs.Signed.{InSignedRange};
    ghost use Rattle.range.specs.MemberLaws.{signed_words};

    ghost Has = { InSignedRange };

    ghost Single = { IsSingle InSignedRange };

    ghost words = { signed_words };

    ghost single_is = { λ a x h. h };

    fn any() -> SRange {
        SRange {
            places: URange::new(0, u64::MAX),
        }
    }

    fn exact(n: u64) -> SRange {
        let place = place_of(n);
        SRange {
            places: URange::new(place, place),
        }
    }

    fn has(self, n: u64) -> bool {
        self.places.has(place_of(n))
    }

    fn apply(op: BinOp, width: Width, a: SRange, b: SRange) -> SRange {
        match (a.only(), b.only()) {
            (Some(left), Some(right)) => SRange::exact(alu(width, op, left, right)),
            _ => SRange::operated(op, width, a, b),
        }
    }

    fn unary(op: UnOp, width: Width, a: SRange) -> SRange {
        match a.only() {
            Some(n) => SRange::exact(unary(op, width, n)),
            None => a.image_of(op, width),
        }
    }

    fn join(a: SRange, b: SRange) -> SRange
        ensures join { IsJoin InSignedRange a b result }
        ensures least { IsLeastJoin InSignedRange a b result }
    {
        SRange {
            places: URange::spanned(a.places, b.places),
        }
    }

    fn refine(
        cond: Cond,
        width: Width,
        a: SRange,
        b: SRange,
        taken: bool,
    ) -> Option<(SRange, SRange)>
        ensures kept { IsRefined InSignedRange cond width taken a b result }
        ensures within { AreWithin InSignedRange a b result }
        ensures least { width ≡ Width.W64 → IsTrue (says cond taken).numbers → IsLeastAnswered InSignedRange cond Width.W64 taken a b result }
    {
        match width {
            Width::W32 => SRange::refined_by_words(cond, width, a, b, taken),
            Width::W64 => SRange::answered(cond, a, b, taken),
        }
    }
}
