//! Known bits as a domain.

ghost use Rattle.std.specs.Prelude.{◌≡◌, ℕ, IsTrue, IsNone, IfSome};
ghost use Rattle.range.specs.Conditions.{says};
ghost use Rattle.range.specs.Sets.{AreWithin, IsLeastJoin};
ghost use Rattle.range.specs.Domain.{IsJoin, IsRefined, IsSingle, IsSoundResult, IsSingleResult, IsSoundImage, IsSingleImage};
ghost use Rattle.insn.specs.Word.{unary_result};

use crate::bits::KnownBits;
use insn::operation::{BinOp, Cond, UnOp, Width};
use range::domain::Domain;
use word::{alu, unary};

impl Domain for KnownBits {
    ghost use Rattle.known_bits.specs.Members.{HasBits};
    ghost use Rattle.known_bits.specs.MemberLaws.{HasBits-words};
    ghost use Rattle.known_bits.specs.Refined.{IsOneBit, IsDecided, IsTight, IsUnanswered};
    ghost use Rattle.known_bits.specs.Exact.{HasExactBits, IsExactImage};

    ghost Has = { HasBits };

    ghost Single = { IsSingle HasBits };

    ghost words = { HasBits-words };

    ghost single_is = { λ a x h. h };

    fn any() -> KnownBits {
        KnownBits::new(0, u64::MAX)
    }

    fn exact(n: u64) -> KnownBits {
        KnownBits::new(n, 0)
    }

    fn has(self, n: u64) -> bool {
        n & !self.mask == self.value
    }

    fn apply(op: BinOp, width: Width, a: KnownBits, b: KnownBits) -> KnownBits
        ensures sound { IsSoundResult HasBits op width a b result }
        ensures single { IsSingleResult (IsSingle HasBits) op width a b result }
        ensures exact { HasExactBits op width a b result }
    {
        if a.mask | b.mask == 0 {
            KnownBits::exact(alu(width, op, a.value, b.value))
        } else {
            KnownBits::result(op, width, a, b)
        }
    }

    fn unary(op: UnOp, width: Width, a: KnownBits) -> KnownBits
        ensures sound { IsSoundImage HasBits op width a result }
        ensures single { IsSingleImage (IsSingle HasBits) op width a result }
        ensures exact { IsExactImage op width a result }
    {
        if a.mask == 0 {
            KnownBits::exact(unary(op, width, a.value))
        } else {
            KnownBits::image(op, width, a)
        }
    }

    fn join(a: KnownBits, b: KnownBits) -> KnownBits
        ensures both { IsJoin HasBits a b result }
        ensures least { IsLeastJoin HasBits a b result }
    {
        KnownBits::outside(a.value, a.mask | b.mask | (a.value ^ b.value))
    }

    fn refine(
        cond: Cond,
        width: Width,
        a: KnownBits,
        b: KnownBits,
        taken: bool,
    ) -> Option<(KnownBits, KnownBits)>
        ensures kept { IsRefined HasBits cond width taken a b result }
        ensures within { AreWithin HasBits a b result }
        ensures tight { IsTrue (says cond taken).equal → IfSome result (IsTight width a b) }
        ensures single { (x y : ℕ) → IsUnanswered cond width taken a b x y → IsNone result }
        ensures settled { (k : ℕ) → cond ≡ Cond.Set → IsOneBit width b k → IfSome result (IsDecided cond width taken b) }
    {
        if KnownBits::excludes(cond, width, a, b, taken) {
            return None;
        }
        match (cond, taken) {
            (Cond::Eq, true) => KnownBits::equal(width, a, b),
            (Cond::Ne, false) => KnownBits::equal(width, a, b),
            (Cond::Set, _) => KnownBits::tested(width, a, b, taken),
            _ => Some((a, b)),
        }
    }
}

impl KnownBits {
    ghost use Rattle.known_bits.specs.Members.{HasBits};
    ghost use Rattle.known_bits.specs.Exact.{HasExactBits, IsExactImage};

    /// The results of an operation on two words.
    fn result(op: BinOp, width: Width, a: KnownBits, b: KnownBits) -> KnownBits
        ensures sound { IsSoundResult HasBits op width a b result }
        ensures exact { HasExactBits op width a b result }
    {
        match op {
            BinOp::Add
            | BinOp::Sub
            | BinOp::Mul
            | BinOp::Or
            | BinOp::And
            | BinOp::Xor
            | BinOp::Mov => { KnownBits::whole(op, a, b).in_width(width) }
            BinOp::Div | BinOp::Mod => KnownBits::whole(
                op,
                a.in_width(width),
                b.in_width(width),
            ).in_width(width),
            BinOp::Lsh | BinOp::Rsh | BinOp::Arsh => KnownBits::shifted(op, width, a, b),
            BinOp::Sdiv | BinOp::Smod => KnownBits::all_of(width),
        }
    }

    /// The results of an operation on one word.
    fn image(op: UnOp, width: Width, a: KnownBits) -> KnownBits
        ensures sound { IsSoundImage HasBits op width a result }
        ensures exact { IsExactImage op width a result }
    {
        match op {
            UnOp::Neg => KnownBits::difference(KnownBits::exact(0), a).in_width(width),
            UnOp::Swap(..) | UnOp::Extend(_) => {
                KnownBits::new(unary(op, width, a.value), unary(op, width, a.mask))
            }
        }
    }
}
