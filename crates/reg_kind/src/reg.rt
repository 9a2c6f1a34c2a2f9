//! What is known of a register, or of eight bytes that hold what a register held.

ghost use Rattle.std.specs.Prelude.{◌≡◌, Some, IfSome, IsTrue};
ghost use Rattle.insn.specs.declared.state.Value.TheVariants.{Number as IsNumber};
ghost use Rattle.reg_kind.specs.Fits.{IsKindCover, IsRegJoin, IsKindJoin, IsKindRefined, IsRegRefined};
ghost use Rattle.reg_kind.specs.Operations.{copy_of, in_region, IsComputed, IsKindResult, IsKnownNumber, IsMove, IsRegMove, IsKindImage};
ghost use Rattle.reg_kind.specs.declared.span.Direction.TheVariants.{Up, Down};
ghost use Rattle.reg_kind.specs.Accesses.{IsAccess, place_behind};
ghost use Rattle.insn.specs.Instruction.{size_bytes};

use crate::place::Place;
use crate::span::{Direction, Span};
use insn::layout::Layout;
use insn::operation::{BinOp, Cond, Size, UnOp, Width};
use insn::state::Region;
use insn::verify_fault::WalkFault;
use range::domain::Domain;
use scalar::Scalar;

/// What a register holds.
#[derive(Clone, Copy)]
pub enum Reg {
    /// Nothing that may be read.
    Unset,
    /// One of some numbers.
    Number(Scalar),
    /// A pointer into the record.
    Record(Span),
    /// A pointer into the stack.
    Stack(Span),
}

impl Reg {
    /// One number alone.
    pub fn exact(n: u64) -> Reg
        ensures { IsKnownNumber result (Some (IsNumber n)) }
    {
        Reg::Number(Scalar::exact(n))
    }

    /// What is known where either is.
    pub fn join(a: Reg, b: Reg) -> Reg
        ensures both { IsRegJoin a b result }
        ensures kinds { IsKindJoin a b result }
    {
        match (a, b) {
            (Reg::Number(x), Reg::Number(y)) => Reg::Number(Scalar::join(x, y)),
            (Reg::Record(x), Reg::Record(y)) => Reg::Record(Span::join(x, y)),
            (Reg::Stack(x), Reg::Stack(y)) => Reg::Stack(Span::join(x, y)),
            _ => Reg::Unset,
        }
    }

    /// Whether what is known of another is known of it, and perhaps less.
    pub fn covers(&self, other: &Reg) -> bool
        ensures both { IsTrue result → IsRegJoin self.now other.now self.now }
        ensures kinds { IsTrue result → IsKindJoin self.now other.now self.now }
        ensures answer { IsKindCover self.now other.now result }
    {
        match (*self, *other) {
            (Reg::Unset, _) => true,
            (Reg::Number(x), Reg::Number(y)) => x.covers(y),
            (Reg::Record(x), Reg::Record(y)) | (Reg::Stack(x), Reg::Stack(y)) => x.covers(y),
            _ => false,
        }
    }

    /// A pointer to a span, where there is one.
    fn pointer(region: Region, span: Option<Span>) -> Result<Reg, WalkFault>
        ensures { result ≡ in_region region span }
    {
        match (region, span) {
            (Region::Record, Some(span)) => Ok(Reg::Record(span)),
            (Region::Stack, Some(span)) => Ok(Reg::Stack(span)),
            (_, None) => Err(WalkFault::PointerRange),
        }
    }

    /// A pointer moved up or down by a number.
    fn moved(
        layout: Layout,
        direction: Direction,
        region: Region,
        span: Span,
        by: Scalar,
    ) -> Result<Reg, WalkFault>
        ensures { IsMove direction layout region span by result }
    {
        Reg::pointer(region, span.moved(direction, region.size(layout), by))
    }

    /// The sum of two values.
    pub fn add(layout: Layout, a: Reg, b: Reg) -> Result<Reg, WalkFault>
        ensures { IsRegMove Up layout a b result }
    {
        match (a, b) {
            (Reg::Number(x), Reg::Number(y)) => {
                Ok(Reg::Number(Scalar::apply(BinOp::Add, Width::W64, x, y)))
            }
            (Reg::Record(span), Reg::Number(by)) | (Reg::Number(by), Reg::Record(span)) => {
                Reg::moved(layout, Direction::Up, Region::Record, span, by)
            }
            (Reg::Stack(span), Reg::Number(by)) | (Reg::Number(by), Reg::Stack(span)) => {
                Reg::moved(layout, Direction::Up, Region::Stack, span, by)
            }
            (Reg::Unset, _) | (_, Reg::Unset) => Err(WalkFault::UnsetRegister),
            _ => Err(WalkFault::PointerMisuse),
        }
    }

    /// The difference of two values.
    pub fn sub(layout: Layout, a: Reg, b: Reg) -> Result<Reg, WalkFault>
        ensures { IsRegMove Down layout a b result }
    {
        match (a, b) {
            (Reg::Number(x), Reg::Number(y)) => {
                Ok(Reg::Number(Scalar::apply(BinOp::Sub, Width::W64, x, y)))
            }
            (Reg::Record(span), Reg::Number(by)) => {
                Reg::moved(layout, Direction::Down, Region::Record, span, by)
            }
            (Reg::Stack(span), Reg::Number(by)) => {
                Reg::moved(layout, Direction::Down, Region::Stack, span, by)
            }
            (Reg::Unset, _) | (_, Reg::Unset) => Err(WalkFault::UnsetRegister),
            _ => Err(WalkFault::PointerMisuse),
        }
    }

    /// An operation on numbers alone.
    fn compute(op: BinOp, width: Width, a: Reg, b: Reg) -> Result<Reg, WalkFault>
        ensures { IsComputed width op a b result }
    {
        match (a, b) {
            (Reg::Number(x), Reg::Number(y)) => Ok(Reg::Number(Scalar::apply(op, width, x, y))),
            (Reg::Unset, _) | (_, Reg::Unset) => Err(WalkFault::UnsetRegister),
            _ => Err(WalkFault::PointerMisuse),
        }
    }

    /// A copy.
    fn copied(self) -> Result<Reg, WalkFault>
        ensures { result ≡ copy_of self }
    {
        match self {
            Reg::Unset => Err(WalkFault::UnsetRegister),
            _ => Ok(self),
        }
    }

    /// What an operation gives. A move doesn't look at its left operand.
    pub fn apply(layout: Layout, op: BinOp, width: Width, a: Reg, b: Reg) -> Result<Reg, WalkFault>
        ensures { IsKindResult layout width op a b result }
    {
        match (width, op) {
            (Width::W64, BinOp::Mov) => b.copied(),
            (Width::W32, BinOp::Mov) => {
                let zero = Reg::Number(Scalar::exact(0));
                Reg::compute(op, width, zero, b)
            },
            (Width::W64, BinOp::Add) => Reg::add(layout, a, b),
            (Width::W64, BinOp::Sub) => Reg::sub(layout, a, b),
            _ => Reg::compute(op, width, a, b),
        }
    }

    /// What an operation on one number gives.
    pub fn unary(op: UnOp, width: Width, a: Reg) -> Result<Reg, WalkFault>
        ensures { IsKindImage op width a result }
    {
        match a {
            Reg::Unset => Err(WalkFault::UnsetRegister),
            Reg::Number(x) => Ok(Reg::Number(Scalar::unary(op, width, x))),
            Reg::Record(_) | Reg::Stack(_) => Err(WalkFault::PointerMisuse),
        }
    }

    /// What two numbers can still be where a condition of them has this answer; `None` where it never has it.
    /// Registers of which one holds no number stay as they are.
    pub fn refine(cond: Cond, width: Width, a: Reg, b: Reg, taken: bool) -> Option<(Reg, Reg)>
        ensures right { IsRegRefined (record { cond = cond; width = width; taken = taken }) a b result }
        ensures kinds { IsKindRefined (record { cond = cond; width = width; taken = taken }) a b result }
    {
        let (Reg::Number(x), Reg::Number(y)) = (a, b) else {
            return Some((a, b));
        };
        let (left, right) = Scalar::refine(cond, width, x, y, taken)?;
        Some((Reg::Number(left), Reg::Number(right)))
    }

    /// Where an access of some bytes so far behind it begins.
    pub fn access(self, layout: Layout, offset: i16, size: Size) -> Result<Place, WalkFault>
        ensures kinds { result ≡ place_behind layout self offset (size_bytes size) }
        ensures right { IsAccess layout self offset size result }
    {
        match self {
            Reg::Unset => Err(WalkFault::UnsetRegister),
            Reg::Number(_) => Err(WalkFault::PointerMisuse),
            Reg::Record(span) => Place::behind(layout, Region::Record, span, offset, size),
            Reg::Stack(span) => Place::behind(layout, Region::Stack, span, offset, size),
        }
    }
}
