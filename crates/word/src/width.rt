//! Operations on words, in the width that an instruction names.

ghost use Rattle.std.specs.Prelude.{◌≡◌};
ghost use Rattle.insn.specs.Word.{unary_result, word_holds, word_negated, word_result};

use crate::bits::{alu32, alu64, holds32, holds64, neg32, neg64};
use crate::conversion::{extend, swap};
use insn::operation::{BinOp, Cond, UnOp, Width};

/// The result of an operation (RFC 9669, section 4.1).
pub fn alu(width: Width, op: BinOp, a: u64, b: u64) -> u64
    ensures { result ≡ word_result width op a b }
{
    match width {
        Width::W32 => alu32(op, a, b),
        Width::W64 => alu64(op, a, b),
    }
}

/// The number that added to a word gives 0.
pub fn neg(width: Width, a: u64) -> u64
    ensures { result ≡ word_negated width a }
{
    match width {
        Width::W32 => neg32(a),
        Width::W64 => neg64(a),
    }
}

/// The result of an operation on one word (RFC 9669, sections 4.1 and 4.2).
pub fn unary(op: UnOp, width: Width, a: u64) -> u64
    ensures { result ≡ unary_result op width a }
{
    match op {
        UnOp::Neg => neg(width, a),
        UnOp::Swap(kind, bits) => swap(kind, bits, a),
        UnOp::Extend(bits) => extend(width, bits, a),
    }
}

/// Whether a condition holds (RFC 9669, section 4.3).
pub fn holds(width: Width, cond: Cond, a: u64, b: u64) -> bool
    ensures { result ≡ word_holds width cond a b }
{
    match width {
        Width::W32 => holds32(cond, a, b),
        Width::W64 => holds64(cond, a, b),
    }
}
