//! Operations on whole words, and on their low halves: the upper half of each of these results is 0.

ghost use Rattle.std.specs.Prelude.{◌≡◌};
ghost use Rattle.std.specs.Int.{w32};
ghost use Rattle.insn.specs.Word.{holds_in, result_in, word_holds, word_negated, word_result};

use crate::conversion::low_half;
use insn::operation::{BinOp, Cond, Width};

/// The result of an operation on two numbers of so many bits.
macro_rules! result_of {
    ($op:expr, $a:expr, $b:expr, $bits:literal) => {
        match $op {
            BinOp::Add => $a.wrapping_add($b),
            BinOp::Sub => $a.wrapping_sub($b),
            BinOp::Mul => $a.wrapping_mul($b),
            BinOp::Div => $a.checked_div($b).unwrap_or(0),
            BinOp::Sdiv => {
                if $b == 0 {
                    0
                } else {
                    $a.cast_signed().wrapping_div($b.cast_signed()).cast_unsigned()
                }
            }
            BinOp::Or => $a | $b,
            BinOp::And => $a & $b,
            BinOp::Lsh => $a << ($b % $bits),
            BinOp::Rsh => $a >> ($b % $bits),
            BinOp::Mod => $a.checked_rem($b).unwrap_or($a),
            BinOp::Smod => {
                if $b == 0 {
                    $a
                } else {
                    $a.cast_signed().wrapping_rem($b.cast_signed()).cast_unsigned()
                }
            }
            BinOp::Xor => $a ^ $b,
            BinOp::Mov => $b,
            BinOp::Arsh => ($a.cast_signed() >> ($b % $bits)).cast_unsigned(),
        }
    };
}

/// Whether a condition holds of two numbers.
macro_rules! is_met {
    ($cond:expr, $a:expr, $b:expr) => {
        match $cond {
            Cond::Eq => $a == $b,
            Cond::Gt => $a > $b,
            Cond::Ge => $a >= $b,
            Cond::Set => $a & $b != 0,
            Cond::Ne => $a != $b,
            Cond::Sgt => $a.cast_signed() > $b.cast_signed(),
            Cond::Sge => $a.cast_signed() >= $b.cast_signed(),
            Cond::Lt => $a < $b,
            Cond::Le => $a <= $b,
            Cond::Slt => $a.cast_signed() < $b.cast_signed(),
            Cond::Sle => $a.cast_signed() <= $b.cast_signed(),
        }
    };
}

/// The result of an operation on the low 32 bits of its operands (RFC 9669, section 4.1).
pub fn alu32(op: BinOp, a: u64, b: u64) -> u64
    ensures { result ≡ word_result Width.W32 op a b }
{
    u64::from(result_of_halves(op, low_half(a), low_half(b)))
}

fn result_of_halves(op: BinOp, a: u32, b: u32) -> u32
    ensures { result ≡ result_in w32 op a b }
{
    result_of!(op, a, b, 32)
}

/// The result of an operation on all 64 bits of its operands (RFC 9669, section 4.1).
pub fn alu64(op: BinOp, a: u64, b: u64) -> u64
    ensures { result ≡ word_result Width.W64 op a b }
{
    result_of!(op, a, b, 64)
}

/// The 32-bit number that added to the low half of a word gives 0.
pub fn neg32(a: u64) -> u64
    ensures { result ≡ word_negated Width.W32 a }
{
    u64::from(low_half(a).wrapping_neg())
}

/// The number that added to a word gives 0.
pub fn neg64(a: u64) -> u64
    ensures { result ≡ word_negated Width.W64 a }
{
    a.wrapping_neg()
}

/// Whether a condition holds of the low 32 bits of its operands (RFC 9669, section 4.3).
pub fn holds32(cond: Cond, a: u64, b: u64) -> bool
    ensures { result ≡ word_holds Width.W32 cond a b }
{
    is_met_by_halves(cond, low_half(a), low_half(b))
}

fn is_met_by_halves(cond: Cond, a: u32, b: u32) -> bool
    ensures { result ≡ holds_in w32 cond a b }
{
    is_met!(cond, a, b)
}

/// Whether a condition holds of all 64 bits of its operands (RFC 9669, section 4.3).
pub fn holds64(cond: Cond, a: u64, b: u64) -> bool
    ensures { result ≡ word_holds Width.W64 cond a b }
{
    is_met!(cond, a, b)
}
