//! Operations on values: words and pointers.

ghost use Rattle.std.specs.Prelude.{◌≡◌};
ghost use Rattle.insn.specs.Effects.{word_of};
ghost use Rattle.insn.specs.Arithmetic.{moved_pointer as spec_moved};
ghost use Rattle.insn.specs.Outcomes.{operation_result as spec_result, passed};

use insn::layout::Layout;
use insn::operation::{BinOp, Width};
use insn::state::{Pointer, Value};
use word::alu;

/// A number that an instruction holds, as a word.
pub fn immediate(imm: i32) -> Value
    ensures { result ≡ word_of imm }
{
    Value::Number(i64::from(imm).cast_unsigned())
}

/// A pointer moved to an offset, where that is in its region or one past its end.
fn moved_pointer(layout: Layout, pointer: Pointer, to: u64) -> Option<Value>
    ensures { result ≡ spec_moved layout pointer to }
{
    if to <= pointer.region.size(layout) as u64 {
        Some(Value::Address(Pointer {
            region: pointer.region,
            offset: to as u16,
        }))
    } else {
        None
    }
}

/// The result of an operation on what its left operand and its right one hold, where it has one.
pub fn operation_result(
    layout: Layout,
    width: Width,
    op: BinOp,
    left: Option<Value>,
    right: Option<Value>,
) -> Option<Value>
    ensures { result ≡ passed (spec_result layout width op left right) }
{
    match (width, op, left?, right?) {
        (_, _, Value::Number(a), Value::Number(b)) => Some(Value::Number(alu(width, op, a, b))),
        (Width::W64, BinOp::Mov, Value::Number(_), Value::Address(_)) => right,
        (Width::W64, BinOp::Add, Value::Address(p), Value::Number(n))
        | (Width::W64, BinOp::Add, Value::Number(n), Value::Address(p)) => {
            moved_pointer(layout, p, u64::from(p.offset).wrapping_add(n))
        }
        (Width::W64, BinOp::Sub, Value::Address(p), Value::Number(n)) => {
            moved_pointer(layout, p, u64::from(p.offset).wrapping_sub(n))
        }
        _ => None,
    }
}
