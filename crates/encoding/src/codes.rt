//! The codes of operations, conditions and sizes within opcodes.

ghost use Rattle.std.specs.Prelude.{◌≡◌, ◌<◌, IfSome, None, true, false};
ghost use Rattle.encoding.specs.Spelling.{cond_code as spec_cond, is_one_of, op_code as spec_op, size_code as spec_size};
ghost use Rattle.encoding.specs.Opcodes.{cond_codes, op_codes};

use insn::operation::{AluOp, Cond, Size};

/// The high half of an operation's opcodes.
pub fn op_code(op: AluOp) -> u8
    ensures value { result ≡ spec_op op }
    ensures in_range { result < 16 }
{
    op as u8
}

/// The operation whose code this is.
pub fn op_of(code: u8) -> Option<AluOp>
    ensures found { IfSome result (λ o. (spec_op o ≡ code) × (is_one_of op_codes code ≡ true)) }
    ensures none { result ≡ None → is_one_of op_codes code ≡ false }
{
    match code {
        0x0 => Some(AluOp::Add),
        0x1 => Some(AluOp::Sub),
        0x2 => Some(AluOp::Mul),
        0x4 => Some(AluOp::Or),
        0x5 => Some(AluOp::And),
        0x6 => Some(AluOp::Lsh),
        0x7 => Some(AluOp::Rsh),
        0xa => Some(AluOp::Xor),
        0xb => Some(AluOp::Mov),
        0xc => Some(AluOp::Arsh),
        _ => None,
    }
}

/// The high half of the opcodes of a condition's jumps.
pub fn cond_code(cond: Cond) -> u8
    ensures value { result ≡ spec_cond cond }
    ensures in_range { result < 16 }
{
    cond as u8
}

/// The condition whose code this is.
pub fn cond_of(code: u8) -> Option<Cond>
    ensures found { IfSome result (λ o. (spec_cond o ≡ code) × (is_one_of cond_codes code ≡ true)) }
    ensures none { result ≡ None → is_one_of cond_codes code ≡ false }
{
    match code {
        0x1 => Some(Cond::Eq),
        0x2 => Some(Cond::Gt),
        0x3 => Some(Cond::Ge),
        0x4 => Some(Cond::Set),
        0x5 => Some(Cond::Ne),
        0x6 => Some(Cond::Sgt),
        0x7 => Some(Cond::Sge),
        0xa => Some(Cond::Lt),
        0xb => Some(Cond::Le),
        0xc => Some(Cond::Slt),
        0xd => Some(Cond::Sle),
        _ => None,
    }
}

/// What a size adds to an opcode.
pub fn size_code(size: Size) -> u8
    ensures value { result ≡ spec_size size }
    ensures in_range { result < 32 }
{
    size as u8
}
