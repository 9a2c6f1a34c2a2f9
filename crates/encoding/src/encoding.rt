//! Programs to bytes.

ghost use Rattle.std.specs.Prelude.{◌≡◌, ◌<◌, ◌++◌, ◌∷◌, IfOk, IfSome, OnOk};
ghost use Rattle.std.specs.List.{flat_map};
ghost use Rattle.std.specs.Option.{option_to_list};
ghost use Rattle.encoding.specs.Spelling.{first_slot as spec_first, imm_opcode as spec_imm, reg_opcode as spec_reg, slot_bytes, slots, IsSlot, Spells};

use crate::codes::{cond_code, op_code, size_code};
use crate::slot::Slot;
use insn::instruction::{Insn, Operand};
use insn::operation::{AluOp, Width};
use insn::program::Program;
use std::alloc::{AllocError, Global};

/// The opcode of an operation on a register and a number, whose high half is `code`.
fn imm_opcode(width: Width, code: u8) -> u8
    requires { code < 16 }
    ensures { result ≡ spec_imm width code }
{
    match width {
        Width::W32 => 0x04 + 16 * code,
        Width::W64 => 0x07 + 16 * code,
    }
}

/// The opcode of an operation on two registers, whose high half is `code`.
fn reg_opcode(width: Width, code: u8) -> u8
    requires { code < 16 }
    ensures { result ≡ spec_reg width code }
{
    match width {
        Width::W32 => 0x0c + 16 * code,
        Width::W64 => 0x0f + 16 * code,
    }
}

/// The opcode of an instruction.
fn opcode(insn: Insn) -> u8
    ensures { result ≡ (spec_first insn).opcode }
{
    match insn {
        Insn::Alu64Imm { op, .. } => 0x07 + 16 * op_code(op),
        Insn::Alu64Reg { op, .. } => 0x0f + 16 * op_code(op),
        Insn::Alu32Imm { op, .. } => 0x04 + 16 * op_code(op),
        Insn::Alu32Reg { op, .. } => 0x0c + 16 * op_code(op),
        Insn::Divide { width, operand, .. } => match operand {
            Operand::Imm(_) => imm_opcode(width, 0x3),
            Operand::Reg(_) => reg_opcode(width, 0x3),
        },
        Insn::Remainder { width, operand, .. } => match operand {
            Operand::Imm(_) => imm_opcode(width, 0x9),
            Operand::Reg(_) => reg_opcode(width, 0x9),
        },
        Insn::Negate { width, .. } => imm_opcode(width, 0x8),
        Insn::MoveSigned { extension, .. } => reg_opcode(extension.width(), op_code(AluOp::Mov)),
        Insn::SwapBytes { kind, .. } => kind as u8,
        Insn::LoadWide { .. } => 0x18,
        Insn::Load { size, .. } => 0x61 + size_code(size),
        Insn::LoadSigned { size, .. } => 0x81 + size_code(size.size()),
        Insn::StoreReg { size, .. } => 0x63 + size_code(size),
        Insn::StoreImm { size, .. } => 0x62 + size_code(size),
        Insn::Jump { .. } => 0x05,
        Insn::JumpLong { .. } => 0x06,
        Insn::Jump64IfImm { cond, .. } => 0x05 + 16 * cond_code(cond),
        Insn::Jump64IfReg { cond, .. } => 0x0d + 16 * cond_code(cond),
        Insn::Jump32IfImm { cond, .. } => 0x06 + 16 * cond_code(cond),
        Insn::Jump32IfReg { cond, .. } => 0x0e + 16 * cond_code(cond),
        Insn::Exit => 0x95,
    }
}

/// The number of the register that an instruction works on.
fn dst(insn: Insn) -> usize
    ensures value { result ≡ (spec_first insn).dst }
    ensures in_range { result < 16 }
{
    match insn {
        Insn::Jump { .. } | Insn::JumpLong { .. } | Insn::Exit => 0,
        Insn::Alu64Imm { dst, .. }
        | Insn::Alu64Reg { dst, .. }
        | Insn::Alu32Imm { dst, .. }
        | Insn::Alu32Reg { dst, .. }
        | Insn::Divide { dst, .. }
        | Insn::Remainder { dst, .. }
        | Insn::Negate { dst, .. }
        | Insn::MoveSigned { dst, .. }
        | Insn::SwapBytes { dst, .. }
        | Insn::LoadWide { dst, .. }
        | Insn::Load { dst, .. }
        | Insn::LoadSigned { dst, .. }
        | Insn::StoreReg { dst, .. }
        | Insn::StoreImm { dst, .. }
        | Insn::Jump64IfImm { dst, .. }
        | Insn::Jump64IfReg { dst, .. }
        | Insn::Jump32IfImm { dst, .. }
        | Insn::Jump32IfReg { dst, .. } => dst.number(),
    }
}

/// The number of the register that an instruction reads beside it.
fn src(insn: Insn) -> usize
    ensures value { result ≡ (spec_first insn).src }
    ensures in_range { result < 16 }
{
    match insn {
        Insn::Alu64Reg { src, .. }
        | Insn::Alu32Reg { src, .. }
        | Insn::MoveSigned { src, .. }
        | Insn::Load { src, .. }
        | Insn::LoadSigned { src, .. }
        | Insn::StoreReg { src, .. }
        | Insn::Jump64IfReg { src, .. }
        | Insn::Jump32IfReg { src, .. } => src.number(),
        Insn::Divide { operand, .. } | Insn::Remainder { operand, .. } => match operand {
            Operand::Reg(src) => src.number(),
            Operand::Imm(_) => 0,
        },
        _ => 0,
    }
}

/// The offset of a load, a store or a jump, and what stands in its place elsewhere.
fn offset(insn: Insn) -> i16
    ensures { result ≡ (spec_first insn).offset }
{
    match insn {
        Insn::Divide { signedness, .. } | Insn::Remainder { signedness, .. } => signedness as i16,
        Insn::MoveSigned { extension, .. } => extension.bits() as i16,
        Insn::Load { offset, .. } => offset,
        Insn::LoadSigned { offset, .. } => offset,
        Insn::StoreReg { offset, .. } => offset,
        Insn::StoreImm { offset, .. } => offset,
        Insn::Jump { offset } => offset,
        Insn::Jump64IfImm { offset, .. } => offset,
        Insn::Jump64IfReg { offset, .. } => offset,
        Insn::Jump32IfImm { offset, .. } => offset,
        Insn::Jump32IfReg { offset, .. } => offset,
        _ => 0,
    }
}

/// The number that an instruction holds, and of a wide load's the lower half.
fn imm(insn: Insn) -> i32
    ensures { result ≡ (spec_first insn).imm }
{
    match insn {
        Insn::Alu64Imm { imm, .. } => imm,
        Insn::Alu32Imm { imm, .. } => imm,
        Insn::StoreImm { imm, .. } => imm,
        Insn::Jump64IfImm { imm, .. } => imm,
        Insn::Jump32IfImm { imm, .. } => imm,
        Insn::Divide { operand, .. } | Insn::Remainder { operand, .. } => match operand {
            Operand::Imm(imm) => imm,
            Operand::Reg(_) => 0,
        },
        Insn::SwapBytes { bits, .. } => bits as i32,
        Insn::LoadWide { value, .. } => ((value % 0x1_0000_0000) as u32).cast_signed(),
        Insn::JumpLong { offset } => offset,
        _ => 0,
    }
}

/// The first slot of an instruction.
fn first_slot(insn: Insn) -> Slot
    ensures value { result ≡ spec_first insn }
    ensures sizes { IsSlot result }
{
    Slot {
        opcode: opcode(insn),
        dst: dst(insn) as u8,
        src: src(insn) as u8,
        offset: offset(insn),
        imm: imm(insn),
    }
}

/// The second slot, which a wide load alone has: it holds the upper half of the number.
fn second_slot(insn: Insn) -> Option<Slot>
    ensures value { slots insn ≡ spec_first insn ∷ option_to_list result }
    ensures sizes { IfSome result (λ s. IsSlot s) }
{
    let Insn::LoadWide { value, .. } = insn else {
        return None;
    };
    let upper = (value / 0x1_0000_0000) as u32;
    Some(Slot {
        opcode: 0,
        dst: 0,
        src: 0,
        offset: 0,
        imm: upper.cast_signed(),
    })
}

/// Writes an instruction's bytes behind others.
fn push_insn(bytes: &mut Vec<u8>, insn: Insn) -> Result<(), AllocError>
    ensures { OnOk result (bytes.new.items ≡ bytes.old.items ++ flat_map slot_bytes (slots insn)) }
{
    bytes.extend_from_slice(&first_slot(insn).to_bytes())?;
    if let Some(second) = second_slot(insn) {
        bytes.extend_from_slice(&second.to_bytes())?;
    }
    Ok(())
}

/// The bytes of a program, in RFC 9669's little-endian form. `decode` reads the program back from them, since no bytes
/// spell two programs.
pub fn encode(alloc: Global, program: &Program) -> Result<Vec<u8>, AllocError>
    ensures { IfOk result (λ bytes. Spells bytes.items program.now) }
{
    let mut bytes = Vec::new(alloc);
    for insn in program.insns() {
        push_insn(&mut bytes, *insn)?;
    }
    Ok(bytes)
}
