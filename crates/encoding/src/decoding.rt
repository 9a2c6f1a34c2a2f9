//! Programs from bytes.

ghost use Rattle.std.specs.Prelude.{◌≡◌, ◌≢◌, ◌/◌, ◌<◌, ◌≤◌, ◌⊎◌, List, [], ◌∷◌, IfOk, IfErr, MatchResult, true, false, pos};
ghost use Rattle.std.specs.Int.{w32, cast_signed};
ghost use Rattle.insn.specs.declared.instruction.Insn.{Insn};
ghost use Rattle.insn.specs.Instruction.{reg_number};
ghost use Rattle.encoding.specs.Spelling.{imm_opcode, jump_imm_opcode, jump_reg_opcode, load_opcode, load_signed_opcode, op_code, refused_as, reg_opcode, signedness_code, slot, slot_bytes, slots, store_imm_opcode, store_reg_opcode, swap_opcode, DIVIDE, EXIT, FirstInsnFault, IsWhole, JUMP, JUMP_LONG, LOAD_WIDE, NEGATE, REMAINDER, Spells};
ghost use Rattle.encoding.specs.Opcodes.{allows, code_row, cond_codes, op_codes, field_fault, fields_of, imm_fields, is_bad_second, memory_fields, move_offsets, reg_fields, slot_fault, uses, BeginsWith, IsRead, IsRow, OneOf, Unused, Used};

use crate::codes::{cond_of, op_of};
use crate::slot::Slot;
use crate::slot_fault::SlotFault;
use insn::fault::InsnFault;
use insn::instruction::{Insn, Operand};
use insn::operation::{AluOp, Extension, SignedSize, Signedness, Size, SwapBits, SwapKind, Width};
use insn::program::{MAX_SLOTS, Program};
use insn::register::RegNo;
use std::alloc::Global;

/// The register of a number.
fn register(number: u8) -> Result<RegNo, SlotFault>
    ensures { MatchResult result (λ r. (reg_number r ≡ number) × (number ≤ 10)) (λ f. (10 < number) × (f ≡ SlotFault.BadRegister)) }
{
    match RegNo::from_number(u64::from(number)) {
        Some(register) => Ok(register),
        None => Err(SlotFault::BadRegister),
    }
}

/// Refuses a slot of which a field is not zero that has to be.
fn only_if(zero: bool) -> Result<(), SlotFault>
    ensures { MatchResult result (λ _. zero ≡ true) (λ f. (zero ≡ false) × (f ≡ SlotFault.NonzeroField)) }
{
    if zero {
        Ok(())
    } else {
        Err(SlotFault::NonzeroField)
    }
}

/// How a division reads its operands.
fn signedness(offset: i16) -> Result<Signedness, SlotFault>
    ensures { MatchResult result (λ s. offset ≡ signedness_code s) (λ f. (allows (OneOf (0 ∷ 1 ∷ [])) offset ≡ false) × (f ≡ SlotFault.NonzeroField)) }
{
    match offset {
        0 => Ok(Signedness::Unsigned),
        1 => Ok(Signedness::Signed),
        _ => Err(SlotFault::NonzeroField),
    }
}

/// The instruction that a slot and the bytes behind it begin with, or what is wrong with it.
#[tactic(auto, unfolding(crate::specs::Opcodes::fields_of))]
fn insn_of(slot: Slot, behind: &[u8]) -> Result<Insn, SlotFault>
    ensures { MatchResult result (λ i. BeginsWith slot behind.now i) (λ f. slot_fault slot behind.now ≡ Some f) }
{
    match slot.opcode {
        0x18 => load_wide(slot, behind),
        0xc3 | 0xdb => Err(SlotFault::Atomic),
        0x85 => Err(SlotFault::Call),
        0x20 | 0x28 | 0x30 | 0x40 | 0x48 | 0x50 => Err(SlotFault::LegacyLoad),
        _ => one_slot(slot),
    }
}

/// The upper half of a wide load's number, which its second slot holds.
fn upper_half(second: &[u8; 8]) -> Result<u32, SlotFault>
    ensures found { IfOk result (λ upper. slot_bytes (slot 0 0 0 (pos 0) (cast_signed w32 upper)) ≡ second.now) }
    ensures fault { IfErr result (λ f. (is_bad_second second.now ≡ true) × (f ≡ SlotFault.NonzeroField)) }
{
    let second = Slot::from_bytes(second);
    only_if(second.opcode == 0 && second.dst == 0 && second.src == 0 && second.offset == 0)?;
    Ok(second.imm.cast_unsigned())
}

/// The load of a 64-bit number, whose upper half is in the second slot.
#[tactic(auto, unfolding(crate::specs::Opcodes::fields_of))]
fn load_wide(slot: Slot, behind: &[u8]) -> Result<Insn, SlotFault>
    requires { slot.opcode ≡ LOAD_WIDE }
    ensures { MatchResult result (λ i. BeginsWith slot behind.now i) (λ f. slot_fault slot behind.now ≡ Some f) }
{
    let Some(second) = behind.first_chunk::<8>() else {
        return Err(SlotFault::TruncatedWide);
    };
    let dst = register(slot.dst)?;
    only_if(slot.src == 0 && slot.offset == 0)?;
    let upper = upper_half(second)?;
    let lower = slot.imm.cast_unsigned();
    let value = u64::from(upper) * 0x1_0000_0000 + u64::from(lower);
    Ok(Insn::LoadWide { dst, value })
}

/// The instruction of one slot, by its opcode: those that stand alone, and then by its low half.
#[tactic(auto, unfolding(crate::specs::Opcodes::fields_of))]
fn one_slot(slot: Slot) -> Result<Insn, SlotFault>
    requires one { slot.opcode ≢ LOAD_WIDE }
    requires read { refused_as slot.opcode ≡ SlotFault.UnknownOpcode }
    ensures { IsRead result slot (slot_fault slot []) }
{
    match slot.opcode {
        0x05 => jump(slot),
        0x06 => jump_long(slot),
        0x95 => exit(slot),
        _ => by_low_half(slot),
    }
}

/// The instruction of one slot, by the low half of its opcode.
#[tactic(auto, using(crate::proofs::Spellings::by_class), unfolding(crate::specs::Opcodes::fields_of))]
fn by_low_half(slot: Slot) -> Result<Insn, SlotFault>
    requires alone { (slot.opcode ≢ LOAD_WIDE) × (slot.opcode ≢ JUMP) × (slot.opcode ≢ JUMP_LONG) × (slot.opcode ≢ EXIT) }
    requires read { refused_as slot.opcode ≡ SlotFault.UnknownOpcode }
    ensures { IsRead result slot (slot_fault slot []) }
{
    match slot.opcode % 16 {
        0x4 => operation_imm(Width::W32, slot),
        0x7 => operation_imm(Width::W64, slot),
        0xc => operation_reg(Width::W32, slot),
        0xf => operation_reg(Width::W64, slot),
        0x6 => jump_if_imm(Width::W32, slot),
        0x5 => jump_if_imm(Width::W64, slot),
        0xe => jump_if_reg(Width::W32, slot),
        0xd => jump_if_reg(Width::W64, slot),
        _ => memory(slot),
    }
}

/// An operation on a register and a number, by the high half of its opcode.
fn operation_imm(width: Width, slot: Slot) -> Result<Insn, SlotFault>
    requires { IsRow slot (imm_opcode width) imm_fields }
    ensures { IsRead result slot (slot_fault slot []) }
{
    match slot.opcode / 16 {
        0x3 | 0x9 => divide_imm(width, slot),
        0x8 => negate(width, slot),
        0xd => match width {
            Width::W32 => swap_bytes(SwapKind::ToLittle, slot),
            Width::W64 => swap_bytes(SwapKind::Swap, slot),
        },
        _ => alu_imm(width, slot),
    }
}

/// An operation on two registers, by the high half of its opcode; a byte swap stands among them.
fn operation_reg(width: Width, slot: Slot) -> Result<Insn, SlotFault>
    requires { IsRow slot (reg_opcode width) (reg_fields width) }
    ensures { IsRead result slot (slot_fault slot []) }
{
    match slot.opcode / 16 {
        0x3 | 0x9 => divide_reg(width, slot),
        0xb => move_reg(width, slot),
        0xd => match width {
            Width::W32 => swap_bytes(SwapKind::ToBig, slot),
            Width::W64 => Err(SlotFault::UnknownOpcode),
        },
        _ => alu_reg(width, slot),
    }
}

/// A load or a store, by its opcode.
fn memory(slot: Slot) -> Result<Insn, SlotFault>
    requires class { fields_of slot.opcode ≡ memory_fields slot.opcode }
    requires read { refused_as slot.opcode ≡ SlotFault.UnknownOpcode }
    ensures { IsRead result slot (slot_fault slot []) }
{
    match slot.opcode {
        0x71 => load(Size::One, slot),
        0x69 => load(Size::Two, slot),
        0x61 => load(Size::Four, slot),
        0x79 => load(Size::Eight, slot),
        0x73 => store_reg(Size::One, slot),
        0x6b => store_reg(Size::Two, slot),
        0x63 => store_reg(Size::Four, slot),
        0x7b => store_reg(Size::Eight, slot),
        0x72 => store_imm(Size::One, slot),
        0x6a => store_imm(Size::Two, slot),
        0x62 => store_imm(Size::Four, slot),
        0x7a => store_imm(Size::Eight, slot),
        0x91 => load_signed(SignedSize::One, slot),
        0x89 => load_signed(SignedSize::Two, slot),
        0x81 => load_signed(SignedSize::Four, slot),
        _ => Err(SlotFault::UnknownOpcode),
    }
}

/// An operation on a register and a number.
fn alu_imm(width: Width, slot: Slot) -> Result<Insn, SlotFault>
    requires { IsRow slot (imm_opcode width) (code_row op_codes (uses Used Unused Unused Used)) }
    ensures { IsRead result slot (slot_fault slot []) }
{
    let Some(op) = op_of(slot.opcode / 16) else {
        return Err(SlotFault::UnknownOpcode);
    };
    let dst = register(slot.dst)?;
    only_if(slot.src == 0 && slot.offset == 0)?;
    let imm = slot.imm;
    match width {
        Width::W32 => Ok(Insn::Alu32Imm { op, dst, imm }),
        Width::W64 => Ok(Insn::Alu64Imm { op, dst, imm }),
    }
}

/// An operation on two registers, but a move.
fn alu_reg(width: Width, slot: Slot) -> Result<Insn, SlotFault>
    requires { IsRow slot (reg_opcode width) (code_row op_codes (uses Used Used Unused Unused)) }
    ensures { IsRead result slot (slot_fault slot []) }
{
    let Some(op) = op_of(slot.opcode / 16) else {
        return Err(SlotFault::UnknownOpcode);
    };
    let dst = register(slot.dst)?;
    let src = register(slot.src)?;
    only_if(slot.offset == 0)?;
    only_if(slot.imm == 0)?;
    match width {
        Width::W32 => Ok(Insn::Alu32Reg { op, dst, src }),
        Width::W64 => Ok(Insn::Alu64Reg { op, dst, src }),
    }
}

/// A move of a register, with sign extension or without.
fn move_reg(width: Width, slot: Slot) -> Result<Insn, SlotFault>
    requires { slot.opcode ≡ reg_opcode width (op_code AluOp.Mov) }
    ensures { IsRead result slot (field_fault (uses Used Used (OneOf (move_offsets width)) Unused) slot) }
{
    let dst = register(slot.dst)?;
    let src = register(slot.src)?;
    only_if(slot.imm == 0)?;
    let op = AluOp::Mov;
    let extension = match (width, slot.offset) {
        (Width::W32, 0) => return Ok(Insn::Alu32Reg { op, dst, src }),
        (Width::W64, 0) => return Ok(Insn::Alu64Reg { op, dst, src }),
        (Width::W32, 8) => Extension::From8To32,
        (Width::W32, 16) => Extension::From16To32,
        (Width::W64, 8) => Extension::From8To64,
        (Width::W64, 16) => Extension::From16To64,
        (Width::W64, 32) => Extension::From32To64,
        _ => return Err(SlotFault::NonzeroField),
    };
    Ok(Insn::MoveSigned {
        extension,
        dst,
        src,
    })
}

/// A division by a number, or its remainder.
fn divide_imm(width: Width, slot: Slot) -> Result<Insn, SlotFault>
    requires { (slot.opcode ≡ imm_opcode width DIVIDE) ⊎ (slot.opcode ≡ imm_opcode width REMAINDER) }
    ensures { IsRead result slot (field_fault (uses Used Unused (OneOf (0 ∷ 1 ∷ [])) Used) slot) }
{
    let dst = register(slot.dst)?;
    only_if(slot.src == 0)?;
    let signedness = signedness(slot.offset)?;
    let operand = Operand::Imm(slot.imm);
    match slot.opcode / 16 {
        0x3 => Ok(Insn::Divide {
            width,
            signedness,
            dst,
            operand,
        }),
        _ => Ok(Insn::Remainder {
            width,
            signedness,
            dst,
            operand,
        }),
    }
}

/// A division by a register, or its remainder.
fn divide_reg(width: Width, slot: Slot) -> Result<Insn, SlotFault>
    requires { (slot.opcode ≡ reg_opcode width DIVIDE) ⊎ (slot.opcode ≡ reg_opcode width REMAINDER) }
    ensures { IsRead result slot (field_fault (uses Used Used (OneOf (0 ∷ 1 ∷ [])) Unused) slot) }
{
    let dst = register(slot.dst)?;
    let operand = Operand::Reg(register(slot.src)?);
    only_if(slot.imm == 0)?;
    let signedness = signedness(slot.offset)?;
    match slot.opcode / 16 {
        0x3 => Ok(Insn::Divide {
            width,
            signedness,
            dst,
            operand,
        }),
        _ => Ok(Insn::Remainder {
            width,
            signedness,
            dst,
            operand,
        }),
    }
}

/// A negation.
fn negate(width: Width, slot: Slot) -> Result<Insn, SlotFault>
    requires { slot.opcode ≡ imm_opcode width NEGATE }
    ensures { IsRead result slot (field_fault (uses Used Unused Unused Unused) slot) }
{
    let dst = register(slot.dst)?;
    only_if(slot.src == 0 && slot.offset == 0 && slot.imm == 0)?;
    Ok(Insn::Negate { width, dst })
}

/// A byte swap.
fn swap_bytes(kind: SwapKind, slot: Slot) -> Result<Insn, SlotFault>
    requires { slot.opcode ≡ swap_opcode kind }
    ensures { IsRead result slot (field_fault (uses Used Unused Unused (OneOf (16 ∷ 32 ∷ 64 ∷ []))) slot) }
{
    let dst = register(slot.dst)?;
    only_if(slot.src == 0 && slot.offset == 0)?;
    let bits = match slot.imm {
        16 => SwapBits::B16,
        32 => SwapBits::B32,
        64 => SwapBits::B64,
        _ => return Err(SlotFault::NonzeroField),
    };
    Ok(Insn::SwapBytes { kind, bits, dst })
}

/// A load.
fn load(size: Size, slot: Slot) -> Result<Insn, SlotFault>
    requires { slot.opcode ≡ load_opcode size }
    ensures { IsRead result slot (field_fault (uses Used Used Used Unused) slot) }
{
    let dst = register(slot.dst)?;
    let src = register(slot.src)?;
    only_if(slot.imm == 0)?;
    Ok(Insn::Load {
        size,
        dst,
        src,
        offset: slot.offset,
    })
}

/// A load with sign extension.
fn load_signed(size: SignedSize, slot: Slot) -> Result<Insn, SlotFault>
    requires { slot.opcode ≡ load_signed_opcode size }
    ensures { IsRead result slot (field_fault (uses Used Used Used Unused) slot) }
{
    let dst = register(slot.dst)?;
    let src = register(slot.src)?;
    only_if(slot.imm == 0)?;
    Ok(Insn::LoadSigned {
        size,
        dst,
        src,
        offset: slot.offset,
    })
}

/// A store of a register.
fn store_reg(size: Size, slot: Slot) -> Result<Insn, SlotFault>
    requires { slot.opcode ≡ store_reg_opcode size }
    ensures { IsRead result slot (field_fault (uses Used Used Used Unused) slot) }
{
    let dst = register(slot.dst)?;
    let src = register(slot.src)?;
    only_if(slot.imm == 0)?;
    Ok(Insn::StoreReg {
        size,
        dst,
        src,
        offset: slot.offset,
    })
}

/// A store of a number.
fn store_imm(size: Size, slot: Slot) -> Result<Insn, SlotFault>
    requires { slot.opcode ≡ store_imm_opcode size }
    ensures { IsRead result slot (field_fault (uses Used Unused Used Used) slot) }
{
    let dst = register(slot.dst)?;
    only_if(slot.src == 0)?;
    Ok(Insn::StoreImm {
        size,
        dst,
        offset: slot.offset,
        imm: slot.imm,
    })
}

/// A jump.
fn jump(slot: Slot) -> Result<Insn, SlotFault>
    requires { slot.opcode ≡ JUMP }
    ensures { IsRead result slot (field_fault (uses Unused Unused Used Unused) slot) }
{
    only_if(slot.dst == 0 && slot.src == 0 && slot.imm == 0)?;
    let offset = slot.offset;
    Ok(Insn::Jump { offset })
}

/// A jump whose distance has 32 bits.
fn jump_long(slot: Slot) -> Result<Insn, SlotFault>
    requires { slot.opcode ≡ JUMP_LONG }
    ensures { IsRead result slot (field_fault (uses Unused Unused Unused Used) slot) }
{
    only_if(slot.dst == 0 && slot.src == 0 && slot.offset == 0)?;
    let offset = slot.imm;
    Ok(Insn::JumpLong { offset })
}

/// The program's end.
fn exit(slot: Slot) -> Result<Insn, SlotFault>
    requires { slot.opcode ≡ EXIT }
    ensures { IsRead result slot (field_fault (uses Unused Unused Unused Unused) slot) }
{
    only_if(slot.dst == 0 && slot.src == 0 && slot.offset == 0 && slot.imm == 0)?;
    Ok(Insn::Exit)
}

/// A jump where a condition holds of a register and a number.
fn jump_if_imm(width: Width, slot: Slot) -> Result<Insn, SlotFault>
    requires { IsRow slot (jump_imm_opcode width) (code_row cond_codes (uses Used Unused Used Used)) }
    ensures { IsRead result slot (slot_fault slot []) }
{
    let Some(cond) = cond_of(slot.opcode / 16) else {
        return Err(SlotFault::UnknownOpcode);
    };
    let dst = register(slot.dst)?;
    only_if(slot.src == 0)?;
    let offset = slot.offset;
    let imm = slot.imm;
    match width {
        Width::W32 => Ok(Insn::Jump32IfImm {
            cond,
            dst,
            offset,
            imm,
        }),
        Width::W64 => Ok(Insn::Jump64IfImm {
            cond,
            dst,
            offset,
            imm,
        }),
    }
}

/// A jump where a condition holds of two registers.
fn jump_if_reg(width: Width, slot: Slot) -> Result<Insn, SlotFault>
    requires { IsRow slot (jump_reg_opcode width) (code_row cond_codes (uses Used Used Used Unused)) }
    ensures { IsRead result slot (slot_fault slot []) }
{
    let Some(cond) = cond_of(slot.opcode / 16) else {
        return Err(SlotFault::UnknownOpcode);
    };
    let dst = register(slot.dst)?;
    let src = register(slot.src)?;
    only_if(slot.imm == 0)?;
    let offset = slot.offset;
    match width {
        Width::W32 => Ok(Insn::Jump32IfReg {
            cond,
            dst,
            src,
            offset,
        }),
        Width::W64 => Ok(Insn::Jump64IfReg {
            cond,
            dst,
            src,
            offset,
        }),
    }
}

/// The instructions that bytes spell, one after the other.
fn insns_of(alloc: Global, bytes: &[u8]) -> Result<Vec<Insn>, InsnFault>
    requires { IsWhole bytes.now }
    ensures found { IfOk result (λ insns. Spells bytes.now insns.items) }
    ensures fault { IfErr result (FirstInsnFault bytes.now) }
{
    let mut insns = Vec::new(alloc);
    let mut rest = bytes;
    let mut at = 0;
    while let Some((first, behind)) = rest.split_first_chunk::<8>() {
        let insn = match insn_of(Slot::from_bytes(first), behind) {
            Ok(insn) => insn,
            Err(fault) => return Err(fault.at(at)),
        };
        let count = insn.slots();
        insns.push(insn)?;
        at += count;
        let (_, after) = behind.split_at(8 * (count - 1));
        rest = after;
    }
    Ok(insns)
}

/// The program that bytes spell, or their first fault.
fn decoded(alloc: Global, bytes: &[u8]) -> Result<Program, InsnFault>
    ensures found { IfOk result (λ program. Spells bytes.now program) }
    ensures fault { IfErr result (FirstInsnFault bytes.now) }
{
    if bytes.is_empty() {
        return Err(InsnFault::Empty);
    }
    if bytes.len() % 8 != 0 {
        return Err(InsnFault::BadLength);
    }
    if bytes.len() / 8 > MAX_SLOTS {
        return Err(InsnFault::TooLong);
    }
    let insns = insns_of(alloc, bytes)?;
    match Program::new(insns) {
        Ok(program) => Ok(program),
        Err((_, fault)) => Err(fault),
    }
}

/// The program that bytes spell, or their first fault: none, a length that is no multiple of 8, too many, and then
/// the first faulty instruction. The bytes are RFC 9669's little-endian form.
#[tactic(auto, using(crate::proofs::Reading::only_err))]
pub fn decode(alloc: Global, bytes: &[u8]) -> Result<Program, InsnFault>
    ensures found { IfOk result (λ program. Spells bytes.now program) }
    ensures fault { IfErr result (FirstInsnFault bytes.now) }
    // What is spelled is answered, unless memory is refused.
    ensures only { IfErr result (λ f. (program : List Insn) → Spells bytes.now program → f ≡ InsnFault.Memory) }
{
    decoded(alloc, bytes)
}
