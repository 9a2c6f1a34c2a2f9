//! Instructions of which the distance to a label is left open.

ghost use Rattle.std.specs.Prelude.{◌≡◌, [], ◌∷◌, length, map};
ghost use Rattle.assembler.specs.Forms.{kinds_of};
ghost use Rattle.assembler.specs.Drafts.{draft_slots, jump_over, StatementDraft};
ghost use Rattle.assembler.specs.DraftsParts.{DraftOf, HasTarget, IsSource};
ghost use Rattle.assembly.specs.declared.mnemonic.Mnemonic.TheVariants as mnemonic;

use crate::form::{have_form, kinds};
use crate::operand::{distance, immediate, is_name, natural, offset, register};
use assembly::mnemonic::Mnemonic;
use insn::instruction::{Insn, Operand};
use insn::operation::{
    AluOp, Cond, Extension, SignedSize, Signedness, Size, SwapBits, SwapKind, Width,
};
use insn::register::RegNo;

/// A jump but for its distance.
#[derive(Clone, Copy, Debug, PartialEq, Eq)]
pub enum Jump {
    Always,
    Long,
    If(Width, Cond, RegNo, Operand),
}

impl Jump {
    /// The jump over so many slots.
    pub fn over(self, offset: i16) -> Insn
        ensures { result ≡ jump_over self offset }
    {
        match self {
            Jump::Always => Insn::Jump { offset },
            Jump::Long => Insn::JumpLong {
                offset: i32::from(offset),
            },
            Jump::If(Width::W64, cond, dst, Operand::Imm(imm)) => Insn::Jump64IfImm {
                cond,
                dst,
                offset,
                imm,
            },
            Jump::If(Width::W64, cond, dst, Operand::Reg(src)) => Insn::Jump64IfReg {
                cond,
                dst,
                src,
                offset,
            },
            Jump::If(Width::W32, cond, dst, Operand::Imm(imm)) => Insn::Jump32IfImm {
                cond,
                dst,
                offset,
                imm,
            },
            Jump::If(Width::W32, cond, dst, Operand::Reg(src)) => Insn::Jump32IfReg {
                cond,
                dst,
                src,
                offset,
            },
        }
    }
}

/// An instruction, or a jump to a label of this name.
#[derive(Clone, Copy)]
pub enum Draft<'a> {
    Whole(Insn),
    ToLabel(Jump, &'a [u8]),
}

impl<'a> Draft<'a> {
    /// How many slots it takes.
    pub fn slots(self) -> usize
        ensures { result ≡ draft_slots self.entry }
    {
        match self {
            Draft::Whole(insn) => insn.slots(),
            Draft::ToLabel(_, _) => 1,
        }
    }
}

/// What is wrong with the words of a line.
#[derive(Clone, Copy, Debug, PartialEq, Eq)]
pub enum WordFault {
    UnknownWord,
    BadOperand,
    OutOfRange,
}

/// The second operand of a word.
fn source(word: &[u8]) -> Option<Operand>
    ensures { IsSource word.now result }
{
    match register(word) {
        Some(src) => Some(Operand::Reg(src)),
        None => Some(Operand::Imm(immediate(word)?)),
    }
}

/// The jump to a target: a distance of 16 bits, or a label.
fn jump_to<'a>(jump: Jump, target: &'a [u8]) -> Option<Draft<'a>>
    ensures { HasTarget jump target.now result }
{
    if is_name(target) {
        return Some(Draft::ToLabel(jump, target));
    }
    let distance = distance(target)?;
    match i16::try_from(distance) {
        Ok(offset) => Some(Draft::Whole(jump.over(offset))),
        Err(_) => None,
    }
}

/// An operation of two operands.
fn alu<'a>(width: Width, op: AluOp, dst: &[u8], source: &[u8]) -> Option<Draft<'a>>
    ensures { DraftOf (mnemonic.Alu width op) (dst.now ∷ source.now ∷ []) result }
{
    let dst = register(dst)?;
    let source = self::source(source)?;
    let insn = match (width, source) {
        (Width::W64, Operand::Imm(imm)) => Insn::Alu64Imm { op, dst, imm },
        (Width::W64, Operand::Reg(src)) => Insn::Alu64Reg { op, dst, src },
        (Width::W32, Operand::Imm(imm)) => Insn::Alu32Imm { op, dst, imm },
        (Width::W32, Operand::Reg(src)) => Insn::Alu32Reg { op, dst, src },
    };
    Some(Draft::Whole(insn))
}

/// A division.
fn divide<'a>(width: Width, signedness: Signedness, dst: &[u8], operand: &[u8]) -> Option<Draft<'a>>
    ensures { DraftOf (mnemonic.Divide width signedness) (dst.now ∷ operand.now ∷ []) result }
{
    let dst = register(dst)?;
    let operand = source(operand)?;
    Some(Draft::Whole(Insn::Divide {
        width,
        signedness,
        dst,
        operand,
    }))
}

/// The remainder of a division.
fn remainder<'a>(
    width: Width,
    signedness: Signedness,
    dst: &[u8],
    operand: &[u8],
) -> Option<Draft<'a>>
    ensures { DraftOf (mnemonic.Remainder width signedness) (dst.now ∷ operand.now ∷ []) result }
{
    let dst = register(dst)?;
    let operand = source(operand)?;
    Some(Draft::Whole(Insn::Remainder {
        width,
        signedness,
        dst,
        operand,
    }))
}

/// A negation.
fn negate<'a>(width: Width, dst: &[u8]) -> Option<Draft<'a>>
    ensures { DraftOf (mnemonic.Negate width) (dst.now ∷ []) result }
{
    let dst = register(dst)?;
    Some(Draft::Whole(Insn::Negate { width, dst }))
}

/// A move with sign extension.
fn move_signed<'a>(extension: Extension, dst: &[u8], src: &[u8]) -> Option<Draft<'a>>
    ensures { DraftOf (mnemonic.MoveSigned extension) (dst.now ∷ src.now ∷ []) result }
{
    let dst = register(dst)?;
    let src = register(src)?;
    Some(Draft::Whole(Insn::MoveSigned {
        extension,
        dst,
        src,
    }))
}

/// A byte swap.
fn swap_bytes<'a>(kind: SwapKind, bits: SwapBits, dst: &[u8]) -> Option<Draft<'a>>
    ensures { DraftOf (mnemonic.SwapBytes kind bits) (dst.now ∷ []) result }
{
    let dst = register(dst)?;
    Some(Draft::Whole(Insn::SwapBytes { kind, bits, dst }))
}

/// A load of a number of 64 bits.
fn load_wide<'a>(dst: &[u8], value: &[u8]) -> Option<Draft<'a>>
    ensures { DraftOf mnemonic.LoadWide (dst.now ∷ value.now ∷ []) result }
{
    let dst = register(dst)?;
    let value = natural(value)?;
    Some(Draft::Whole(Insn::LoadWide { dst, value }))
}

/// A load.
fn load<'a>(size: Size, dst: &[u8], src: &[u8], offset: &[u8]) -> Option<Draft<'a>>
    ensures { DraftOf (mnemonic.Load size) (dst.now ∷ src.now ∷ offset.now ∷ []) result }
{
    let dst = register(dst)?;
    let src = register(src)?;
    let offset = self::offset(offset)?;
    Some(Draft::Whole(Insn::Load {
        size,
        dst,
        src,
        offset,
    }))
}

/// A load with sign extension.
fn load_signed<'a>(size: SignedSize, dst: &[u8], src: &[u8], offset: &[u8]) -> Option<Draft<'a>>
    ensures { DraftOf (mnemonic.LoadSigned size) (dst.now ∷ src.now ∷ offset.now ∷ []) result }
{
    let dst = register(dst)?;
    let src = register(src)?;
    let offset = self::offset(offset)?;
    Some(Draft::Whole(Insn::LoadSigned {
        size,
        dst,
        src,
        offset,
    }))
}

/// A store of a register.
fn store_reg<'a>(size: Size, dst: &[u8], offset: &[u8], src: &[u8]) -> Option<Draft<'a>>
    ensures { DraftOf (mnemonic.StoreReg size) (dst.now ∷ offset.now ∷ src.now ∷ []) result }
{
    let dst = register(dst)?;
    let offset = self::offset(offset)?;
    let src = register(src)?;
    Some(Draft::Whole(Insn::StoreReg {
        size,
        dst,
        src,
        offset,
    }))
}

/// A store of a number.
fn store_imm<'a>(size: Size, dst: &[u8], offset: &[u8], imm: &[u8]) -> Option<Draft<'a>>
    ensures { DraftOf (mnemonic.StoreImm size) (dst.now ∷ offset.now ∷ imm.now ∷ []) result }
{
    let dst = register(dst)?;
    let offset = self::offset(offset)?;
    let imm = immediate(imm)?;
    Some(Draft::Whole(Insn::StoreImm {
        size,
        dst,
        offset,
        imm,
    }))
}

/// A jump.
fn always<'a>(target: &'a [u8]) -> Option<Draft<'a>>
    ensures { DraftOf mnemonic.Jump (target.now ∷ []) result }
{
    jump_to(Jump::Always, target)
}

/// A jump whose distance has 32 bits.
fn jump_long<'a>(target: &'a [u8]) -> Option<Draft<'a>>
    ensures { DraftOf mnemonic.JumpLong (target.now ∷ []) result }
{
    if is_name(target) {
        return Some(Draft::ToLabel(Jump::Long, target));
    }
    let offset = distance(target)?;
    Some(Draft::Whole(Insn::JumpLong { offset }))
}

/// A jump where a condition holds.
fn jump_if<'a>(
    width: Width,
    cond: Cond,
    dst: &[u8],
    source: &[u8],
    target: &'a [u8],
) -> Option<Draft<'a>>
    ensures { DraftOf (mnemonic.JumpIf width cond) (dst.now ∷ source.now ∷ target.now ∷ []) result }
{
    let dst = register(dst)?;
    let source = self::source(source)?;
    jump_to(Jump::If(width, cond, dst, source), target)
}

/// What words behind a mnemonic say, where each number fits its field.
fn drafted<'a>(mnemonic: Mnemonic, words: &[&'a [u8]]) -> Option<Draft<'a>>
    requires { length words.now ≡ length (kinds_of mnemonic) }
    ensures { DraftOf mnemonic (map (λ word. word.now) words.now) result }
{
    match mnemonic {
        Mnemonic::Alu(width, op) => alu(width, op, words[0], words[1]),
        Mnemonic::Divide(width, signedness) => divide(width, signedness, words[0], words[1]),
        Mnemonic::Remainder(width, signedness) => remainder(width, signedness, words[0], words[1]),
        Mnemonic::Negate(width) => negate(width, words[0]),
        Mnemonic::MoveSigned(extension) => move_signed(extension, words[0], words[1]),
        Mnemonic::SwapBytes(kind, bits) => swap_bytes(kind, bits, words[0]),
        Mnemonic::LoadWide => load_wide(words[0], words[1]),
        Mnemonic::Load(size) => load(size, words[0], words[1], words[2]),
        Mnemonic::LoadSigned(size) => load_signed(size, words[0], words[1], words[2]),
        Mnemonic::StoreReg(size) => store_reg(size, words[0], words[1], words[2]),
        Mnemonic::StoreImm(size) => store_imm(size, words[0], words[1], words[2]),
        Mnemonic::Jump => always(words[0]),
        Mnemonic::JumpLong => jump_long(words[0]),
        Mnemonic::JumpIf(width, cond) => jump_if(width, cond, words[0], words[1], words[2]),
        Mnemonic::Exit => Some(Draft::Whole(Insn::Exit)),
    }
}

/// What the words of a line say, or what is wrong with them: the name first, then the form of the whole line, then
/// a number that does not fit.
pub fn statement<'a>(words: &[&'a [u8]]) -> Result<Draft<'a>, WordFault>
    ensures { StatementDraft (map (λ word. word.now) words.now) result }
{
    let Some((first, operands)) = words.split_first() else {
        return Err(WordFault::UnknownWord);
    };
    let Some(mnemonic) = Mnemonic::find(first) else {
        return Err(WordFault::UnknownWord);
    };
    if !have_form(kinds(mnemonic), operands) {
        return Err(WordFault::BadOperand);
    }
    match drafted(mnemonic, operands) {
        Some(draft) => Ok(draft),
        None => Err(WordFault::OutOfRange),
    }
}
