//! The first words of instructions in the assembly language.

ghost use Rattle.std.specs.Prelude.{◌≡◌, ◌≢◌, ◌↔◌, ◌++◌, All, IsTrue, IfSome, IfNone, Some};
ghost use Rattle.assembly.specs.Text.{mnemonic_name, mnemonic_of};
ghost use Rattle.assembly.specs.declared.mnemonic.Mnemonic.{Mnemonic};

use crate::names;
use insn::instruction::Insn;
use insn::operation::{
    AluOp, Cond, Extension, SignedSize, Signedness, Size, SwapBits, SwapKind, Width,
};
use std::fmt::{self, Display, Formatter, Write};

/// What the first word of an instruction says of it: all but its operands.
#[derive(Clone, Copy, Debug, PartialEq, Eq)]
pub enum Mnemonic {
    Alu(Width, AluOp),
    Divide(Width, Signedness),
    Remainder(Width, Signedness),
    Negate(Width),
    MoveSigned(Extension),
    SwapBytes(SwapKind, SwapBits),
    LoadWide,
    Load(Size),
    LoadSigned(SignedSize),
    StoreReg(Size),
    StoreImm(Size),
    Jump,
    JumpLong,
    JumpIf(Width, Cond),
    Exit,
}

/// Each of them, once.
const MNEMONICS: [Mnemonic; 85] = [
    Mnemonic::Alu(Width::W64, AluOp::Add),
    Mnemonic::Alu(Width::W64, AluOp::Sub),
    Mnemonic::Alu(Width::W64, AluOp::Mul),
    Mnemonic::Alu(Width::W64, AluOp::Or),
    Mnemonic::Alu(Width::W64, AluOp::And),
    Mnemonic::Alu(Width::W64, AluOp::Lsh),
    Mnemonic::Alu(Width::W64, AluOp::Rsh),
    Mnemonic::Alu(Width::W64, AluOp::Xor),
    Mnemonic::Alu(Width::W64, AluOp::Mov),
    Mnemonic::Alu(Width::W64, AluOp::Arsh),
    Mnemonic::Alu(Width::W32, AluOp::Add),
    Mnemonic::Alu(Width::W32, AluOp::Sub),
    Mnemonic::Alu(Width::W32, AluOp::Mul),
    Mnemonic::Alu(Width::W32, AluOp::Or),
    Mnemonic::Alu(Width::W32, AluOp::And),
    Mnemonic::Alu(Width::W32, AluOp::Lsh),
    Mnemonic::Alu(Width::W32, AluOp::Rsh),
    Mnemonic::Alu(Width::W32, AluOp::Xor),
    Mnemonic::Alu(Width::W32, AluOp::Mov),
    Mnemonic::Alu(Width::W32, AluOp::Arsh),
    Mnemonic::Divide(Width::W64, Signedness::Unsigned),
    Mnemonic::Divide(Width::W64, Signedness::Signed),
    Mnemonic::Divide(Width::W32, Signedness::Unsigned),
    Mnemonic::Divide(Width::W32, Signedness::Signed),
    Mnemonic::Remainder(Width::W64, Signedness::Unsigned),
    Mnemonic::Remainder(Width::W64, Signedness::Signed),
    Mnemonic::Remainder(Width::W32, Signedness::Unsigned),
    Mnemonic::Remainder(Width::W32, Signedness::Signed),
    Mnemonic::Negate(Width::W64),
    Mnemonic::Negate(Width::W32),
    Mnemonic::MoveSigned(Extension::From8To64),
    Mnemonic::MoveSigned(Extension::From16To64),
    Mnemonic::MoveSigned(Extension::From32To64),
    Mnemonic::MoveSigned(Extension::From8To32),
    Mnemonic::MoveSigned(Extension::From16To32),
    Mnemonic::SwapBytes(SwapKind::ToLittle, SwapBits::B16),
    Mnemonic::SwapBytes(SwapKind::ToLittle, SwapBits::B32),
    Mnemonic::SwapBytes(SwapKind::ToLittle, SwapBits::B64),
    Mnemonic::SwapBytes(SwapKind::ToBig, SwapBits::B16),
    Mnemonic::SwapBytes(SwapKind::ToBig, SwapBits::B32),
    Mnemonic::SwapBytes(SwapKind::ToBig, SwapBits::B64),
    Mnemonic::SwapBytes(SwapKind::Swap, SwapBits::B16),
    Mnemonic::SwapBytes(SwapKind::Swap, SwapBits::B32),
    Mnemonic::SwapBytes(SwapKind::Swap, SwapBits::B64),
    Mnemonic::LoadWide,
    Mnemonic::Load(Size::One),
    Mnemonic::Load(Size::Two),
    Mnemonic::Load(Size::Four),
    Mnemonic::Load(Size::Eight),
    Mnemonic::LoadSigned(SignedSize::One),
    Mnemonic::LoadSigned(SignedSize::Two),
    Mnemonic::LoadSigned(SignedSize::Four),
    Mnemonic::StoreReg(Size::One),
    Mnemonic::StoreReg(Size::Two),
    Mnemonic::StoreReg(Size::Four),
    Mnemonic::StoreReg(Size::Eight),
    Mnemonic::StoreImm(Size::One),
    Mnemonic::StoreImm(Size::Two),
    Mnemonic::StoreImm(Size::Four),
    Mnemonic::StoreImm(Size::Eight),
    Mnemonic::Jump,
    Mnemonic::JumpLong,
    Mnemonic::JumpIf(Width::W64, Cond::Eq),
    Mnemonic::JumpIf(Width::W64, Cond::Gt),
    Mnemonic::JumpIf(Width::W64, Cond::Ge),
    Mnemonic::JumpIf(Width::W64, Cond::Set),
    Mnemonic::JumpIf(Width::W64, Cond::Ne),
    Mnemonic::JumpIf(Width::W64, Cond::Sgt),
    Mnemonic::JumpIf(Width::W64, Cond::Sge),
    Mnemonic::JumpIf(Width::W64, Cond::Lt),
    Mnemonic::JumpIf(Width::W64, Cond::Le),
    Mnemonic::JumpIf(Width::W64, Cond::Slt),
    Mnemonic::JumpIf(Width::W64, Cond::Sle),
    Mnemonic::JumpIf(Width::W32, Cond::Eq),
    Mnemonic::JumpIf(Width::W32, Cond::Gt),
    Mnemonic::JumpIf(Width::W32, Cond::Ge),
    Mnemonic::JumpIf(Width::W32, Cond::Set),
    Mnemonic::JumpIf(Width::W32, Cond::Ne),
    Mnemonic::JumpIf(Width::W32, Cond::Sgt),
    Mnemonic::JumpIf(Width::W32, Cond::Sge),
    Mnemonic::JumpIf(Width::W32, Cond::Lt),
    Mnemonic::JumpIf(Width::W32, Cond::Le),
    Mnemonic::JumpIf(Width::W32, Cond::Slt),
    Mnemonic::JumpIf(Width::W32, Cond::Sle),
    Mnemonic::Exit,
];

impl Mnemonic {
    /// What the first word of an instruction says.
    pub fn of(insn: Insn) -> Mnemonic
        ensures { result ≡ mnemonic_of insn }
    {
        match insn {
            Insn::Alu64Imm { op, .. } | Insn::Alu64Reg { op, .. } => Mnemonic::Alu(Width::W64, op),
            Insn::Alu32Imm { op, .. } | Insn::Alu32Reg { op, .. } => Mnemonic::Alu(Width::W32, op),
            Insn::Divide {
                width,
                signedness,
                ..
            } => Mnemonic::Divide(width, signedness),
            Insn::Remainder {
                width,
                signedness,
                ..
            } => Mnemonic::Remainder(width, signedness),
            Insn::Negate { width, .. } => Mnemonic::Negate(width),
            Insn::MoveSigned { extension, .. } => Mnemonic::MoveSigned(extension),
            Insn::SwapBytes { kind, bits, .. } => Mnemonic::SwapBytes(kind, bits),
            Insn::LoadWide { .. } => Mnemonic::LoadWide,
            Insn::Load { size, .. } => Mnemonic::Load(size),
            Insn::LoadSigned { size, .. } => Mnemonic::LoadSigned(size),
            Insn::StoreReg { size, .. } => Mnemonic::StoreReg(size),
            Insn::StoreImm { size, .. } => Mnemonic::StoreImm(size),
            Insn::Jump { .. } => Mnemonic::Jump,
            Insn::JumpLong { .. } => Mnemonic::JumpLong,
            Insn::Jump64IfImm { cond, .. } => Mnemonic::JumpIf(Width::W64, cond),
            Insn::Jump64IfReg { cond, .. } => Mnemonic::JumpIf(Width::W64, cond),
            Insn::Jump32IfImm { cond, .. } => Mnemonic::JumpIf(Width::W32, cond),
            Insn::Jump32IfReg { cond, .. } => Mnemonic::JumpIf(Width::W32, cond),
            Insn::Exit => Mnemonic::Exit,
        }
    }

    /// Its word in two parts: what the instruction does, and the width, the bits or the size that it does it on.
    pub fn parts(self) -> (&'static str, &'static str)
        ensures { result.0.now ++ result.1.now ≡ mnemonic_name self }
    {
        match self {
            Mnemonic::Alu(width, op) => (names::operation(op.operation()), names::width(width)),
            Mnemonic::Divide(width, signedness) => (
                names::operation(signedness.division()),
                names::width(width),
            ),
            Mnemonic::Remainder(width, signedness) => (
                names::operation(signedness.remainder()),
                names::width(width),
            ),
            Mnemonic::Negate(width) => ("neg", names::width(width)),
            Mnemonic::MoveSigned(extension) => (names::extension(extension), ""),
            Mnemonic::SwapBytes(kind, bits) => (names::swap(kind), names::bits(bits)),
            Mnemonic::LoadWide => ("lddw", ""),
            Mnemonic::Load(size) => ("ldx", names::size(size)),
            Mnemonic::LoadSigned(size) => ("lds", names::size(size.size())),
            Mnemonic::StoreReg(size) => ("stx", names::size(size)),
            Mnemonic::StoreImm(size) => ("st", names::size(size)),
            Mnemonic::Jump => ("ja", ""),
            Mnemonic::JumpLong => ("jal", ""),
            Mnemonic::JumpIf(width, cond) => (names::condition(cond), names::width(width)),
            Mnemonic::Exit => ("exit", ""),
        }
    }

    /// Whether a word is its own.
    fn is_named(self, word: &[u8]) -> bool
        ensures { IsTrue result ↔ (word.now ≡ mnemonic_name self) }
    {
        let (stem, ending) = self.parts();
        is_both(word, stem.as_bytes(), ending.as_bytes())
    }

    /// The one whose word this is.
    pub fn find(word: &[u8]) -> Option<Mnemonic>
        ensures found { IfSome result (λ mnemonic. word.now ≡ mnemonic_name mnemonic) }
        ensures none { IfNone result ((mnemonic : Mnemonic) → word.now ≢ mnemonic_name mnemonic) }
    {
        first_named(&MNEMONICS, word)
    }
}

impl Display for Mnemonic {
    ghost output = { λ mnemonic. Some (mnemonic_name mnemonic) };

    fn fmt<W: Write>(&self, f: &mut Formatter<W>) -> fmt::Result {
        let (stem, ending) = self.parts();
        write!(f, "{stem}{ending}")
    }
}

/// Whether a word is two texts, one behind the other.
fn is_both(word: &[u8], front: &[u8], back: &[u8]) -> bool
    ensures { IsTrue result ↔ (word.now ≡ front.now ++ back.now) }
{
    match word.strip_prefix(front) {
        Some(rest) => rest == back,
        None => false,
    }
}

/// The first of some whose word this is.
fn first_named(mnemonics: &[Mnemonic], word: &[u8]) -> Option<Mnemonic>
    ensures found { IfSome result (λ mnemonic. word.now ≡ mnemonic_name mnemonic) }
    ensures none { IfNone result (All (λ mnemonic. word.now ≢ mnemonic_name mnemonic) mnemonics.now) }
{
    for mnemonic in mnemonics {
        if mnemonic.is_named(word) {
            return Some(*mnemonic);
        }
    }
    None
}
