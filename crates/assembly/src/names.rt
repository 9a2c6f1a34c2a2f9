//! The parts that the first words of instructions are made of.

ghost use Rattle.std.specs.Prelude.{◌≡◌};
ghost use Rattle.assembly.specs.Text.{bits_name, condition_name, extension_name, operation_name, size_name, swap_name, width_name};

use insn::operation::{BinOp, Cond, Extension, Size, SwapBits, SwapKind, Width};

/// The number of bits of a width, which ends the names of what works on it.
pub fn width(width: Width) -> &'static str
    ensures { result.now ≡ width_name width }
{
    match width {
        Width::W32 => "32",
        Width::W64 => "64",
    }
}

/// The name of an operation, without the width.
pub fn operation(operation: BinOp) -> &'static str
    ensures { result.now ≡ operation_name operation }
{
    match operation {
        BinOp::Add => "add",
        BinOp::Sub => "sub",
        BinOp::Mul => "mul",
        BinOp::Div => "div",
        BinOp::Sdiv => "sdiv",
        BinOp::Or => "or",
        BinOp::And => "and",
        BinOp::Lsh => "lsh",
        BinOp::Rsh => "rsh",
        BinOp::Mod => "mod",
        BinOp::Smod => "smod",
        BinOp::Xor => "xor",
        BinOp::Mov => "mov",
        BinOp::Arsh => "arsh",
    }
}

/// The name of the jump where a condition holds, without the width.
pub fn condition(cond: Cond) -> &'static str
    ensures { result.now ≡ condition_name cond }
{
    match cond {
        Cond::Eq => "jeq",
        Cond::Gt => "jgt",
        Cond::Ge => "jge",
        Cond::Set => "jset",
        Cond::Ne => "jne",
        Cond::Sgt => "jsgt",
        Cond::Sge => "jsge",
        Cond::Lt => "jlt",
        Cond::Le => "jle",
        Cond::Slt => "jslt",
        Cond::Sle => "jsle",
    }
}

/// The name of a byte swap, without the bits.
pub fn swap(kind: SwapKind) -> &'static str
    ensures { result.now ≡ swap_name kind }
{
    match kind {
        SwapKind::ToLittle => "le",
        SwapKind::ToBig => "be",
        SwapKind::Swap => "swap",
    }
}

/// The number of bits of a byte swap, which ends its name.
pub fn bits(bits: SwapBits) -> &'static str
    ensures { result.now ≡ bits_name bits }
{
    match bits {
        SwapBits::B16 => "16",
        SwapBits::B32 => "32",
        SwapBits::B64 => "64",
    }
}

/// The name of a move with sign extension.
pub fn extension(extension: Extension) -> &'static str
    ensures { result.now ≡ extension_name extension }
{
    match extension {
        Extension::From8To64 => "sx8_64",
        Extension::From16To64 => "sx16_64",
        Extension::From32To64 => "sx32_64",
        Extension::From8To32 => "sx8_32",
        Extension::From16To32 => "sx16_32",
    }
}

/// The letters that end the names of the loads and stores of a size.
pub fn size(size: Size) -> &'static str
    ensures { result.now ≡ size_name size }
{
    match size {
        Size::One => "b",
        Size::Two => "h",
        Size::Four => "w",
        Size::Eight => "dw",
    }
}
