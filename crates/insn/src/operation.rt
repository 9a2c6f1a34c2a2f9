//! Operations, conditions and sizes: what the fields of instructions say.

ghost use Rattle.std.specs.Prelude.{◌≡◌};
ghost use Rattle.insn.specs.Instruction.{division_of, extended_bits, extended_width, operation_of, read_bits, read_size, remainder_of, size_bytes};

/// How many bits an operation or a comparison works on: the low half of its operands, or all of them.
#[derive(Clone, Copy, Debug, PartialEq, Eq)]
pub enum Width {
    W32,
    W64,
}

/// Whether a division reads its operands as unsigned or as signed numbers.
#[derive(Clone, Copy, Debug, PartialEq, Eq)]
pub enum Signedness {
    Unsigned = 0,
    Signed = 1,
}

impl Signedness {
    /// The division of numbers that are read so.
    pub fn division(self) -> BinOp
        ensures { result ≡ division_of self }
    {
        match self {
            Signedness::Unsigned => BinOp::Div,
            Signedness::Signed => BinOp::Sdiv,
        }
    }

    /// The remainder of such a division.
    pub fn remainder(self) -> BinOp
        ensures { result ≡ remainder_of self }
    {
        match self {
            Signedness::Unsigned => BinOp::Mod,
            Signedness::Signed => BinOp::Smod,
        }
    }
}

/// An operation on two words (RFC 9669, section 4.1).
#[derive(Clone, Copy, Debug, PartialEq, Eq)]
pub enum BinOp {
    Add,
    Sub,
    Mul,
    Div,
    Sdiv,
    Or,
    And,
    Lsh,
    Rsh,
    Mod,
    Smod,
    Xor,
    Mov,
    Arsh,
}

/// An operation whose opcode says all of it: those of two operands but division and remainder. Its number is the high
/// half of its opcodes.
#[derive(Clone, Copy, Debug, PartialEq, Eq)]
pub enum AluOp {
    Add = 0x0,
    Sub = 0x1,
    Mul = 0x2,
    Or = 0x4,
    And = 0x5,
    Lsh = 0x6,
    Rsh = 0x7,
    Xor = 0xa,
    Mov = 0xb,
    Arsh = 0xc,
}

impl AluOp {
    /// The operation on words.
    pub fn operation(self) -> BinOp
        ensures { result ≡ operation_of self }
    {
        match self {
            AluOp::Add => BinOp::Add,
            AluOp::Sub => BinOp::Sub,
            AluOp::Mul => BinOp::Mul,
            AluOp::Or => BinOp::Or,
            AluOp::And => BinOp::And,
            AluOp::Lsh => BinOp::Lsh,
            AluOp::Rsh => BinOp::Rsh,
            AluOp::Xor => BinOp::Xor,
            AluOp::Mov => BinOp::Mov,
            AluOp::Arsh => BinOp::Arsh,
        }
    }
}

/// A condition of a jump (RFC 9669, section 4.3). The forms with an S read their operands as signed. Its number is the
/// high half of its opcodes.
#[derive(Clone, Copy, Debug, PartialEq, Eq)]
pub enum Cond {
    Eq = 0x1,
    Gt = 0x2,
    Ge = 0x3,
    Set = 0x4,
    Ne = 0x5,
    Sgt = 0x6,
    Sge = 0x7,
    Lt = 0xa,
    Le = 0xb,
    Slt = 0xc,
    Sle = 0xd,
}

/// What a byte swap does (RFC 9669, section 4.2). Its number is its opcode.
#[derive(Clone, Copy, Debug, PartialEq, Eq)]
pub enum SwapKind {
    ToLittle = 0xd4,
    ToBig = 0xdc,
    Swap = 0xd7,
}

/// How many low bits a byte swap keeps.
#[derive(Clone, Copy, Debug, PartialEq, Eq)]
pub enum SwapBits {
    B16 = 16,
    B32 = 32,
    B64 = 64,
}

/// How many low bits a sign extension reads.
#[derive(Clone, Copy, Debug, PartialEq, Eq)]
pub enum ExtendBits {
    B8 = 8,
    B16 = 16,
    B32 = 32,
}

/// An operation on one word: negation, a byte swap, or a sign extension.
#[derive(Clone, Copy, Debug, PartialEq, Eq)]
pub enum UnOp {
    Neg,
    Swap(SwapKind, SwapBits),
    Extend(ExtendBits),
}

/// A move with sign extension: how many bits it reads, and how many it sets.
#[derive(Clone, Copy, Debug, PartialEq, Eq)]
pub enum Extension {
    From8To64,
    From16To64,
    From32To64,
    From8To32,
    From16To32,
}

impl Extension {
    /// How many bits it sets; the others are 0.
    pub fn width(self) -> Width
        ensures { result ≡ extended_width self }
    {
        match self {
            Extension::From8To64 | Extension::From16To64 | Extension::From32To64 => Width::W64,
            Extension::From8To32 | Extension::From16To32 => Width::W32,
        }
    }

    /// How many bits it reads.
    pub fn bits(self) -> ExtendBits
        ensures { result ≡ extended_bits self }
    {
        match self {
            Extension::From8To64 | Extension::From8To32 => ExtendBits::B8,
            Extension::From16To64 | Extension::From16To32 => ExtendBits::B16,
            Extension::From32To64 => ExtendBits::B32,
        }
    }
}

/// How many bytes a load or a store moves (RFC 9669, section 5). Its number is what it adds to an opcode.
#[derive(Clone, Copy, Debug, PartialEq, Eq)]
pub enum Size {
    One = 0x10,
    Two = 0x08,
    Four = 0x00,
    Eight = 0x18,
}

impl Size {
    /// The number of bytes.
    pub fn bytes(self) -> usize
        ensures { result ≡ size_bytes self }
    {
        match self {
            Size::One => 1,
            Size::Two => 2,
            Size::Four => 4,
            Size::Eight => 8,
        }
    }
}

/// How many bytes a load with sign extension reads.
#[derive(Clone, Copy, Debug, PartialEq, Eq)]
pub enum SignedSize {
    One = 0x10,
    Two = 0x08,
    Four = 0x00,
}

impl SignedSize {
    /// The size that it reads.
    pub fn size(self) -> Size
        ensures { result ≡ read_size self }
    {
        match self {
            SignedSize::One => Size::One,
            SignedSize::Two => Size::Two,
            SignedSize::Four => Size::Four,
        }
    }

    /// How many bits it extends.
    pub fn bits(self) -> ExtendBits
        ensures { result ≡ read_bits self }
    {
        match self {
            SignedSize::One => ExtendBits::B8,
            SignedSize::Two => ExtendBits::B16,
            SignedSize::Four => ExtendBits::B32,
        }
    }
}
