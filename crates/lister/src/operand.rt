//! The words of operands.

ghost use Rattle.std.specs.Prelude.{Some};
ghost use Rattle.assembly.specs.Text.{register_word, source_operand, written_operand, distance_word};

use insn::instruction::Operand;
use insn::register::RegNo;
use std::fmt::{self, Display, Formatter, Write};

/// The word of a register.
#[derive(Clone, Copy)]
pub struct Register(pub RegNo);

impl Display for Register {
    ghost output = { λ register. Some (register_word register.0) };

    fn fmt<W: Write>(&self, f: &mut Formatter<W>) -> fmt::Result {
        let number = self.0.number();
        write!(f, "r{number}")
    }
}

/// The word of a register or a number.
#[derive(Clone, Copy)]
pub struct Source(pub Operand);

impl Display for Source {
    ghost output = { λ source. Some (written_operand (source_operand source.0)) };

    fn fmt<W: Write>(&self, f: &mut Formatter<W>) -> fmt::Result {
        match self.0 {
            Operand::Reg(src) => write!(f, "{}", Register(src)),
            Operand::Imm(imm) => write!(f, "{imm}"),
        }
    }
}

/// How many slots a jump leads over, with its sign.
#[derive(Clone, Copy)]
pub struct Target(pub i32);

impl Display for Target {
    ghost output = { λ target. Some (distance_word target.0) };

    fn fmt<W: Write>(&self, f: &mut Formatter<W>) -> fmt::Result {
        let distance = self.0;
        if distance < 0 {
            write!(f, "{distance}")
        } else {
            write!(f, "+{distance}")
        }
    }
}
