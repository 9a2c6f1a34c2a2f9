//! The line of an instruction.

ghost use Rattle.std.specs.Prelude.{Some};
ghost use Rattle.std.specs.List.{flat_map};
ghost use Rattle.assembly.specs.Text.{canonical_line, written_operand};
ghost use Rattle.lister.specs.Operands.{operands_in};

use crate::operand::{Register, Source, Target};
use assembly::mnemonic::Mnemonic;
use insn::action::Action;
use insn::instruction::Insn;
use insn::operation::UnOp;
use std::fmt::{self, Display, Formatter, Write};

/// The line of an instruction: its words with one space between two, and a line feed.
#[derive(Clone, Copy)]
pub struct Line(pub Insn);

impl Display for Line {
    ghost output = { λ line. Some (canonical_line line.0) };

    fn fmt<W: Write>(&self, f: &mut Formatter<W>) -> fmt::Result {
        let (mnemonic, operands) = (Mnemonic::of(self.0), Operands(self.0.action()));
        write!(f, "{mnemonic}{operands}\n")
    }
}

/// The operands of what an instruction says, with a space before each.
#[derive(Clone, Copy)]
struct Operands(Action);

impl Display for Operands {
    ghost use Rattle.std.specs.Prelude.{codes, ◌++◌};

    ghost output = { λ operands. Some (flat_map (λ operand. codes " " ++ written_operand operand) (operands_in operands.0)) };

    fn fmt<W: Write>(&self, f: &mut Formatter<W>) -> fmt::Result {
        match self.0 {
            Action::Operate(_, _, dst, operand) => {
                write!(f, " {} {}", Register(dst), Source(operand))
            }
            Action::Convert(_, UnOp::Extend(_), dst, src) => {
                write!(f, " {} {}", Register(dst), Register(src))
            }
            Action::Convert(_, _, dst, _) => write!(f, " {}", Register(dst)),
            Action::LoadWord(dst, value) => write!(f, " {} {value}", Register(dst)),
            Action::LoadFrom(_, _, dst, src, offset) => {
                write!(f, " {} {} {offset}", Register(dst), Register(src))
            }
            Action::StoreAt(_, dst, offset, operand) => {
                write!(f, " {} {offset} {}", Register(dst), Source(operand))
            }
            Action::Go(distance) => write!(f, " {}", Target(distance)),
            Action::Branch(_, _, dst, operand, offset) => {
                let target = Target(i32::from(offset));
                write!(f, " {} {} {target}", Register(dst), Source(operand))
            }
            Action::End => Ok(()),
        }
    }
}
