//! What instructions say: one of eight things.

ghost use Rattle.std.specs.Prelude.{◌≡◌};
ghost use Rattle.insn.specs.FirstLook.{distance_in, register_written_by};

use crate::instruction::Operand;
use crate::operation::{BinOp, Cond, ExtendBits, Size, UnOp, Width};
use crate::register::RegNo;

/// What an instruction says is to be done. The register that is named first is the one that is worked on.
#[derive(Clone, Copy, Debug, PartialEq, Eq)]
pub enum Action {
    /// It becomes the result of an operation on it and an operand.
    Operate(Width, BinOp, RegNo, Operand),
    /// It becomes the result of an operation on the number in the second one.
    Convert(Width, UnOp, RegNo, RegNo),
    /// It becomes this number.
    LoadWord(RegNo, u64),
    /// It becomes what stands so far behind the pointer in the second one, its sign extended from so many bits where
    /// these are named.
    LoadFrom(Size, Option<ExtendBits>, RegNo, RegNo, i16),
    /// So far behind the pointer in it an operand is stored.
    StoreAt(Size, RegNo, i16, Operand),
    /// The program goes on so many slots further.
    Go(i32),
    /// It does where a condition holds of it and an operand.
    Branch(Width, Cond, RegNo, Operand, i16),
    /// The program ends with the number in R0.
    End,
}

impl Action {
    /// How many slots further the program may go on, where it is a jump.
    pub fn distance(self) -> Option<i32>
        ensures { result ≡ distance_in self }
    {
        match self {
            Action::Go(offset) => Some(offset),
            Action::Branch(_, _, _, _, offset) => Some(i32::from(offset)),
            Action::Operate(..)
            | Action::Convert(..)
            | Action::LoadWord(..)
            | Action::LoadFrom(..)
            | Action::StoreAt(..)
            | Action::End => None,
        }
    }

    /// The register that is written, where one is.
    pub fn written(self) -> Option<RegNo>
        ensures { result ≡ register_written_by self }
    {
        match self {
            Action::Operate(_, _, dst, _)
            | Action::Convert(_, _, dst, _)
            | Action::LoadWord(dst, _)
            | Action::LoadFrom(_, _, dst, _, _) => Some(dst),
            Action::StoreAt(..) | Action::Go(..) | Action::Branch(..) | Action::End => None,
        }
    }
}
