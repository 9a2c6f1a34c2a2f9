//! The registers that an instruction reads, by what it says.

ghost use Rattle.std.specs.Prelude.{◌≡◌};
ghost use Rattle.hook_commands.specs.Reading.{left_read as spec_left_read, right_read as spec_right_read};

use insn::action::Action;
use insn::instruction::Operand;
use insn::operation::{BinOp, UnOp};
use insn::register::RegNo;

/// The register that is read and stands first: an operand, or what a store leads to. A move does not read what it writes.
pub fn left_read(action: Action) -> Option<RegNo>
    ensures { result ≡ spec_left_read action }
{
    match action {
        Action::Operate(_, BinOp::Mov, ..) | Action::Convert(_, UnOp::Extend(_), ..) => None,
        Action::Operate(_, _, dst, _) | Action::Convert(_, _, dst, _) => Some(dst),
        Action::StoreAt(_, dst, ..) | Action::Branch(_, _, dst, ..) => Some(dst),
        Action::End => Some(RegNo::R0),
        Action::LoadWord(..) | Action::LoadFrom(..) | Action::Go(_) => None,
    }
}

/// The register that is read and stands second: an operand, or where a load leads to.
pub fn right_read(action: Action) -> Option<RegNo>
    ensures { result ≡ spec_right_read action }
{
    match action {
        Action::Operate(_, _, _, Operand::Reg(src)) => Some(src),
        Action::Convert(_, UnOp::Extend(_), _, src) => Some(src),
        Action::LoadFrom(_, _, _, src, _) => Some(src),
        Action::StoreAt(_, _, _, Operand::Reg(src)) => Some(src),
        Action::Branch(_, _, _, Operand::Reg(src), _) => Some(src),
        _ => None,
    }
}
