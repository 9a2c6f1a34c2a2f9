//! The listing of a program with the slot of each instruction.

ghost use Rattle.std.specs.Prelude.{◌≡◌, IfOk};
ghost use Rattle.lister.specs.Slots.{slot_lines};

use crate::line::Line;
use insn::instruction::Insn;
use insn::program::Program;
use std::alloc::{AllocError, Global};
use std::fmt::{self, Display, Formatter, Write};

/// An instruction, and the slot at which it begins.
#[derive(Clone, Copy)]
pub struct SlotLine {
    pub slot: usize,
    pub insn: Insn,
}

impl Display for SlotLine {
    fn fmt<W: Write>(&self, f: &mut Formatter<W>) -> fmt::Result {
        let (slot, line) = (self.slot, Line(self.insn));
        write!(f, "{slot}: {line}")
    }
}

/// Each instruction of a program behind the slot at which it begins. It fails only where memory is refused.
pub fn slot_lines(alloc: Global, program: &Program) -> Result<Vec<SlotLine>, AllocError>
    ensures { IfOk result (λ lines. lines.items ≡ slot_lines program.now) }
{
    let mut lines = Vec::new(alloc);
    let mut slot = 0;
    let mut rest = program.insns();
    while let [insn, after @ ..] = rest {
        let insn = *insn;
        lines.push(SlotLine { slot, insn })?;
        slot += insn.slots();
        rest = after;
    }
    Ok(lines)
}
