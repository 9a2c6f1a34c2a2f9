//! A jump back: where it stands, and where it leads.

ghost use Rattle.std.specs.Prelude.{◌≡◌, ◌≤◌, IfSome};
ghost use Rattle.insn.specs.Program.{SLOT_LIMIT};
ghost use Rattle.hook_commands.specs.Back.{line_at as spec_line_at, IsBackTo, IsJumpTold};

use insn::places::skip;
use insn::program::Program;
use insn::verify_fault::VerifyFault;
use lister::SlotLine;
use std::fmt::{self, Display, Formatter, Write};

/// A jump back, and the instruction to which it leads, if one begins there.
#[derive(Clone, Copy)]
pub struct JumpBackTold {
    pub jump: SlotLine,
    pub to: Option<SlotLine>,
}

impl Display for JumpBackTold {
    fn fmt<W: Write>(&self, f: &mut Formatter<W>) -> fmt::Result {
        let jump = self.jump;
        write!(f, "{jump}")?;
        if let Some(to) = self.to {
            write!(f, "it jumps back to {to}")?;
        }
        Ok(())
    }
}

/// The instruction that begins at a slot, behind that slot, if one does.
fn line_at(program: &Program, slot: usize) -> Option<SlotLine>
    ensures value { result ≡ spec_line_at program.now slot }
    ensures few { IfSome result (λ line. line.slot ≤ SLOT_LIMIT) }
{
    match skip(program.insns(), slot)? {
        [insn, ..] => Some(SlotLine { slot, insn: *insn }),
        [] => None,
    }
}

/// The slot to which a jump leads that leads back; none where it would lie before the first.
fn back_from(line: SlotLine) -> Option<usize>
    requires { line.slot ≤ SLOT_LIMIT }
    ensures { IsBackTo line result }
{
    let distance = line.insn.distance()?;
    (line.slot + line.insn.slots()).checked_sub(distance.unsigned_abs() as usize)
}

/// What is told of a jump back; of another fault nothing.
pub fn jump_told(program: &Program, fault: VerifyFault) -> Option<JumpBackTold>
    ensures { IsJumpTold program.now fault result }
{
    let VerifyFault::JumpBack(slot) = fault else {
        return None;
    };
    let jump = line_at(program, slot)?;
    let to = match back_from(jump) {
        Some(slot) => line_at(program, slot),
        None => None,
    };
    Some(JumpBackTold { jump, to })
}
