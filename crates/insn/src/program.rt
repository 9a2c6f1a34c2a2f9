//! Programs: lists of instructions.

ghost use Rattle.std.specs.Prelude.{◌≡◌, ◌↔◌, ◌<◌, ◌≤◌, ◌^◌, [], IfOk, IfErr, IsOk, length};
ghost use Rattle.std.specs.List.{AllByRecursion};
ghost use Rattle.insn.specs.Instruction.{Fits};
ghost use Rattle.insn.specs.Program.{slot_count, IsProgram, SLOT_LIMIT};

use crate::fault::InsnFault;
use crate::instruction::Insn;
use std::marker::Model;

/// The most slots of a program.
pub const MAX_SLOTS: usize = 4096;

/// A program: instructions of 1 to 4,096 slots.
#[derive(Drop)]
pub struct Program {
    insns: Vec<Insn>,
}

impl Model for Program {
    ghost use Rattle.std.specs.Prelude.{List};
    ghost use Rattle.insn.specs.declared.instruction.Insn.{Insn};

    ghost Value = { List Insn };

    ghost use Rattle.std.specs.List.{AllByRecursion};
    ghost use Rattle.insn.specs.Instruction.{Fits};
    ghost use Rattle.insn.specs.Program.{IsProgram};

    ghost view = { λ p. p.insns.items };

    ghost invariant = { λ p. IsProgram p.insns.items × AllByRecursion Fits p.insns.items };
}

/// How many slots instructions take.
fn slots_of_all(insns: &[Insn]) -> usize
    requires { length insns.now < 2 ^ 32 }
    ensures value { result ≡ slot_count insns.now }
    ensures fit { AllByRecursion Fits insns.now }
{
    let mut total = 0;
    for insn in insns {
        total += insn.slots();
    }
    total
}

impl Program {
    /// Instructions as a program. Where they are none, or too many, they are handed back with the fault.
    #[tactic(auto, using(crate::specs::SlotLaws::length_le_slot_count))]
    pub fn new(insns: Vec<Insn>) -> Result<Program, (Vec<Insn>, InsnFault)>
        ensures ok { IfOk result (λ program. program ≡ insns.items) }
        ensures only { IsOk result ↔ IsProgram insns.items }
        ensures back { IfErr result (λ e. e.0 ≡ insns) }
        ensures empty { IfErr result (λ e. (e.1 ≡ InsnFault.Empty) ↔ (insns.items ≡ [])) }
        ensures too_long { IfErr result (λ e. (e.1 ≡ InsnFault.TooLong) ↔ (SLOT_LIMIT < slot_count insns.items)) }
    {
        if insns.is_empty() {
            return Err((insns, InsnFault::Empty));
        }
        if insns.len() > MAX_SLOTS || slots_of_all(&insns) > MAX_SLOTS {
            return Err((insns, InsnFault::TooLong));
        }
        Ok(Program { insns })
    }

    /// How many instructions there are.
    pub fn len(&self) -> usize
        ensures { result ≡ length self.now }
    {
        self.insns.len()
    }

    /// How many slots they take.
    #[tactic(auto, using(crate::specs::SlotLaws::length_le_slot_count))]
    pub fn slots(&self) -> usize
        ensures { result ≡ slot_count self.now }
    {
        slots_of_all(&self.insns)
    }

    /// The instructions.
    pub fn insns(&self) -> &[Insn]
        ensures value { result.now ≡ self.now }
        ensures program { IsProgram self.now }
        ensures fit { AllByRecursion Fits self.now }
    {
        &self.insns
    }
}
