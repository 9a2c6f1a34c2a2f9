//! What holds of the definitions.

ghost use Rattle.std.specs.Prelude.{◌≡◌, ℕ, List};
ghost use Rattle.insn.specs.declared.instruction.Insn.{Insn};
ghost use Rattle.assembly.specs.Text.{Text};
ghost use Rattle.assembler.specs.declared.fault.AsmFault.{AsmFault};
ghost use Rattle.assembler.specs.declared.fault.AsmFault.TheVariants.{Memory};
ghost use Rattle.assembler.specs.Faults.{FirstTextFault};

/// A text with a fault says no program.
#[tactic(auto, using(crate::proofs::Refuted::only_memory))]
pub fn a_faulty_text_says_nothing()
    ensures { (text : List ℕ) (fault : AsmFault) → FirstTextFault text fault →
        (program : List Insn) → Text text program → fault ≡ Memory }
{}
