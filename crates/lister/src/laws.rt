//! Laws of texts.

ghost use Rattle.std.specs.Prelude.{◌≡◌, ℕ, List};
ghost use Rattle.std.specs.List.{AllByRecursion};
ghost use Rattle.insn.specs.declared.instruction.Insn.{Insn};
ghost use Rattle.insn.specs.Instruction.{Fits};
ghost use Rattle.insn.specs.Program.{IsProgram};
ghost use Rattle.assembly.specs.Text.{canonical_text, Text};

/// No text says two programs.
#[tactic(auto, using(assembly::specs::TextLaws::text_says_one))]
pub fn a_text_says_one_program()
    ensures { (text : List ℕ) (p q : List Insn) → Text text p → Text text q → p ≡ q }
{}

/// The canonical text of a program says it.
#[tactic(auto, using(crate::proofs::Lines::canonical_text_says))]
pub fn the_canonical_text_says_its_program()
    ensures { (p : List Insn) → IsProgram p → AllByRecursion Fits p → Text (canonical_text p) p }
{}
