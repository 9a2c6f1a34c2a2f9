//! Laws of the bytes of programs.

ghost use Rattle.std.specs.Prelude.{◌≡◌, ◌≢◌, ℕ, List, Some};
ghost use Rattle.insn.specs.declared.fault.InsnFault.{InsnFault};
ghost use Rattle.insn.specs.declared.fault.InsnFault.TheVariants.{Memory};
ghost use Rattle.insn.specs.declared.instruction.Insn.{Insn};
ghost use Rattle.encoding.specs.declared.slot.Slot.{Slot};
ghost use Rattle.encoding.specs.declared.slot_fault.SlotFault.{SlotFault};
ghost use Rattle.encoding.specs.Opcodes.{slot_fault};
ghost use Rattle.encoding.specs.Spelling.{FirstInsnFault, IsSlot, IsSlotFault, Spells};

/// No bytes spell two programs.
#[tactic(auto, using(crate::proofs::Reading::one_program))]
pub fn bytes_spell_one_program()
    ensures { (bytes : List ℕ) (p q : List Insn) → Spells bytes p → Spells bytes q → p ≡ q }
{}

/// Bytes have one first fault, want of memory aside.
#[tactic(auto, using(crate::proofs::Reading::one_first_fault))]
pub fn bytes_have_one_first_fault()
    ensures { (bytes : List ℕ) (f g : InsnFault) → f ≢ Memory → g ≢ Memory →
        FirstInsnFault bytes f → FirstInsnFault bytes g → f ≡ g }
{}

/// Each program has one spelling.
pub fn a_program_has_one_spelling()
    ensures { (a b : List ℕ) (p : List Insn) → Spells a p → Spells b p → a ≡ b }
{}

/// The table of opcodes, by which a decoder reads, refuses a slot with the fault that it has.
#[tactic(auto, using(crate::proofs::Reading::named_fault))]
pub fn slots_have_the_faults_of_the_table()
    ensures { (s : Slot) (behind : List ℕ) (f : SlotFault) → IsSlot s → slot_fault s behind ≡ Some f → IsSlotFault s behind f }
{}
