//! Laws of the definitions.

ghost use Rattle.std.specs.Prelude.{◌≡◌, ◌≢◌, ◌↔◌, ℕ, List, Some, None, IfSome, IsSome};
ghost use Rattle.std.specs.List.{AllByRecursion};
ghost use Rattle.insn.specs.declared.instruction.Insn.{Insn};
ghost use Rattle.insn.specs.declared.layout.Layout.{Layout};
ghost use Rattle.insn.specs.declared.register.RegNo.TheVariants.{R10};
ghost use Rattle.insn.specs.declared.state.Cell.{Cell};
ghost use Rattle.insn.specs.declared.state.Pointer.{Pointer};
ghost use Rattle.insn.specs.declared.state.Value.TheVariants.{Address};
ghost use Rattle.insn.specs.Outcomes.{effect, fault_at};
ghost use Rattle.insn.specs.FirstLook.{written_by};
ghost use Rattle.insn.specs.Memory.{parts_of, value_in};
ghost use Rattle.insn.specs.Instruction.{Fits};
ghost use Rattle.insn.specs.PossibleStates.{IsEffect, IsState};
ghost use Rattle.insn.specs.Step.{IsExit, IsStuck, Reaches};
ghost use Rattle.insn.specs.Values.{entry, Config, IsRecord, State};

/// The entry of a record is a state, and what an instruction does to a state leads to a state.
#[tactic(auto, using(crate::specs::StateLaws::entry_is_state, crate::specs::StateLaws::effect_is_effect))]
pub fn states_stay_states()
    ensures entry { (layout : Layout) (bytes : List ℕ) → IsRecord layout bytes → IsState layout (entry bytes) }
    ensures step { (layout : Layout) (i : Insn) (s : State) → Fits i → IsState layout s → IfSome (effect layout i s) (IsEffect layout) }
{}

/// What the run of a program on a record reaches is a state.
pub fn runs_reach_states()
    ensures { (layout : Layout) (program : List Insn) (bytes : List ℕ) (n : ℕ) (c : Config) →
        AllByRecursion Fits program → IsRecord layout bytes → Reaches layout program bytes n c → IsState layout c.state }
{}

/// An instruction that does not write R10 has no effect exactly where a test names a fault.
#[tactic(auto, using(crate::specs::OutcomeLaws::stuck_is_named))]
pub fn faults_are_named()
    ensures { (layout : Layout) (i : Insn) (s : State) → written_by i ≢ Some R10 →
        effect layout i s ≡ None ↔ IsSome (fault_at layout i s) }
{}

/// A run has one end: one exit, or one place at which it is stuck.
pub fn a_run_has_one_end()
    ensures exit { (layout : Layout) (program : List Insn) (bytes : List ℕ) (r0 count q0 more : ℕ) (after late : List ℕ) →
        IsExit layout program bytes r0 count after → IsExit layout program bytes q0 more late →
        (r0 ≡ q0) × (count ≡ more) × (after ≡ late) }
    ensures stuck { (layout : Layout) (program : List Insn) (bytes : List ℕ) (slot place : ℕ) (after late : List ℕ) →
        IsStuck layout program bytes slot after → IsStuck layout program bytes place late →
        (slot ≡ place) × (after ≡ late) }
    ensures either { (layout : Layout) (program : List Insn) (bytes : List ℕ) (r0 count slot : ℕ) (after late : List ℕ) →
        IsExit layout program bytes r0 count after → IsStuck layout program bytes slot late → ⊥ }
{}

/// Cells hold a pointer exactly where they are its eight parts, in order.
#[tactic(auto, using(crate::specs::PointerLaws::parts_only, crate::specs::PointerLaws::parts_hold))]
pub fn a_pointer_is_its_parts()
    ensures { (cells : List Cell) (p : Pointer) → value_in cells ≡ Some (Address p) ↔ (cells ≡ parts_of p) }
{}
