//! Laws of shapes and ways, and of typings: which programs have them.

ghost use Rattle.std.specs.Prelude.{◌≡◌, ◌≤◌, ◌↔◌, ℕ, List, [], Result, Some, Contains, length, slice_index_or};
ghost use Rattle.insn.specs.declared.instruction.Insn.{Insn};
ghost use Rattle.insn.specs.declared.layout.Layout.{Layout};
ghost use Rattle.insn.specs.declared.verify_fault.WalkFault.{WalkFault};
ghost use Rattle.insn.specs.Outcomes.{fault_at};
ghost use Rattle.insn.specs.Program.{begins_at};
ghost use Rattle.insn.specs.Step.{step};
ghost use Rattle.insn.specs.Values.{Config, IsRecord, State};
ghost use Rattle.verifier.specs.declared.known.Flow.{Flow};
ghost use Rattle.verifier.specs.declared.known.Known.{Known};
ghost use Rattle.verifier.specs.Follows.{WritesNoR10};
ghost use Rattle.verifier.specs.Kinds.{IsSoundRow, LeavesKnown};
ghost use Rattle.verifier.specs.Shapes.{shape_config, shape_of, ways, HasNoBranch, IsRunShape, MovesNoPointer, NoMovedPointer, OnWay};
ghost use Rattle.verifier.specs.Typing.{UniformIsTyped};
ghost use Rattle.verifier.specs.Waits.{HasWalked};

/// A state and its shape have the same fault, where no pointer is moved by a register.
#[tactic(auto, using(crate::proofs::ShapeLaws::same_fault))]
pub fn shapes_have_the_faults_of_states()
    ensures { (layout : Layout) (i : Insn) (s : State) → NoMovedPointer i s → fault_at layout i (shape_of s) ≡ fault_at layout i s }
{}

/// A step's shape is among the ways of the shape, where no pointer is moved by a register.
#[tactic(auto, using(crate::proofs::WayLaws::step_is_way))]
pub fn steps_are_ways()
    ensures { (layout : Layout) (program : List Insn) (c d : Config) →
        ((i : Insn) → begins_at program c.slot ≡ Some i → NoMovedPointer i c.state) → step layout program c ≡ Some d →
        Contains (ways layout program (shape_config c)) (shape_config d) }
{}

/// In a program without conditional jumps, and in which no pointer is moved by a register, the ways are the shapes of
/// each run.
pub fn straight_ways_are_runs()
    ensures { (layout : Layout) (program : List Insn) (bytes : List ℕ) → HasNoBranch program →
        MovesNoPointer layout program → IsRecord layout bytes → (n : ℕ) (d : Config) →
        OnWay layout program n d ↔ IsRunShape layout program bytes n d }
{}

/// A uniform program in which the first look finds no fault, and on no way of which a shape is stuck, has a typing.
#[tactic(auto, using(crate::proofs::Ways::uniform_is_typed))]
pub fn uniform_programs_have_typings()
    ensures { (layout : Layout) (program : List Insn) → UniformIsTyped layout program }
{}

/// What the table of instructions says is sound: what follows by it follows in every state that is what is known, and
/// in the one shape; what it refuses fails in that.
pub fn rows_are_sound()
    ensures { (layout : Layout) (i : Insn) (old new : Known) (r : Result Flow WalkFault) →
        WritesNoR10 i → LeavesKnown layout i old new r → IsSoundRow layout i old new r }
{}

/// In every walk, at every slot, at most four cases wait.
#[tactic(auto, using(crate::proofs::Waits::at_most_four))]
pub fn at_most_four_cases_wait()
    ensures { (layout : Layout) (program : List Insn) (slot : ℕ) (rest : List Insn) (waiting : List (List Known)) →
        HasWalked layout program slot rest waiting → (k : ℕ) → length (slice_index_or waiting k []) ≤ 4 }
{}
