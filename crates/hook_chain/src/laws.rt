//! Laws of the definitions.

ghost use Rattle.std.specs.Prelude.{◌≡◌, ◌↔◌, ℕ, List, Some, length};
ghost use Rattle.insn.specs.declared.instruction.Insn.{Insn};
ghost use Rattle.insn.specs.declared.layout.Layout.{Layout};
ghost use Rattle.insn.specs.Step.{Safe};
ghost use Rattle.insn.specs.Values.{start, IsRecord};
ghost use Rattle.hook_chain.specs.Exits.{exit_within, Exit, IsRunTo};

/// Of a safe program, the exit that is found within as many steps as it has instructions is the one that its run has by
/// the relation of steps, and there is no other.
pub fn exits_are_runs()
    ensures { (layout : Layout) (program : List Insn) (bytes : List ℕ) (exit : Exit) → IsRecord layout bytes → Safe layout program →
        exit_within layout program (length program) (start bytes) ≡ Some exit ↔ IsRunTo layout program bytes exit }
{}
