//! What may have been on a disk before.

ghost use Rattle.std.specs.Prelude.{⊤, List, ℕ};

/// What may have stood on the disk of a file before this program opened it, of which the system tells nothing: an earlier
/// program's rename may have succeeded without its folder's sync, so what is read may not be there. No program has a value of
/// it: whoever reads a law chooses it, as what a crash of the life before might have left.
pub trait Before {
    /// What may have stood there.
    ghost left: { List ℕ → Type 0 };
}

/// Anything may have.
#[derive(Clone, Copy, Drop)]
pub struct Unknown;

impl Before for Unknown {
    ghost left = { λ _. ⊤ };
}
