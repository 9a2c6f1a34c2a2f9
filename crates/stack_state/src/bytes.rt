//! What is known of eight bytes one by one, and of the number that they spell.

ghost use Rattle.std.specs.Prelude.{◌≡◌, ◌≤◌, ◌<◌, ℕ, IsTrue, slice_index_or, true};
ghost use Rattle.stack_state.specs.Accesses.{touched};
ghost use Rattle.stack_state.specs.Joins.{AreCommon};
ghost use Rattle.stack_state.specs.BlocksParts.{AreTouched};

use crate::mark::Mark;
use reg_kind::Span;
use scalar::Scalar;

/// What is known of eight bytes: some word of a number has each of those that are known as bytes.
#[derive(Clone, Copy)]
pub struct Bytes {
    pub(crate) marks: [Mark; 8],
    pub(crate) number: Scalar,
}

impl Bytes {
    /// What is known of each.
    pub fn marks(&self) -> &[Mark; 8]
        ensures { result.now ≡ self.now.marks }
    {
        &self.marks
    }

    /// The number that they spell.
    pub fn number(&self) -> Scalar
        ensures { result ≡ self.now.number }
    {
        self.number
    }
}

/// What is known of each of eight bytes after a store at a span that touches some of them, or may touch them.
pub(crate) fn touched_marks(marks: [Mark; 8], from: usize, to: usize, span: Span) -> [Mark; 8]
    requires some { from < to }
    requires inside { to ≤ 8 }
    ensures { AreTouched from to span marks result }
{
    let mut new = marks;
    for j in from..to {
        new[j] = marks[j].touched(span);
    }
    new
}

/// What is known of each of eight bytes where either is.
pub(crate) fn common_marks(marks: [Mark; 8], others: [Mark; 8]) -> [Mark; 8]
    ensures { AreCommon marks others result }
{
    let mut new = marks;
    for j in 0..8 {
        new[j] = marks[j].join(others[j]);
    }
    new
}

/// Whether what is known of each of eight bytes is known of others.
pub(crate) fn covers_marks(marks: &[Mark; 8], others: &[Mark; 8]) -> bool
    ensures common { IsTrue result → AreCommon marks.now others.now marks.now }
    ensures itself { ((j : ℕ) → j < 8 → slice_index_or others.now j Mark.Unset ≡ slice_index_or marks.now j Mark.Unset) → result ≡ true }
{
    for i in 0..8 {
        if marks[i].join(others[i]) != marks[i] {
            return false;
        }
    }
    true
}
