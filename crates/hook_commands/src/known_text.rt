//! What is known of a register, in words.

use insn::state::STACK_SIZE;
use reg_kind::{Reg, Span};
use std::fmt::{self, Display, Formatter, Write};

/// What is known of a register: that nothing may be read there, or between which numbers, or between which offsets, it
/// lies. An offset in the stack is told from the stack's end, where r10 points to.
#[derive(Clone, Copy)]
pub struct KnownText(pub Reg);

impl Display for KnownText {
    fn fmt<W: Write>(&self, f: &mut Formatter<W>) -> fmt::Result {
        match self.0 {
            Reg::Unset => write!(f, "unset"),
            Reg::Number(set) => {
                let ((least, greatest), (lowest, highest)) = (set.bounds(), set.signed_bounds());
                write!(f, "number, {least} to {greatest}")?;
                if lowest < 0 {
                    write!(f, ", signed {lowest} to {highest}")?;
                }
                Ok(())
            }
            Reg::Record(Span { least, greatest }) => write!(f, "record, {least} to {greatest}"),
            Reg::Stack(Span { least, greatest }) => {
                let (least, greatest) = (from_end(least), from_end(greatest));
                write!(f, "stack, {least} to {greatest}")
            }
        }
    }
}

/// An offset in the stack, as it is told: from its end.
pub fn from_end(offset: u16) -> i32 {
    i32::from(offset) - STACK_SIZE as i32
}
