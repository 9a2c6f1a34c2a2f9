//! The steps of a run, in words.

use crate::known_text::from_end;
use insn::state::{Pointer, Region, Value};
use lister::Line;
use machine::trace::Traced;
use std::fmt::{self, Display, Formatter, Write};

/// What a register holds: a number, or an address by its region and its offset. One in the stack is told from the stack's
/// end, where r10 points to.
#[derive(Clone, Copy)]
struct Held(Value);

impl Display for Held {
    fn fmt<W: Write>(&self, f: &mut Formatter<W>) -> fmt::Result {
        match self.0 {
            Value::Number(number) => write!(f, "{number}"),
            Value::Address(Pointer { region, offset }) => match region {
                Region::Record => write!(f, "record, {offset}"),
                Region::Stack => {
                    let behind = from_end(offset);
                    write!(f, "stack, {behind}")
                }
            },
        }
    }
}

/// The lines of a step: the instruction behind its slot, and what it wrote into its register.
#[derive(Clone, Copy)]
pub struct StepLines(pub Traced);

impl Display for StepLines {
    fn fmt<W: Write>(&self, f: &mut Formatter<W>) -> fmt::Result {
        let (slot, line) = (self.0.slot, Line(self.0.insn));
        write!(f, "{slot}: {line}")?;
        match (self.0.insn.written_by(), self.0.written) {
            (Some(register), Some(value)) => {
                let (number, held) = (register.number(), Held(value));
                write!(f, "  r{number}: {held}\n")
            }
            _ => Ok(()),
        }
    }
}
