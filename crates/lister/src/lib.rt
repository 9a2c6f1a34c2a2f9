//! Programs as text: the lister of the assembly language.
//!
//! `list` writes the canonical text of a program: a line for each instruction, and targets as distances. `slot_lines` puts
//! the slot before each line.
#![tactic(auto)]

mod laws;
mod line;
mod listing;
mod operand;
mod slots;

pub use laws::{a_text_says_one_program, the_canonical_text_says_its_program};
pub use line::Line;
pub use listing::list;
pub use slots::{SlotLine, slot_lines};
