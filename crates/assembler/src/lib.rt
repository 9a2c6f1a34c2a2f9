//! The assembler of token hooks: programs from their text.
//!
//! The language stands in `assembly` (`Text`): which texts say a program. `Faults` says why a text says none.
#![tactic(auto)]

mod assembling;
mod draft;
mod fault;
mod form;
pub mod laws;
mod line;
mod operand;
mod sheet;
mod slot_number;

pub use assembling::assemble;
pub use fault::AsmFault;
