//! The checked machine: it runs a program on a record, and tests each access before it makes it.
//!
//! `run` goes through a program, `trace` does so and tells each step, `frame` does one instruction on the registers, the
//! stack and the record, `values` computes, and `memory` and `cells` read and write. What a program means stands in
//! `specs/Step` of crate `insn`.
#![tactic(auto)]

mod cells;
mod frame;
mod memory;
mod registers;
pub mod run;
pub mod trace;
mod values;
