//! The instructions of RFC 9669 that token hooks are written in: their types, and what they mean.
//!
//! The meaning stands in `specs/`: `Step` (what a program does), `Outcomes` (what comes of an instruction), `FirstLook` (what a verifier looks at first). Crate
//! `verifier` has programs whose paths agree, crate `encoding` the bytes of programs, crate `assembly` their texts.
#![tactic(auto)]

pub mod action;
pub mod fault;
pub mod first_look;
pub mod instruction;
pub mod laws;
pub mod layout;
pub mod operation;
pub mod places;
pub mod program;
pub mod register;
mod starts;
pub mod state;
pub mod verify_fault;
