//! The bytes of programs (RFC 9669, section 3): `decode` reads a program or names the first fault, `encode` writes one.
//!
//! `specs/Spelling` has the table of opcodes, and says which bytes are a program.
#![tactic(auto)]

mod codes;
mod decoding;
mod encoding;
pub mod laws;
pub mod slot;
pub mod slot_fault;

pub use decoding::decode;
pub use encoding::encode;
