//! The assembly language: which texts say a program (`specs/Text`), and the first words of its instructions.
//!
//! Crate `assembler` reads texts, crate `lister` writes them.
#![tactic(auto)]

pub mod mnemonic;
mod names;
