//! The commands that try a hook: what each answers, by values alone.
//!
//! There is a function for each in `commands` or `asking`; `answer` is what they answer, and `fault` why one has no
//! answer. Each is a value that has all that is told, and its `Display` spells it. `judge` takes a hook's bytes and a
//! record's through the layers below, and `hex_text` reads hex as arguments and files have it. No word of a command line,
//! no file and no status is known here.
//!
//! `why` tells what `verifier::explain` finds, with what the manual says of a fault; `reading` names the registers that
//! an instruction reads, `known_text` spells what is known of one, and `bytes_told` tells of the stack's bytes that a
//! load reads; `way` finds the jumps that lead to an instruction, and `back` where a jump back leads. `trace` spells
//! the steps of a run, and `asking` makes the record that a run is tried on.
#![tactic(auto)]

pub mod answer;
mod asking;
mod back;
mod bytes_told;
mod commands;
pub mod fault;
pub mod hex_text;
pub mod judge;
mod known_text;
mod reading;
mod trace;
mod way;
mod why;

pub use answer::HookAnswer;
pub use asking::{AskWords, asked};
pub use commands::file::{
    assembled, check, code_in, explained_check, listing, listing_with_slots, text_in,
};
pub use commands::run::{run, traced};
pub use fault::HookCommandFault;
pub use hex_text::bytes_of_hex;
