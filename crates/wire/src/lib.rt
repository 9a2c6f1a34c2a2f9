//! Values as bytes, and back.
//!
//! A format (specs/Format.antt) says how each value of a type is spelled, which values have a spelling, and what bytes are
//! read as, with its laws: what is read is spelled so, and what is spelled so is read again, whatever follows. Formats are
//! made of formats, one behind the other, as a list, or as one of several behind a byte that tells which, and the laws of
//! what is made follow. So the impls of `Wire` and `FromWire` for a type say which fields it has, in which order.
//!
//! A number is spelled with the high byte first. A text, and bytes of any number, are how many bytes there are (in four
//! bytes) and these bytes; a list is how many there are (in four bytes) and each of them. Whether is a byte 0 or 1; what may
//! be missing is a byte 0 where it is, and else a byte 1 and the value.
#![tactic(auto)]

mod bytes;
mod fault;
mod lists;
mod numbers;
mod reader;
mod whole;
mod wire;

pub use fault::{DecodeFault, EncodeFault, Fault};
pub use reader::Reader;
pub use whole::{decode, encode, spells_one};
pub use wire::{FromWire, Wire};
