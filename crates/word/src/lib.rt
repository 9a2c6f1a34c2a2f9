//! Operations on words, in 64 and in 32 bits (RFC 9669, section 4).
//!
//! A word is a `u64`. What a call gives is written in `insn`, on whole numbers; no operand is refused.
#![tactic(auto)]

mod bits;
mod conversion;
mod width;

pub use bits::{alu32, alu64, holds32, holds64, neg32, neg64};
pub use conversion::{extend, swap};
pub use width::{alu, holds, neg, unary};
