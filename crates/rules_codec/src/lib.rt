//! The rules under which a server's history is right, as bytes and back; and what a server has under them.
//!
//! Rules are a byte 0, which tells them apart from the other batches of a state file, and then, with nothing behind it:
//! the names of the scopes, the owners, whether these state their numbers, whether there is a gateway, the clients, the
//! lives of access and refresh tokens (short). An owner is its number (short, from 1), the digest of its key, and what may
//! be missing: the digest of what it is called. A client is its name and the scope that it may be allowed (wide).
//!
//! A list is how many there are (short), and each of them. A wide number has eight bytes and a short one four, the
//! high byte first. A text is its length in bytes (short) and these bytes, and a digest is 32 bytes. Whether is a byte 0 or
//! 1; what may be missing is a byte 0 where it is, and else a byte 1 and the value.
#![tactic(auto)]

mod counting;
mod laws;
mod spelled;
mod standing;
mod whole;

pub use laws::bytes_tell_one_rules;
pub use standing::{KeptHook, Standing};
pub use whole::{decode_rules, encode_rules};
