//! Proof Key for Code Exchange with the method S256 (RFC 7636), and the texts of codes and tokens.
//!
//! `matches` says whether a code verifier proves a code challenge. A code or a token is 32 bytes; `token_text` writes
//! the one text of them in base64url without padding (RFC 4648, section 5), and `read_token` reads that text alone.
#![tactic(auto)]

mod proof;
mod token;

pub use proof::{challenge_ok, matches};
pub use token::{digest_of, read_token, token_text};
