//! What a state file stands for, as lines of JSON for people: one for each consent, family, token and hook, and the last
//! one for the file. No line has a secret: of a digest it has the first 8 hex digits.
#![tactic(auto)]

mod facts;
mod line;
mod lines;
mod rows;

pub use facts::FileFacts;
pub use lines::listing;
