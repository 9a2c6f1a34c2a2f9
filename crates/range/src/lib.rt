//! Sets of words by what is known of them, and the three that know a least and a greatest word.
#![tactic(auto)]

mod condition;
pub mod domain;
pub mod half;
mod place;
pub mod signed;
pub mod unsigned;
pub mod width;
