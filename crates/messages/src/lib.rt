//! The messages of an authorization server, as values: requests, which are slices of the bytes that came, and replies,
//! their texts and their bytes.
#![tactic(auto)]

mod body;
mod build;
mod bytes;
mod error;
pub mod laws;
mod location;
mod media_type;
mod member;
mod object;
mod parts;
mod request;
mod response;
mod target;
mod token;

pub use build::{active, failure, inactive, redirect, tokens, told};
pub use bytes::push_faulty;
pub use error::ErrorName;
pub use member::Member;
pub use object::Object;
pub use request::{Draws, Request};
pub use response::Response;
pub use token::ActiveToken;
