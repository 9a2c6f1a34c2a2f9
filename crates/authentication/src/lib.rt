//! Client authentication (RFC 6749, section 2.3): which client of a registry a request comes from.
#![tactic(auto)]

mod authentication;
pub mod laws;

pub use authentication::{AuthFault, authenticate};
