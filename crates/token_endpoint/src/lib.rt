//! POST /token (RFC 6749, section 3.2), decided by reading: an exchanged code, a used refresh token, a client's own grant.
#![tactic(auto)]

mod asks;
mod credentials;
mod exchange;
mod granting;
mod laws;
mod refresh;
mod token;

pub use asks::{Lineage, ask_by_grant, grant_asked, presented};
pub use laws::the_host_is_asked_that_alone;
pub use token::decide;
