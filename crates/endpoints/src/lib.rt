//! The endpoints of an OAuth 2.0 authorization server: every request has its written reply. What a request comes to is
//! decided by reading alone; what is kept is changed in one place.
#![tactic(auto)]

mod authorize;
mod beside;
mod consenting;
mod documents;
mod expiring;
mod hooks;
mod introspect;
mod laws;
mod leaving;
mod noting;
mod reading;
mod redo;
mod remaking;
mod revoke;
mod right;
mod ruling;
mod server;

pub use answers::{Asked, Document, Endpoint, Replied, Tally, Wanted};
pub use consent::Moment;
pub use laws::{codes_and_tokens_keep_their_bounds, wider_rules_keep_what_is_right};
pub use reading::Reading;
pub use redo::{RedoFault, layout_of};
pub use remaking::Remaking;
pub use ruling::{Checked, Ruling};
pub use server::Server;
