//! The registry of owners, scopes and clients (RFC 6749, sections 1.1, 2 and 3.3).
#![tactic(auto)]

mod bounds;
mod client;
mod digest;
mod gateway;
mod grant;
mod limits;
mod operator;
mod owner;
mod redirect;
mod registry;
mod scope;
mod secret;

pub use bounds::{Bounds, ClientBounds, OwnerBounds};
pub use client::Client;
pub use consent::{ClientNo, OwnerNo};
pub use gateway::number_in as owner_number_in;
pub use grant::GrantType;
pub use limits::Limits;
pub use operator::OperatorKey;
pub use owner::OwnerSub;
pub use registry::Registry;
pub use registry_json::fault::ConfigFault;
pub use registry_json::spot::{ClientSpot, Spot, is_of_client, is_of_registry};
