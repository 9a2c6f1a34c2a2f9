//! What all endpoints decide by and answer with: they read what is kept, and write no reply and change nothing themselves.
#![tactic(auto)]

mod answer;
mod asking;
mod decision;
mod endpoint;
mod halt;
mod live;
mod tally;
mod texts;
mod view;
mod want;
mod writing;

pub use answer::Answer;
pub use asking::{
    authenticated_client, form, is_operator, named_client, operator, owner, scope, scope_within,
};
pub use decision::Decision;
pub use endpoint::{Document, ENDPOINTS, Endpoint};
pub use halt::{Halt, status_of};
pub use live::live_token;
pub use tally::{Asked, Cause, Replied, Tally, Wanted};
pub use texts::digest_told;
pub use view::{KnownClient, View};
pub use want::Want;
pub use writing::write;
