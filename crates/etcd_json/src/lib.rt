//! Requests to etcd (version 3) as JSON, and its replies, read.
//!
//! `request` has what is asked: mostly transactions, which compare keys and then change or tell some. `paper` spells it. `reply`
//! has what is told, `reading` reads it. Bytes are base64, and numbers digits in quotes. A member that a reply lacks is 0, empty
//! or false, as etcd leaves these out; what a reply has beside that is passed over.
#![tactic(auto)]

mod number;
mod paper;
mod reading;
mod reply;
mod request;

pub use paper::{
    Paper, compaction_request, grant_request, lease_request, login_request, transaction_request,
};
pub use reading::{
    fault_code, granted_reply, keepalive_reply, login_reply, revision_reply, transaction_reply,
};
pub use reply::{Entry, Found, Granted, Header, Reply, ReplyFault, Response};
pub use request::{Compare, Operation, Target, Transaction};
