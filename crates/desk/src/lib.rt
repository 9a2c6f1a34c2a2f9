//! What a request for a reload or for metrics is, what comes of the registry's file, and how both are answered.
//!
//! A server is asked for a reload by `POST /reload`, and for metrics by `GET /metrics`, the first request of its connection, with the
//! operator's key.
#![tactic(auto)]

mod candidate;
mod judging;
mod not_begun;
mod reading;
mod reply;
mod scraping;

pub use candidate::{Candidate, ReloadFault};
pub use judging::{Judged, PEEK_LIMIT, judge};
pub use not_begun::{NotBegun, keeps_names, refused, reply_of, state_reply};
pub use reading::candidate_of;
pub use reply::{Refusal, Reloaded, granted_reply, refusal_reply};
pub use scraping::{metrics_reply, scrape_reply};
