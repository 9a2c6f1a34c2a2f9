//! Up to 64 connections served at once from one thread, by the readiness of their sockets.
//!
//! It knows sockets, clocks, a journal and a keeper by what they do, and makes no system call.
#![tactic(auto)]

mod admit;
mod clocks;
mod due;
mod keep;
mod laws;
mod leave;
mod limits;
mod noting;
mod passing;
mod place;
mod queue;
mod read;
mod report;
mod room;
mod round;
mod serve;
mod service;
mod shorten;
mod tell;
mod tools;
mod turn;

pub use clocks::too_far;
pub use laws::{
    a_shortening_ends, no_reply_is_cut_to_make_room, who_is_passed_on_is_answered,
    who_makes_room_is_answered,
};
pub use limits::{Limits, PLACES, READ_LIMIT};
pub use outside::{
    Accepted, Clocks, ConnectionFault, Journal, LoopFault, Notice, Ready, Received, Report, Sent,
    Sockets, Times,
};
pub use serve::serve_all;
pub use tools::Tools;
