//! Connections of bytes in and out over a server, whose requests have their draws from a generator, or as they are handed in.
#![tactic(auto)]

mod answering;
mod chance;
mod connection;
mod draw_list;
mod edge;
mod event;
mod fault;
mod hearing;
mod lane;
mod limits;
mod output;
mod rest;
mod room;
mod source;
mod wanting;

pub use connection::ConnectionNo;
pub use edge::Edge;
pub use event::Event;
pub use fault::EdgeFault;
pub use lane::Lane;
pub use limits::{
    CONNECTION_LIMIT, PIECE_LIMIT, REPLY_LIMIT, REQUEST_LIMIT, limits_are_the_defined_ones,
};
pub use source::{Demand, DrawSource};
pub use wanting::unwanted_draws_are_unread;
