//! Tests over the layers of both halves, each by the public calls of its crate.

mod asked;
mod calls;
mod disk;
mod drawn_requests;
mod draws;
mod exchanges;
mod hooks;
mod hosts;
mod keeping;
mod looks;
mod memory;
mod programs;
mod reloads;
mod room;
mod sockets;
mod store;
mod streams;
mod told;
mod words;
