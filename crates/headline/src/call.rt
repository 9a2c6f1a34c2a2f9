//! Calls on an edge, and what comes of them.
use http_edge::{ConnectionNo, EdgeFault, Event};

/// A call on an edge.
#[derive(Clone, Copy)]
pub enum EdgeCall<'a> {
    /// This comes on a connection: it is opened, a piece of its stream came, or its stream ended.
    Event(Event<'a>),
    /// At most so many of the bytes to a connection are taken.
    Take {
        connection: ConnectionNo,
        most: usize,
    },
    /// A connection is forgotten, if it is there.
    Forget(ConnectionNo),
}

/// What came of a call.
#[derive(Drop)]
pub enum Upshot {
    /// It was done, and these bytes were taken: none but by `Take`.
    Done(Vec<u8>),
    /// It was refused for this, and changed nothing.
    Refused(EdgeFault),
}
