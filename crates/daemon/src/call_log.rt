//! The calls that were made of the system's sockets, clocks and random source, and replies to who asks for a reload or for metrics, as a list that only clauses read and that takes no memory.

ghost use Rattle.std.specs.Prelude.{◌≡◌, List, [], ◌∷◌};
ghost use Rattle.std.specs.Borrow.{ftrue};
ghost use Rattle.daemon.specs.Calls.{Logged};
ghost use Rattle.daemon.specs.CallsParts.{call_made};

use event_loop::{Accepted, Ready, Received, Sent, Times};
use std::marker::{Model, PhantomData};

/// A call of the system, and what came of it.
#[derive(Clone, Copy)]
pub(crate) enum SystemCall<'b> {
    /// It was waited, at most so many milliseconds. What was found is at the front.
    Wait {
        limit: Option<u64>,
        count: Option<usize>,
        found: &'b [Ready],
    },
    /// The listener was asked for connections.
    Ask,
    /// A connection was accepted, for a place.
    Accept {
        place: u32,
        came: Accepted,
    },
    /// A connection was read, into a buffer.
    Read {
        place: u32,
        came: Received,
        buffer: &'b [u8],
    },
    /// Bytes were written to a connection.
    Write {
        place: u32,
        took: Sent,
        bytes: &'b [u8],
    },
    /// A connection was closed.
    Close {
        place: u32,
    },
    /// A connection was handed on.
    Pass {
        place: u32,
    },
    /// The clocks were read.
    Look(&'b Option<Times>),
    /// The source of random bytes was asked for 32.
    Draw(&'b Option<[u8; 32]>),
    /// It was replied to who asked for a reload.
    Reply(&'b Option<Vec<u8>>),
    /// These bytes were replied to who asked for metrics.
    Tell(&'b [u8]),
}

/// The calls, the last one first.
#[derive(Drop)]
pub struct CallLog {
    marker: PhantomData<u8>,
    pub ghost calls: { List Logged },
}

impl Model for CallLog {
    ghost also_owns = { λ _. ftrue };
}

impl CallLog {
    /// No call.
    pub(crate) fn new() -> CallLog
        ensures { result.calls ≡ [] }
    {
        CallLog {
            marker: PhantomData,
        }
    }

    /// Notes a call.
    pub(crate) fn note(&mut self, _call: &SystemCall<'_>)
        ensures { self.new.calls ≡ call_made _call.now ∷ self.old.calls }
    {}
}
