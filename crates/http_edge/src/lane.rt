//! What is kept of a connection.
ghost use Rattle.std.specs.Prelude.{◌≡◌};
ghost use Rattle.http_edge.specs.Schedule.{ended, has_stream_ended, is_closing_phase};

use crate::connection::ConnectionNo;
use crate::output::Output;
use crate::rest::Rest;
use std::marker::Model;

/// How far a connection is.
#[derive(Clone, Copy, Debug, PartialEq, Eq)]
pub enum Phase {
    /// It sends requests.
    Open,
    /// It was answered the 400 of a faulty head. What comes is dropped.
    Closing,
    /// Its stream has ended.
    Ended,
    /// It was answered the 400 of a faulty head, and then its stream ended.
    Closed,
}

impl Phase {
    /// Whether its stream has ended.
    pub(crate) fn has_ended(self) -> bool
        ensures { result ≡ has_stream_ended self }
    {
        match self {
            Phase::Open | Phase::Closing => false,
            Phase::Ended | Phase::Closed => true,
        }
    }

    /// Whether it was answered the 400 of a faulty head.
    pub(crate) fn is_closing(self) -> bool
        ensures { result ≡ is_closing_phase self }
    {
        match self {
            Phase::Closing | Phase::Closed => true,
            Phase::Open | Phase::Ended => false,
        }
    }

    /// The phase in which it is once its stream has ended.
    pub(crate) fn ended(self) -> Phase
        ensures { result ≡ ended self }
    {
        if self.is_closing() {
            Phase::Closed
        } else {
            Phase::Ended
        }
    }
}

/// A connection: its rest that no message was made of yet, and its output that was not taken yet.
#[derive(Drop)]
pub struct Lane {
    pub(crate) number: ConnectionNo,
    pub(crate) phase: Phase,
    pub(crate) rest: Rest,
    pub(crate) output: Output,
}

impl Model for Lane {
    ghost use Rattle.http_edge.specs.Lanes.{SeenLane};

    ghost Value = { SeenLane };

    ghost view = { λ l. record { number = l.number; phase = l.phase; rest = l.rest.bytes; output = l.output.bytes.items; ends = l.output.ends.items } };
}

impl Lane {
    /// The number of the connection.
    pub fn number(&self) -> ConnectionNo
        ensures { result ≡ self.now.number }
    {
        self.number
    }

    /// The bytes to it that were not taken yet.
    pub fn output(&self) -> &[u8]
        ensures { result.now ≡ self.now.output }
    {
        self.output.bytes.as_slice()
    }
}
