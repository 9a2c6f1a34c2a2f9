//! What the loop asks of sockets.
ghost use Rattle.std.specs.Prelude.{◌<◌, length};

/// What a wait found ready. Readiness is told once: of a connection again only after a read or a write came short, of the
/// listener only after an accept found nobody, or after it was asked.
#[derive(Clone, Copy, Debug)]
pub enum Ready {
    /// A connection waits to be accepted.
    Listener,
    /// The loop is to end for a reload, once it may.
    Reload,
    /// A connection may be read, its end too, or written.
    Connection {
        place: u32,
        readable: bool,
        writable: bool,
        /// The peer sends no more, so that reads go on to the end.
        hung: bool,
    },
}

/// What came of an accept.
#[derive(Clone, Copy, Debug)]
pub enum Accepted {
    /// A connection came.
    Taken,
    /// None waits.
    Later,
    /// It failed.
    Failed,
}

/// What came of a read.
#[derive(Clone, Copy, Debug)]
pub enum Received {
    /// So many bytes, at least one.
    Bytes(usize),
    /// The stream's end.
    End,
    /// None yet.
    Later,
    /// It failed.
    Failed,
}

/// What came of a write.
#[derive(Clone, Copy, Debug)]
pub enum Sent {
    /// So many bytes were taken, at least one.
    Bytes(usize),
    /// None yet.
    Later,
    /// It failed.
    Failed,
}

/// A listener, and up to 64 connections by their places. None of them blocks.
pub trait Sockets {
    ghost use Rattle.outside.specs.Calls.{Call, Asked, Closed, Passed, Tried, wait_call, read_call, write_call, FindsWithin, ReadsWithin, SendsWithin};

    // The sockets did something, and are others from then on.
    ghost does: { Self → Call → Self → Type 0 };

    /// Waits until something is ready, at most so many milliseconds, or for ever at `None`. What is ready is put at the
    /// front of `found`; how much it is, or `None` where the wait failed.
    fn wait(&mut self, limit: Option<u64>, found: &mut [Ready]) -> Option<usize>
        ensures within { FindsWithin result (length found.new) }
        ensures done { does self.old (wait_call limit result found.new) self.new };

    /// Has the next wait tell whether a connection waits to be accepted.
    fn ask(&mut self)
        ensures { does self.old Asked self.new };

    /// Puts the next connection at a place that is free.
    fn accept(&mut self, place: u32) -> Accepted
        ensures { does self.old (Tried place result) self.new };

    /// Reads into a buffer that has room.
    fn read(&mut self, place: u32, buffer: &mut [u8]) -> Received
        requires room { 0 < length buffer.old }
        ensures within { ReadsWithin result (length buffer.new) }
        ensures done { does self.old (read_call result place buffer.new) self.new };

    /// Writes the bytes, or as many of them as the socket takes.
    fn write(&mut self, place: u32, bytes: &[u8]) -> Sent
        ensures within { SendsWithin result (length bytes.now) }
        ensures done { does self.old (write_call result place bytes.now) self.new };

    /// Closes a connection.
    fn close(&mut self, place: u32)
        ensures { does self.old (Closed place) self.new };

    /// Hands a connection on: whoever accepts connections next is given it, as one that came.
    fn pass(&mut self, place: u32)
        ensures { does self.old (Passed place) self.new };
}
