//! What bytes come from and go to.
ghost use Rattle.std.specs.Prelude.{◌<◌, length};
ghost use Rattle.std.specs.Io.{ReadsAtMost, WritesAtMost};
ghost use Rattle.serving.specs.Streams.{Doing, receiving, sending, does_by};

use std::io::{self, Read, Write};

/// A stream that is read and written. Each `Read + Write` is one.
pub trait Stream {
    // A stream did something, and is another from then on.
    ghost does: { Self → Doing → Self → Type 0 };

    /// Reads into a buffer that has room, and says how many bytes came. None come at the stream's end.
    fn receive(&mut self, buffer: &mut [u8]) -> io::Result<usize>
        requires room { 0 < length buffer.old }
        ensures within { ReadsAtMost result buffer.new }
        ensures done { does self.old (receiving result buffer.new) self.new };

    /// Writes the bytes, or as many of them as the stream takes, and says how many.
    fn send(&mut self, bytes: &[u8]) -> io::Result<usize>
        ensures within { WritesAtMost result bytes.now }
        ensures done { does self.old (sending result bytes.now) self.new };
}

impl<S: Read + Write> Stream for S {
    ghost does = { does_by S.remaining S.contents };

    fn receive(&mut self, buffer: &mut [u8]) -> io::Result<usize> {
        self.read(buffer)
    }

    fn send(&mut self, bytes: &[u8]) -> io::Result<usize> {
        self.write(bytes)
    }
}
