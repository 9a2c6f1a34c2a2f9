//! Lines that are written without waiting.

ghost use Rattle.std.specs.Prelude.{◌≡◌, ◌≤◌, IfOk, length, true};

use crate::outlet::Outlet;
use std::alloc::Global;
use std::fs::File;
use std::io::{self, Stdout, Write};
use std::net::Net;

/// What has room takes so many bytes without waiting (POSIX, `PIPE_BUF`).
const PIECE: usize = 4096;

/// What lines are written to.
#[derive(Drop)]
enum Sink {
    File(File),
    Output(Stdout),
}

impl Sink {
    fn write(&mut self, bytes: &[u8]) -> io::Result<usize>
        ensures { IfOk result (λ count. count ≤ length bytes.now) }
    {
        match self {
            Sink::File(file) => file.write(bytes),
            Sink::Output(output) => output.write(bytes),
        }
    }
}

/// Lines are written to it without waiting: what there is no room for comes later, before all else.
#[derive(Drop)]
pub struct LineSink {
    sink: Sink,
    /// That of the sink.
    outlet: Outlet,
    /// The last line, and how much of it is written.
    pub(crate) line: Vec<u8>,
    written: usize,
}

impl LineSink {
    fn new(alloc: Global, sink: Sink, outlet: Outlet) -> LineSink {
        LineSink {
            sink,
            outlet,
            line: Vec::new(alloc),
            written: 0,
        }
    }

    /// Lines at the end of a file.
    pub(crate) fn of_file(alloc: Global, file: File) -> LineSink {
        LineSink::new(alloc, Sink::File(file), Outlet::of_file())
    }

    /// Lines on standard output.
    pub(crate) fn of_output<R: Net>(rt: &R, alloc: Global, stdout: Stdout) -> LineSink {
        LineSink::new(alloc, Sink::Output(stdout), Outlet::of_output(rt, alloc))
    }

    // Writes a piece of what is left of the last line, and says whether some of it was.
    fn write_piece(&mut self) -> bool
        ensures { self.new.line ≡ self.old.line }
    {
        if !self.outlet.is_free() {
            return false;
        }
        let left = self.line.get(self.written..).unwrap_or(&[]);
        let piece = left.get(..PIECE).unwrap_or(left);
        match self.sink.write(piece) {
            Ok(count) => {
                self.written = self.written.saturating_add(count);
                count > 0
            }
            Err(_) => false,
        }
    }

    // Writes what is left of the last line, as far as there is room, and says whether nothing is left.
    fn finish(&mut self) -> bool
        ensures { self.new.line ≡ self.old.line }
    {
        for _nth in 0..self.line.len() {
            if self.written >= self.line.len() || !self.write_piece() {
                break;
            }
        }
        self.written >= self.line.len()
    }

    /// Writes a line behind the others, and says whether it has its place there.
    pub(crate) fn write(&mut self, line: Vec<u8>) -> bool
        ensures { result ≡ true → self.new.line ≡ line }
    {
        if !self.finish() {
            return false;
        }
        self.line = line;
        self.written = 0;
        if self.finish() || self.written > 0 {
            return true;
        }
        self.line.clear();
        false
    }
}
