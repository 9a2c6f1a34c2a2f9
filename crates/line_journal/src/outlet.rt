//! Whether standard error, or standard output, takes a line at once.

use mio::unix::SourceFd;
use mio::{Events, Interest, Poll, Token};
use std::alloc::Global;
use std::net::Net;
use std::os::fd::RawFd;
use std::time::Duration;

/// The number of standard output (POSIX, `STDOUT_FILENO`).
const STANDARD_OUTPUT: RawFd = 1;

/// The number of standard error (POSIX, `STDERR_FILENO`).
const STANDARD_ERROR: RawFd = 2;

/// It alone is watched.
const TOKEN: Token = Token(0);

/// Tells whether standard error, or standard output, takes a line at once. A pipe or a socket whose reader stands still is full at
/// some time, and a write to it then waits for the reader. What has room takes 4,096 bytes (POSIX, `PIPE_BUF`) without waiting.
#[derive(Drop)]
pub struct Outlet {
    watch: Option<Watch>,
}

/// What the system is asked by.
#[derive(Drop)]
struct Watch {
    of: RawFd,
    poll: Poll,
    events: Events,
}

/// A watch of what has a number; `None` where the system watches no such thing, as a file on a disk, which always has room.
fn watch_of<R: Net>(rt: &R, alloc: Global, of: RawFd) -> Option<Watch> {
    let events = Events::with_capacity(alloc, 1).ok()?;
    let poll = Poll::new(rt).ok()?;
    poll.registry()
        .register(&mut SourceFd(&of), TOKEN, Interest::WRITABLE)
        .ok()?;
    Some(Watch { of, poll, events })
}

impl Watch {
    /// Whether there is room now. Where the system does not say, it is taken to be there.
    fn is_free(&mut self) -> bool {
        let mut source = SourceFd(&self.of);
        let Ok(()) = self
            .poll
            .registry()
            .reregister(&mut source, TOKEN, Interest::WRITABLE)
        else {
            return true;
        };
        let Ok(()) = self.poll.poll(&mut self.events, Some(Duration::ZERO)) else {
            return true;
        };
        !self.events.is_empty()
    }
}

impl Outlet {
    /// That of standard error.
    pub fn new<R: Net>(rt: &R, alloc: Global) -> Outlet {
        Outlet {
            watch: watch_of(rt, alloc, STANDARD_ERROR),
        }
    }

    /// That of standard output.
    pub fn of_output<R: Net>(rt: &R, alloc: Global) -> Outlet {
        Outlet {
            watch: watch_of(rt, alloc, STANDARD_OUTPUT),
        }
    }

    /// That of a file on a disk, which always has room.
    pub fn of_file() -> Outlet {
        Outlet { watch: None }
    }

    /// Whether a line of at most 4,096 bytes is taken at once.
    pub fn is_free(&mut self) -> bool {
        match &mut self.watch {
            Some(watch) => watch.is_free(),
            None => true,
        }
    }
}
