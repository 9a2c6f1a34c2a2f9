//! Requests that were read and are not answered yet, and since when.
ghost use Rattle.std.specs.Prelude.{◌≡◌};
ghost use Rattle.metrics.specs.Watching.{after_read, no_watches, path_kept, timed_at, unwatched, watch_at};

use crate::target::path_in;
use answers::Endpoint;

/// So many connections are there at most.
const PLACES: usize = 64;

/// A request that was read, or a part of it: its path, where that is an endpoint's, and when the last part came, in nanoseconds.
#[derive(Clone, Copy)]
pub struct Watch {
    pub path: Option<Endpoint>,
    pub since: u64,
}

/// How long a request took that was answered, in nanoseconds, and its path, where that is an endpoint's.
#[derive(Clone, Copy)]
pub struct Timed {
    pub path: Option<Endpoint>,
    pub nanos: u64,
}

/// What was read of the connection at each place and is not answered yet.
#[derive(Clone, Copy)]
pub struct Watches {
    waiting: [Option<Watch>; PLACES],
}

// The path of what was read before and is not answered, or of these bytes.
fn path_kept(watch: Option<Watch>, bytes: &[u8]) -> Option<Endpoint>
    ensures { result ≡ path_kept watch bytes.now }
{
    match watch {
        Some(watch) => watch.path,
        None => path_in(bytes),
    }
}

impl Watches {
    /// Nothing was read.
    pub fn new() -> Watches
        ensures { result ≡ no_watches }
    {
        Watches {
            waiting: [None; PLACES],
        }
    }

    // What was read of a connection and is not answered yet.
    fn at(&self, place: usize) -> Option<Watch>
        ensures { result ≡ watch_at self.now place }
    {
        match self.waiting.get(place) {
            Some(watch) => *watch,
            None => None,
        }
    }

    /// These bytes were read of a connection.
    pub fn read(&mut self, place: u32, bytes: &[u8], now: u64)
        ensures { self.new ≡ after_read self.old place bytes.now now }
    {
        let place = place as usize;
        if place < PLACES {
            let path = path_kept(self.at(place), bytes);
            self.waiting[place] = Some(Watch { path, since: now });
        }
    }

    /// All replies to what was read of a connection were written, or it is over: nothing is watched there any more.
    pub fn forget(&mut self, place: u32)
        ensures { self.new ≡ unwatched self.old place }
    {
        let place = place as usize;
        if place < PLACES {
            self.waiting[place] = None;
        }
    }

    /// How long what was read of a connection waits by now.
    pub fn timed(&self, place: u32, now: u64) -> Option<Timed>
        ensures { result ≡ timed_at self.now place now }
    {
        match self.at(place as usize) {
            Some(watch) => Some(Timed {
                path: watch.path,
                nanos: now.saturating_sub(watch.since),
            }),
            None => None,
        }
    }
}
