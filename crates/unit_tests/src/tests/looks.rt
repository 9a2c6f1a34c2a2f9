//! Two clients that ask for a token each, the second one while what the first one changed is not kept yet.

use super::sockets::{Count, Ticking, edge_that_notes, limits};
use change_codec::NoKeeper;
use event_loop::{Accepted, LoopFault, Ready, Received, Sent, Sockets, Tools, serve_all};
use rand_chacha::ChaCha20Rng;
use rand_core::SeedableRng;
use std::test::Fail;
use telling::Tellings;

const ASKS: &str =
    "POST /token HTTP/1.1\r\nContent-Length: 61\r\n\r\ngrant_type=client_credentials&client_id=bot&client_secret=b0t";

/// Sockets of two clients, which come at the first wait.
#[derive(Drop)]
struct Pair {
    come: u32,
    waits: u32,
    reads: u32,
    /// How many reads had been done at each write.
    writes: Vec<u32>,
}

fn asks(place: u32) -> Ready {
    Ready::Connection {
        place,
        readable: true,
        writable: true,
        hung: false,
    }
}

impl Sockets for Pair {
    ghost use Rattle.std.specs.Prelude.{⊤};

    ghost does = { λ _ _ _. ⊤ };

    fn wait(&mut self, _limit: Option<u64>, found: &mut [Ready]) -> Option<usize> {
        if found.is_empty() {
            return None;
        }
        self.waits = self.waits.saturating_add(1);
        found[0] = match self.waits {
            1 => Ready::Listener,
            2 => asks(0),
            3 => asks(1),
            4 => return Some(0),
            _ => return None,
        };
        Some(1)
    }

    fn ask(&mut self) {}

    fn accept(&mut self, _place: u32) -> Accepted {
        if self.come >= 2 {
            return Accepted::Later;
        }
        self.come = self.come.saturating_add(1);
        Accepted::Taken
    }

    fn read(&mut self, _place: u32, buffer: &mut [u8]) -> Received {
        let count = ASKS.len().min(buffer.len());
        if count == 0 {
            return Received::Failed;
        }
        buffer[..count].copy_from_slice(&ASKS.as_bytes()[..count]);
        self.reads = self.reads.saturating_add(1);
        Received::Bytes(count)
    }

    fn write(&mut self, _place: u32, bytes: &[u8]) -> Sent {
        let Ok(()) = self.writes.push(self.reads) else {
            return Sent::Failed;
        };
        if bytes.is_empty() {
            return Sent::Failed;
        }
        Sent::Bytes(bytes.len())
    }

    fn close(&mut self, _place: u32) {}

    fn pass(&mut self, _place: u32) {}
}

#[test]
fn a_request_that_comes_meanwhile_is_kept_with_the_first(rt: HostRuntime) -> Result<(), Fail> {
    let mut tools = Tools {
        sockets: Pair {
            come: 0,
            waits: 0,
            reads: 0,
            writes: Vec::new(rt.alloc()),
        },
        edge: edge_that_notes(rt.alloc(), true)?,
        clocks: Ticking { steady: 0 },
        generator: ChaCha20Rng::from_seed([0; 32]),
        journal: Count::new(),
        keeper: NoKeeper,
        tellings: Tellings::unwanted(rt.alloc()),
    };
    assert_eq!(rt; serve_all(&mut tools, limits(None)), LoopFault::Wait);
    // Nothing was written before both were read.
    let writes: &[u32] = &[2, 2];
    assert_eq!(rt; tools.sockets.writes.as_slice(), writes);
    assert_eq!(rt; tools.sockets.waits, 5);
    Ok(())
}
