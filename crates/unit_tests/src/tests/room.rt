//! Clients that ask in each second, of which 64 have a place, and others that wait for one.

use super::sockets::{Count, Ticking, edge_that_notes};
use change_codec::NoKeeper;
use clients::ConfigFault;
use event_loop::{Accepted, Limits, LoopFault, Ready, Received, Sent, Sockets, Tools, serve_all};
use rand_chacha::ChaCha20Rng;
use rand_core::SeedableRng;
use std::alloc::Global;
use std::test::Fail;
use telling::Tellings;

const REQUEST: &[u8; 19] = b"GET /x HTTP/1.1\r\n\r\n";

// How many bytes its reply has.
const REPLY: usize = 45;

/// A client at a place, whether it asked and was not read yet, and how many bytes it took.
#[derive(Clone, Copy, Default)]
struct Guest {
    is_there: bool,
    asks: bool,
    taken: usize,
}

/// Sockets at which so many clients wait in the first round.
#[derive(Drop)]
struct Crowd {
    guests: Vec<Guest>,
    waiting: u32,
    is_asked: bool,
    // How many bytes each takes in a round at most.
    most: usize,
    rounds: u32,
    // The round in which the first one came that had to wait, 0 before it.
    first_room: u32,
    // How many were closed while they took a reply, and how many while they had asked for one.
    cut: u32,
    unheard: u32,
}

impl Sockets for Crowd {
    ghost use Rattle.std.specs.Prelude.{⊤};

    ghost does = { λ _ _ _. ⊤ };

    fn wait(&mut self, _limit: Option<u64>, found: &mut [Ready]) -> Option<usize> {
        if self.rounds >= 60 {
            return None;
        }
        self.rounds = self.rounds.saturating_add(1);
        let mut count = 0usize;
        let mut place = 0u32;
        for guest in self.guests.iter_mut() {
            if guest.is_there && count < found.len() {
                guest.asks = true;
                found[count] = Ready::Connection {
                    place,
                    readable: true,
                    writable: true,
                    hung: false,
                };
                count += 1;
            }
            place = place.wrapping_add(1);
        }
        if self.is_asked && self.waiting > 0 && count < found.len() {
            self.is_asked = false;
            found[count] = Ready::Listener;
            count += 1;
        }
        Some(count.min(found.len()))
    }

    fn ask(&mut self) {
        self.is_asked = true;
    }

    fn accept(&mut self, place: u32) -> Accepted {
        if self.waiting == 0 {
            self.is_asked = true;
            return Accepted::Later;
        }
        self.waiting = self.waiting.saturating_sub(1);
        if self.first_room == 0 && self.rounds > 2 {
            self.first_room = self.rounds;
        }
        if let Some(guest) = self.guests.get_mut(place as usize) {
            guest.is_there = true;
        }
        Accepted::Taken
    }

    fn read(&mut self, place: u32, buffer: &mut [u8]) -> Received {
        let Some(guest) = self.guests.get_mut(place as usize) else {
            return Received::Failed;
        };
        if !guest.asks || buffer.len() < 19 {
            return Received::Later;
        }
        guest.asks = false;
        buffer[..19].copy_from_slice(&REQUEST[..19]);
        Received::Bytes(19)
    }

    fn write(&mut self, place: u32, bytes: &[u8]) -> Sent {
        let Some(guest) = self.guests.get_mut(place as usize) else {
            return Sent::Failed;
        };
        if bytes.is_empty() {
            return Sent::Failed;
        }
        let count = bytes.len().min(self.most);
        if count == 0 {
            return Sent::Later;
        }
        guest.taken = guest.taken.saturating_add(count);
        Sent::Bytes(count)
    }

    fn close(&mut self, place: u32) {
        let Some(guest) = self.guests.get_mut(place as usize) else {
            return;
        };
        if self.rounds < 60 && guest.taken % REPLY != 0 {
            self.cut = self.cut.saturating_add(1);
        }
        if self.rounds < 60 && guest.asks {
            self.unheard = self.unheard.saturating_add(1);
        }
        *guest = Guest::default();
    }

    fn pass(&mut self, _place: u32) {}
}

/// 80 clients come.
fn serve_crowd(alloc: Global, most: usize) -> Result<(Crowd, LoopFault), ConfigFault> {
    let sockets = Crowd {
        guests: Vec::from_elem(alloc, Guest::default(), 64)?,
        waiting: 80,
        is_asked: true,
        most,
        rounds: 0,
        first_room: 0,
        cut: 0,
        unheard: 0,
    };
    let mut tools = Tools {
        sockets,
        edge: edge_that_notes(alloc, false)?,
        clocks: Ticking { steady: 0 },
        generator: ChaCha20Rng::from_seed([0; 32]),
        journal: Count::new(),
        keeper: NoKeeper,
        tellings: Tellings::unwanted(alloc),
    };
    let limits = Limits {
        idle: u64::MAX,
        crowded: 5,
        report: None,
        ahead: None,
    };
    let fault = serve_all(&mut tools, limits);
    Ok((tools.sockets, fault))
}

#[test]
fn those_that_ask_without_end_make_room(rt: HostRuntime) -> Result<(), Fail> {
    let (crowd, fault) = serve_crowd(rt.alloc(), usize::MAX)?;
    assert_eq!(rt; fault, LoopFault::Wait);
    assert_eq!(rt; crowd.waiting, 0);
    assert_eq!(rt; crowd.cut, 0);
    assert_eq!(rt; crowd.unheard, 0);
    // They came in round 1, in the second 2 of the clock, so more than five seconds are over in its second 8.
    assert_eq!(rt; crowd.first_room, 7);
    Ok(())
}

#[test]
fn those_that_are_owed_without_end_make_room_too(rt: HostRuntime) -> Result<(), Fail> {
    let (crowd, fault) = serve_crowd(rt.alloc(), 20)?;
    assert_eq!(rt; fault, LoopFault::Wait);
    assert_eq!(rt; crowd.cut, 0);
    // One is chosen in round 7, takes the rest of the reply that it is taking, and none of the five behind it.
    assert_eq!(rt; crowd.first_room, 8);
    Ok(())
}

#[test]
fn one_that_takes_a_reply_slowly_is_not_the_only_one_chosen(rt: HostRuntime) -> Result<(), Fail> {
    let (crowd, fault) = serve_crowd(rt.alloc(), 1)?;
    assert_eq!(rt; fault, LoopFault::Wait);
    assert_eq!(rt; crowd.cut, 0);
    // From round 2 on each takes a byte of 45 in a round. From round 7 on one more is chosen in each sixth: seven until these have the
    // first reply.
    assert_eq!(rt; crowd.first_room, 46);
    assert_eq!(rt; crowd.waiting, 9);
    Ok(())
}
