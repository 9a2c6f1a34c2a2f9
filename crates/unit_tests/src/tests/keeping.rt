//! A client whose requests come one a round, some of which change something, over a keeper that fails after so many batches.

ghost use Rattle.std.specs.Prelude.{◌≡◌, max};
ghost use Rattle.change_codec.specs.Keeping.{horizon_of};

use super::sockets::{Count, Ticking, edge_that_notes, limits};
use change_codec::{Batch, KeepFault, Keeper, Length, ShortenFault, decode};
use clients::ConfigFault;
use consent::Moment;
use event_loop::{Accepted, LoopFault, Ready, Received, Sent, Sockets, Tools, serve_all};
use rand_chacha::ChaCha20Rng;
use rand_core::SeedableRng;
use std::alloc::Global;
use std::cell::Cell;
use std::test::Fail;
use telling::Tellings;

/// It changes something: a token is issued.
const ASKS: &str =
    "POST /token HTTP/1.1\r\nContent-Length: 61\r\n\r\ngrant_type=client_credentials&client_id=bot&client_secret=b0t";

/// It keeps nine batches, and has nothing to shorten.
const PATIENT: Ways = Ways {
    most: 9,
    confirms: 999,
    slices: 0,
    is_refusing: false,
    pressed_until: 0,
};

/// It changes nothing.
const STRAYS: &str = "GET /x HTTP/1.1\r\n\r\n";

/// Sockets with one client, a request of which comes in each round until there are no more.
#[derive(Drop)]
struct OneClient<'t> {
    requests: &'t [&'t str],
    /// How many of them were read.
    read: usize,
    has_come: bool,
    kept: &'t Cell<usize>,
    /// How many batches had been kept at each write.
    writes: Vec<usize>,
}

impl Sockets for OneClient<'_> {
    ghost use Rattle.std.specs.Prelude.{⊤};

    ghost does = { λ _ _ _. ⊤ };

    fn wait(&mut self, _limit: Option<u64>, found: &mut [Ready]) -> Option<usize> {
        if self.read >= self.requests.len() || found.is_empty() {
            return None;
        }
        found[0] = if self.has_come {
            Ready::Connection {
                place: 0,
                readable: true,
                writable: true,
                hung: false,
            }
        } else {
            Ready::Listener
        };
        Some(1)
    }

    fn ask(&mut self) {}

    fn accept(&mut self, _place: u32) -> Accepted {
        if self.has_come {
            return Accepted::Later;
        }
        self.has_come = true;
        Accepted::Taken
    }

    fn read(&mut self, _place: u32, buffer: &mut [u8]) -> Received {
        let Some(request) = self.requests.get(self.read) else {
            return Received::Later;
        };
        let count = request.len().min(buffer.len());
        if count == 0 {
            return Received::Failed;
        }
        buffer[..count].copy_from_slice(&request.as_bytes()[..count]);
        self.read = self.read.saturating_add(1);
        Received::Bytes(count)
    }

    fn write(&mut self, _place: u32, bytes: &[u8]) -> Sent {
        let Ok(()) = self.writes.push(self.kept.get()) else {
            return Sent::Failed;
        };
        if bytes.is_empty() {
            return Sent::Failed;
        }
        Sent::Bytes(bytes.len())
    }

    fn close(&mut self, _place: u32) {}

    fn pass(&mut self, _place: u32) {}
}

/// It keeps so many batches.
#[derive(Drop)]
struct Patient<'t> {
    alloc: Global,
    most: usize,
    /// How often it confirms still that nobody else has begun.
    confirms: usize,
    kept: &'t Cell<usize>,
    /// How many changes each batch had.
    changes: Vec<usize>,
    /// How often it was told the moment.
    moments: &'t Cell<usize>,
    /// Until then none is kept alone.
    until: Moment,
    /// How often it was to shorten what it keeps.
    asked: &'t Cell<usize>,
    /// How many slices are to be gone over.
    slices: usize,
    /// Whether it refuses them.
    is_refusing: bool,
    /// Before it keeps so many batches, its disk refuses room behind each.
    pressed_until: usize,
    is_pressed: bool,
    has_failed: bool,
}

/// The moment that is kept at one, where another was kept before.
fn ahead(until: Moment, now: Moment) -> Moment
    ensures { result ≡ max until (horizon_of now) }
{
    let horizon = (now.get() + 60).min((1 << 63) - 1);
    Moment::new(until.get().max(horizon))
}

impl Keeper for Patient<'_> {
    ghost use Rattle.std.specs.Prelude.{◌≡◌, ◌<◌, ◌≤◌, ◌+◌, ⊤, None, true};

    ghost stands_for = { λ _ _. ⊤ };

    ghost tells = { λ _ _. ⊤ };

    ghost may_leave = { λ _ _. ⊥ };

    ghost moment = { λ _. 0 };

    ghost left_since = { λ _ _ _. ⊥ };

    ghost size_of = { λ _. None };

    ghost has_failed = { λ keeper. keeper.has_failed ≡ true };

    ghost is_long = { λ keeper. 0 < keeper.slices };

    ghost to_go = { λ keeper. keeper.slices };

    ghost slices = { λ old new. old.slices ≤ new.slices + 1 };

    ghost shortens = { λ _ _. ⊥ };

    ghost wants_room = { λ keeper. keeper.is_pressed };

    ghost is_sole = { λ _ _. ⊤ };

    ghost tends = { λ _ _ due _. due ≡ None };

    ghost kept_until = { λ keeper. keeper.until };

    fn keep_moment(&mut self, now: Moment) -> Result<(), KeepFault> {
        if self.has_failed {
            return Err(KeepFault::Failed);
        }
        self.moments.set(self.moments.get().wrapping_add(1));
        if self.until.get() < now.get() {
            self.until = ahead(self.until, now);
        }
        Ok(())
    }

    fn keep(&mut self, batch: &Batch, now: Moment) -> Result<(), KeepFault> {
        self.has_failed = true;
        if self.changes.len() >= self.most {
            return Err(KeepFault::Failed);
        }
        let Ok(changes) = decode(self.alloc, batch.bytes()) else {
            return Err(KeepFault::Failed);
        };
        let Ok(()) = self.changes.push(changes.len()) else {
            return Err(KeepFault::Failed);
        };
        self.kept.set(self.changes.len());
        self.until = ahead(self.until, now);
        self.is_pressed = self.changes.len() < self.pressed_until;
        self.has_failed = false;
        Ok(())
    }

    fn confirm(&mut self) -> Result<(), KeepFault> {
        if self.has_failed {
            return Err(KeepFault::Failed);
        }
        if self.confirms == 0 {
            self.has_failed = true;
            return Err(KeepFault::Failed);
        }
        self.confirms -= 1;
        Ok(())
    }

    fn tend(&mut self, _now: u64) -> Result<Option<u64>, KeepFault> {
        if self.has_failed {
            return Err(KeepFault::Failed);
        }
        Ok(None)
    }

    #[tactic(auto, using(std::proofs::lemmas::Nat::le_or_l))]
    fn shorten_some(&mut self) -> Result<Length, ShortenFault> {
        if self.has_failed {
            return Err(ShortenFault::Failed);
        }
        self.asked.set(self.asked.get().wrapping_add(1));
        if self.slices == 0 {
            return Ok(Length::Short);
        }
        if self.is_refusing {
            return Err(ShortenFault::Unwritten);
        }
        self.slices -= 1;
        if self.slices == 0 {
            return Ok(Length::Short);
        }
        Ok(Length::Long)
    }

    fn size(&self) -> Option<u64> {
        None
    }

    fn wants_room(&self) -> bool {
        self.is_pressed
    }

    ghost only_now = { λ keeper c left. left };
}

/// How many batches can be kept, how often it confirms that nobody else has begun, how many slices are to be gone over, whether that is refused, and before how many batches the disk
/// refuses room.
#[derive(Clone, Copy)]
struct Ways {
    most: usize,
    confirms: usize,
    slices: usize,
    is_refusing: bool,
    pressed_until: usize,
}

/// What came of the requests.
#[derive(Drop)]
struct Outcome {
    fault: LoopFault,
    writes: Vec<usize>,
    changes: Vec<usize>,
    moments: usize,
    asked: usize,
    slices: usize,
    journal: Count,
}

/// What comes of requests.
fn outcome_of(alloc: Global, requests: &[&str], ways: Ways) -> Result<Outcome, ConfigFault> {
    let kept = Cell::new(0);
    let asked = Cell::new(0);
    let moments = Cell::new(0);
    let mut tools = Tools {
        sockets: OneClient {
            requests,
            read: 0,
            has_come: false,
            kept: &kept,
            writes: Vec::new(alloc),
        },
        edge: edge_that_notes(alloc, true)?,
        clocks: Ticking { steady: 0 },
        generator: ChaCha20Rng::from_seed([0; 32]),
        journal: Count::new(),
        keeper: Patient {
            alloc,
            most: ways.most,
            confirms: ways.confirms,
            kept: &kept,
            changes: Vec::new(alloc),
            moments: &moments,
            until: Moment::new(0),
            asked: &asked,
            slices: ways.slices,
            is_refusing: ways.is_refusing,
            pressed_until: ways.pressed_until,
            is_pressed: false,
            has_failed: false,
        },
        tellings: Tellings::unwanted(alloc),
    };
    let fault = serve_all(&mut tools, limits(None));
    Ok(Outcome {
        fault,
        writes: tools.sockets.writes,
        changes: tools.keeper.changes,
        moments: moments.get(),
        asked: asked.get(),
        slices: tools.keeper.slices,
        journal: tools.journal,
    })
}

#[test]
fn what_changes_is_kept_before_the_reply(rt: HostRuntime) -> Result<(), Fail> {
    // A round without changes keeps nothing, and where keeping fails, nothing of that round is written. Before each wait the
    // keeper may shorten what it keeps, and behind each the moment is kept.
    let rows: [(usize, LoopFault, &[usize], &[usize], (usize, usize)); 3] = [
        (9, LoopFault::Wait, &[1, 1, 2], &[1, 1], (5, 4)),
        (1, LoopFault::Keep, &[1, 1], &[1], (4, 4)),
        (0, LoopFault::Keep, &[], &[], (2, 2)),
    ];
    for (most, fault, writes, changes, (asked, moments)) in rows {
        let ways = Ways { most, ..PATIENT };
        let outcome = outcome_of(rt.alloc(), &[ASKS, STRAYS, ASKS], ways)?;
        assert_eq!(rt; outcome.fault, fault, "most {most}");
        assert_eq!(rt; outcome.writes.as_slice(), writes, "most {most}");
        assert_eq!(rt; outcome.changes.as_slice(), changes, "most {most}");
        assert_eq!(rt; outcome.asked, asked, "most {most}");
        assert_eq!(rt; outcome.moments, moments, "most {most}");
    }
    Ok(())
}

#[test]
fn nobody_else_has_begun_before_a_reply(rt: HostRuntime) -> Result<(), Fail> {
    // In each round with a request that changes nothing it is asked once, before the reply.
    let rows: [(usize, LoopFault, &[usize]); 3] = [
        (2, LoopFault::Wait, &[0, 0]),
        (1, LoopFault::Keep, &[0]),
        (0, LoopFault::Keep, &[]),
    ];
    for (confirms, fault, writes) in rows {
        let ways = Ways {
            confirms,
            ..PATIENT
        };
        let outcome = outcome_of(rt.alloc(), &[STRAYS, STRAYS], ways)?;
        assert_eq!(rt; outcome.fault, fault, "confirms {confirms}");
        assert_eq!(rt; outcome.writes.as_slice(), writes, "confirms {confirms}");
    }
    Ok(())
}

#[test]
fn what_is_kept_is_shortened_while_requests_are_answered(rt: HostRuntime) -> Result<(), Fail> {
    // By a slice in each of five rounds.
    let writes: &[usize] = &[1, 1, 2];
    let rows: [(usize, usize); 2] = [(3, 0), (7, 2)];
    for (slices, left) in rows {
        let ways = Ways { slices, ..PATIENT };
        let outcome = outcome_of(rt.alloc(), &[ASKS, STRAYS, ASKS], ways)?;
        assert_eq!(rt; outcome.writes.as_slice(), writes, "slices {slices}");
        assert_eq!(rt; outcome.asked, 5, "slices {slices}");
        assert_eq!(rt; outcome.slices, left, "slices {slices}");
    }
    Ok(())
}

#[test]
fn a_refusal_to_shorten_is_tried_each_minute_and_told_once(rt: HostRuntime) -> Result<(), Fail> {
    let ways = Ways {
        slices: 1,
        is_refusing: true,
        ..PATIENT
    };
    let outcome = outcome_of(rt.alloc(), &[STRAYS; 200], ways)?;
    assert_eq!(rt; outcome.fault, LoopFault::Wait);
    // In the seconds 1, 61, 121 and 181.
    assert_eq!(rt; outcome.asked, 4);
    assert_eq!(rt; outcome.journal.refusals, 1);
    Ok(())
}

#[test]
fn a_disk_without_room_is_told_once_and_once_there_is_some(rt: HostRuntime) -> Result<(), Fail> {
    // Each batch but the strays' is one of these requests.
    let rows: [(usize, u64, u64); 4] = [(0, 0, 0), (1, 0, 0), (3, 1, 1), (9, 1, 0)];
    for (pressed_until, wants, has_room) in rows {
        let ways = Ways {
            pressed_until,
            ..PATIENT
        };
        let requests = [ASKS, STRAYS, ASKS, STRAYS, ASKS, STRAYS];
        let outcome = outcome_of(rt.alloc(), &requests, ways)?;
        assert_eq!(rt; outcome.changes.len(), 3, "until {pressed_until}");
        assert_eq!(rt; outcome.journal.wants, wants, "until {pressed_until}");
        assert_eq!(rt; outcome.journal.has_room, has_room, "until {pressed_until}");
    }
    Ok(())
}
