//! Connections that send requests for a path that there is not, over sockets that tell of readiness once, cut reads and
//! writes short, would block at every place, and now and then fail.

use super::draws::below;
use change_codec::NoKeeper;
use clients::{ConfigFault, Registry};
use consent::Moment;
use endpoints::Server;
use event_loop::{
    Accepted, Clocks, ConnectionFault, Journal, Limits, LoopFault, Notice, Ready, Received, Report,
    Sent, Sockets, Times, Tools, serve_all,
};
use hook_chain::Chain;
use http_edge::Edge;
use rand_chacha::ChaCha20Rng;
use rand_core::SeedableRng;
use std::alloc::Global;
use std::test::Fail;
use telling::Tellings;

const REGISTRY: &[u8] =
    br#"{"access_life":300,"refresh_life":86400,"operator":"op-key","owners":["ann-key"],"scopes":["read"],"clients":[{"id":"bot","secret":"b0t","redirects":[],"scope":"read","grants":["client_credentials"]}]}"#;

/// A server without hooks, which notes what changes where that is wanted.
pub(super) fn edge_that_notes(alloc: Global, is_noting: bool) -> Result<Edge<Chain>, ConfigFault> {
    let registry = Registry::read(alloc, REGISTRY)?;
    let mut server = Server::new(alloc, registry, Chain::new(alloc));
    if is_noting {
        server.begin_noting()?;
    }
    Ok(Edge::new(alloc, server))
}

const REQUEST: &[u8; 19] = b"GET /x HTTP/1.1\r\n\r\n";

const REPLY: &[u8; 45] = b"HTTP/1.1 404 Not Found\r\nContent-Length: 0\r\n\r\n";

/// A client that sends so many bytes, and how far it is. It begins as nobody.
#[derive(Clone, Copy, Default)]
struct Peer {
    is_there: bool,
    total: usize,
    arrived: usize,
    read: usize,
    taken: usize,
    window: usize,
    has_ended: bool,
    has_failed: bool,
    tells_readable: bool,
    tells_writable: bool,
    is_blocked: bool,
}

impl Peer {
    /// What happens to it while the loop waits: so many bytes may arrive, and so many be taken.
    fn goes_on(&mut self, more: u32, room: u32) {
        if !self.is_there || more % 3 == 0 {
            return;
        }
        if self.arrived < self.total {
            self.arrived = self.arrived.saturating_add(more as usize).min(self.total);
            self.tells_readable = true;
        } else if !self.has_ended {
            self.has_ended = true;
            self.tells_readable = true;
        }
        self.window = self.window.saturating_add(room as usize).min(9000);
        if self.is_blocked && self.window > 0 {
            self.is_blocked = false;
            self.tells_writable = true;
        }
    }

    /// What is told of it, once.
    fn told(&mut self, place: u32) -> Option<Ready> {
        if !self.tells_readable && !self.tells_writable {
            return None;
        }
        let ready = Ready::Connection {
            place,
            readable: self.tells_readable,
            writable: self.tells_writable,
            hung: self.has_ended,
        };
        self.tells_readable = false;
        self.tells_writable = false;
        Some(ready)
    }

    /// So many bytes that arrived are read into a buffer that has room for them.
    fn give(&mut self, most: usize, buffer: &mut [u8]) -> usize {
        let mut count = 0usize;
        for slot in buffer.iter_mut().take(most) {
            *slot = REQUEST[self.read % 19];
            self.read = self.read.wrapping_add(1);
            count = count.saturating_add(1);
        }
        count
    }

    /// Takes as many bytes as it has room for: how many, and how many were wrong.
    fn take(&mut self, bytes: &[u8]) -> (usize, u32) {
        let (mut count, mut wrong) = (0usize, 0u32);
        for byte in bytes.iter().take(self.window) {
            if *byte != REPLY[self.taken % 45] {
                wrong = wrong.saturating_add(1);
            }
            self.taken = self.taken.wrapping_add(1);
            count = count.saturating_add(1);
        }
        self.window = self.window.saturating_sub(count);
        (count, wrong)
    }
}

/// Sockets without a system.
#[derive(Drop)]
struct Fake {
    rng: ChaCha20Rng,
    peers: Vec<Peer>,
    to_come: u32,
    tells_listener: bool,
    // One of so many reads and writes fails.
    failures: Option<u32>,
    quiet_waits: u32,
    wrong_bytes: u32,
    served: u32,
    cut_off: u32,
}

impl Fake {
    fn fails(&mut self) -> bool {
        match self.failures {
            Some(failures) => below(&mut self.rng, failures) == 0,
            None => false,
        }
    }

    /// Where nothing is told for long, all is done, or something was forgotten.
    fn is_over(&mut self, is_quiet: bool) -> bool {
        self.quiet_waits = if is_quiet {
            self.quiet_waits.saturating_add(1)
        } else {
            0
        };
        self.quiet_waits > 50
    }
}

impl Sockets for Fake {
    ghost use Rattle.std.specs.Prelude.{⊤};

    ghost does = { λ _ _ _. ⊤ };

    fn wait(&mut self, limit: Option<u64>, found: &mut [Ready]) -> Option<usize> {
        let mut count = 0usize;
        let mut place = 0u32;
        for peer in self.peers.iter_mut() {
            peer.goes_on(below(&mut self.rng, 4000), below(&mut self.rng, 3000));
            if count < found.len()
                && let Some(ready) = peer.told(place)
            {
                found[count] = ready;
                count += 1;
            }
            place = place.wrapping_add(1);
        }
        if self.tells_listener && self.to_come > 0 && count < found.len() {
            found[count] = Ready::Listener;
            count += 1;
            self.tells_listener = false;
        }
        if self.is_over(count == 0 && limit != Some(0)) {
            None
        } else {
            Some(count.min(found.len()))
        }
    }

    fn ask(&mut self) {
        self.tells_listener = true;
    }

    fn accept(&mut self, place: u32) -> Accepted {
        if self.to_come == 0 {
            return Accepted::Later;
        }
        if below(&mut self.rng, 7) == 0 {
            return Accepted::Failed;
        }
        if below(&mut self.rng, 5) == 0 {
            self.tells_listener = true;
            return Accepted::Later;
        }
        self.to_come = self.to_come.saturating_sub(1);
        let requests = below(&mut self.rng, 100);
        if let Some(peer) = self.peers.get_mut(place as usize) {
            peer.is_there = true;
            peer.total = (requests as usize).saturating_mul(REQUEST.len());
        }
        Accepted::Taken
    }

    fn read(&mut self, place: u32, buffer: &mut [u8]) -> Received {
        let fails = self.fails();
        let cut = below(&mut self.rng, 3) == 0;
        let Some(peer) = self.peers.get_mut(place as usize) else {
            return Received::Failed;
        };
        if fails || !peer.is_there {
            peer.has_failed = true;
            return Received::Failed;
        }
        let waiting = peer.arrived.saturating_sub(peer.read);
        if waiting == 0 {
            return if peer.has_ended {
                Received::End
            } else {
                Received::Later
            };
        }
        let is_cut = cut && waiting > 1;
        if is_cut {
            peer.tells_readable = true;
        }
        let count = peer.give(if is_cut { waiting / 2 } else { waiting }, buffer);
        if count == 0 || count > buffer.len() {
            return Received::Failed;
        }
        Received::Bytes(count)
    }

    fn write(&mut self, place: u32, bytes: &[u8]) -> Sent {
        let fails = self.fails();
        let Some(peer) = self.peers.get_mut(place as usize) else {
            return Sent::Failed;
        };
        if fails || !peer.is_there {
            peer.has_failed = true;
            return Sent::Failed;
        }
        if peer.window == 0 {
            peer.is_blocked = true;
            return Sent::Later;
        }
        let (count, wrong) = peer.take(bytes);
        self.wrong_bytes = self.wrong_bytes.saturating_add(wrong);
        if count == 0 || count > bytes.len() {
            return Sent::Failed;
        }
        Sent::Bytes(count)
    }

    fn close(&mut self, place: u32) {
        let Some(peer) = self.peers.get_mut(place as usize) else {
            return;
        };
        let replies = (peer.total / REQUEST.len()).saturating_mul(REPLY.len());
        if peer.has_failed {
            self.cut_off = self.cut_off.saturating_add(1);
        } else if peer.taken == replies {
            self.served = self.served.saturating_add(1);
        }
        *peer = Peer::default();
    }

    fn pass(&mut self, _place: u32) {}
}

/// A second goes by at each look.
#[derive(Drop)]
pub(super) struct Ticking {
    pub(super) steady: u64,
}

impl Clocks for Ticking {
    ghost use Rattle.std.specs.Prelude.{⊤};

    ghost tells = { λ _ _ _. ⊤ };

    fn read(&mut self) -> Option<Times> {
        self.steady = self.steady.wrapping_add(1);
        Some(Times {
            moment: Moment::new(1000),
            steady: self.steady,
        })
    }
}

/// How many reports were told, and the last one, how often that shortening is refused, and that what is kept wants room, or no
/// longer does.
#[derive(Drop)]
pub(super) struct Count {
    pub(super) reports: u64,
    pub(super) last: Option<Report>,
    pub(super) refusals: u64,
    pub(super) wants: u64,
    pub(super) has_room: u64,
}

impl Count {
    /// Nothing was told yet.
    pub(super) fn new() -> Count {
        Count {
            reports: 0,
            last: None,
            refusals: 0,
            wants: 0,
            has_room: 0,
        }
    }
}

impl Journal for Count {
    ghost use Rattle.std.specs.Prelude.{⊤};

    ghost notes = { λ _ _ _. ⊤ };

    ghost reports = { λ _ _ _. ⊤ };

    ghost audits = { λ _ _ _ _. ⊤ };

    fn note(&mut self, _fault: ConnectionFault) {}

    fn report(&mut self, notice: &Notice) {
        match notice {
            Notice::Reported(report) => {
                self.reports = self.reports.saturating_add(1);
                self.last = Some(*report);
            }
            Notice::ShorteningRefused => self.refusals = self.refusals.saturating_add(1),
            Notice::WantsRoom(wants) => {
                if *wants {
                    self.wants = self.wants.saturating_add(1);
                } else {
                    self.has_room = self.has_room.saturating_add(1);
                }
            }
            _ => {}
        }
    }

    fn audit(&mut self, _rules: &Registry, _tellings: &Tellings) {}
}

/// Nobody is silent for too long.
pub(super) fn limits(report: Option<u64>) -> Limits {
    Limits {
        idle: u64::MAX,
        crowded: u64::MAX,
        report,
        ahead: None,
    }
}

/// The sockets, the journal and the seconds that went by, and how it ended.
#[derive(Drop)]
struct Run {
    sockets: Fake,
    journal: Count,
    seconds: u64,
    fault: LoopFault,
}

/// 80 connections come.
fn ended(alloc: Global, seed: u8, failures: Option<u32>) -> Result<Run, ConfigFault> {
    let rng = ChaCha20Rng::from_seed([seed; 32]);
    let sockets = Fake {
        rng,
        peers: Vec::from_elem(alloc, Peer::default(), 64)?,
        to_come: 80,
        tells_listener: true,
        failures,
        quiet_waits: 0,
        wrong_bytes: 0,
        served: 0,
        cut_off: 0,
    };
    let mut tools = Tools {
        sockets,
        edge: edge_that_notes(alloc, false)?,
        clocks: Ticking { steady: 0 },
        generator: ChaCha20Rng::from_seed([0; 32]),
        journal: Count::new(),
        keeper: NoKeeper,
        tellings: Tellings::unwanted(alloc),
    };
    let fault = serve_all(&mut tools, limits(Some(5)));
    Ok(Run {
        sockets: tools.sockets,
        journal: tools.journal,
        // The first look began it.
        seconds: tools.clocks.steady.wrapping_sub(1),
        fault,
    })
}

#[test]
fn all_requests_are_answered_and_a_failure_ends_its_connection_alone(
    rt: HostRuntime,
) -> Result<(), Fail> {
    for (seed, failures) in [(1u8, None), (2, None), (1, Some(50)), (2, Some(50))] {
        let run = ended(rt.alloc(), seed, failures)?;
        let (served, cut_off) = (run.sockets.served, run.sockets.cut_off);
        assert!(rt; run.fault == LoopFault::Wait);
        assert_eq!(rt; run.sockets.wrong_bytes, 0, "seed {seed}");
        assert_eq!(rt; served.saturating_add(cut_off), 80, "seed {seed}");
        assert_eq!(rt; cut_off > 0, failures.is_some(), "seed {seed}");
    }
    Ok(())
}

#[test]
fn reports_come_in_time_and_at_the_end(rt: HostRuntime) -> Result<(), Fail> {
    let run = ended(rt.alloc(), 1, None)?;
    assert_eq!(rt; run.journal.reports, (run.seconds / 5).saturating_add(1));
    let last = run.journal.last.ok_or("no report")?;
    assert!(rt; last.moment.get() == 1000 && last.seconds == run.seconds);
    assert!(rt; last.open == 0 && last.accepted == 80);
    assert_eq!(rt; run.sockets.served, 80);
    let (asked, replied) = (last.tally.asked, last.tally.replied);
    assert!(rt; asked.nowhere > 80 && replied.not_found == asked.nowhere);
    assert!(rt; last.records == 0 && last.consents == 0 && last.hooks == 0);
    assert!(rt; last.state.is_none());
    Ok(())
}
