//! What asks for a reload, how that is answered, and how the loop comes to its end for one.

use super::sockets::{Count, Ticking, edge_that_notes};
use change_codec::NoKeeper;
use clients::{OperatorKey, Registry};
use desk::{
    Judged, PEEK_LIMIT, Refusal, ReloadFault, Reloaded, candidate_of, granted_reply, judge,
    refusal_reply,
};
use event_loop::{Accepted, Limits, LoopFault, Ready, Received, Sent, Sockets, Tools, serve_all};
use rand_chacha::ChaCha20Rng;
use rand_core::SeedableRng;
use std::alloc::Global;
use std::test::Fail;
use telling::Tellings;

const RULES: &str =
    "{\"access_life\":300,\"refresh_life\":600,\"operator\":\"op-key\",\"owners\":[],\"scopes\":[\"read\"],\"clients\":[]}";

fn operator(alloc: Global) -> Result<OperatorKey, Fail> {
    Ok(Registry::read(alloc, RULES.as_bytes())?.operator_key())
}

#[test]
fn bytes_ask_for_a_reload_where_they_begin_with_that_request(rt: HostRuntime) -> Result<(), Fail> {
    let key = operator(rt.alloc())?;
    let rows: &[(&str, Judged)] = &[
        ("", Judged::More),
        ("POST /re", Judged::More),
        ("POST /reload ", Judged::More),
        ("POST /reload HTTP/1.1\r\nHost: x\r\n", Judged::More),
        (
            "POST /reload HTTP/1.1\r\nContent-Length: 3\r\n\r\nab",
            Judged::More,
        ),
        (
            "POST /reload HTTP/1.1\r\n\r\n",
            Judged::Asks { with_key: false },
        ),
        (
            "POST /reload HTTP/1.1\r\nX-Operator-Key: op-kez\r\n\r\n",
            Judged::Asks { with_key: false },
        ),
        (
            "POST /reload HTTP/1.1\r\nX-Operator-Key: op-key\r\n\r\n",
            Judged::Asks { with_key: true },
        ),
        (
            "POST /reload HTTP/1.1\r\nx-operator-key: op-key\r\nContent-Length: 2\r\n\r\nabGET",
            Judged::Asks { with_key: true },
        ),
        ("POST /reload HTTP/1.0\r\n\r\n", Judged::Else),
        ("POST /reload HTTP/1.1\r\n bad\r\n\r\n", Judged::Else),
        ("POST /reloads HTTP/1.1\r\n\r\n", Judged::Else),
        ("POST /reload?x HTTP/1.1\r\n\r\n", Judged::Else),
        ("GET /reload HTTP/1.1\r\n\r\n", Judged::Else),
        ("post /reload HTTP/1.1\r\n\r\n", Judged::Else),
        ("\r\nPOST /reload HTTP/1.1\r\n\r\n", Judged::Else),
    ];
    for (text, judged) in rows {
        assert_eq!(rt; judge(text.as_bytes(), &key), *judged, "{text}");
    }
    Ok(())
}

/// So many bytes that begin as such a request does, and have no end of a head.
fn endless(alloc: Global, size: usize) -> Result<Vec<u8>, Fail> {
    let mut bytes = Vec::from_slice(alloc, b"POST /reload HTTP/1.1\r\nA: ")?;
    for _nth in bytes.len()..size {
        bytes.push(b'a')?;
    }
    Ok(bytes)
}

#[test]
fn no_more_bytes_are_waited_for_than_are_looked_at(rt: HostRuntime) -> Result<(), Fail> {
    let key = operator(rt.alloc())?;
    let long = endless(rt.alloc(), PEEK_LIMIT)?;
    assert_eq!(rt; judge(&long, &key), Judged::Else);
    let shorter = endless(rt.alloc(), PEEK_LIMIT - 1)?;
    assert_eq!(rt; judge(&shorter, &key), Judged::More);
    Ok(())
}

#[test]
fn a_file_has_a_registry_or_a_fault(rt: HostRuntime) -> Result<(), Fail> {
    let alloc = rt.alloc();
    let text = Vec::from_slice(alloc, RULES.as_bytes())?;
    assert!(rt; candidate_of(alloc, Some(text)).is_ok());
    assert!(rt; matches!(candidate_of(alloc, None), Err(ReloadFault::CannotRead)));
    let no_json = Vec::from_slice(alloc, b"{")?;
    let Err(ReloadFault::Config(fault, None)) = candidate_of(alloc, Some(no_json)) else {
        return Err(Fail::new("a registry of no JSON"));
    };
    assert_eq!(rt; format!(in alloc; "{fault}")?.as_str(), "NotJson");
    Ok(())
}

#[test]
fn replies_are_written(rt: HostRuntime) -> Result<(), Fail> {
    let alloc = rt.alloc();
    let head = "Content-Type: application/json\r\nCache-Control: no-store\r\nPragma: no-cache\r\n";
    let denied = refusal_reply(alloc, Refusal::NoKey).unwrap_or(Vec::new(alloc));
    let wanted = format!(in alloc;
        "HTTP/1.1 403 Forbidden\r\n{head}Content-Length: 25\r\n\r\n{{\"error\":\"access_denied\"}}"
    )?;
    assert_eq!(rt; denied.as_slice(), wanted.as_bytes());
    let why = Refusal::For {
        detail: "BadScope",
        spot: Some("clients[0].scope"),
    };
    let refused = refusal_reply(alloc, why).unwrap_or(Vec::new(alloc));
    let wanted = format!(in alloc;
        "HTTP/1.1 400 Bad Request\r\n{head}Content-Length: 70\r\n\r\n{{\"at\":\"clients[0].scope\",\"detail\":\"BadScope\",\"error\":\"reload_refused\"}}"
    )?;
    assert_eq!(rt; refused.as_slice(), wanted.as_bytes());
    let reloaded = Reloaded {
        clients: 2,
        owners: 3,
    };
    let granted = granted_reply(alloc, reloaded).unwrap_or(Vec::new(alloc));
    let wanted = format!(in alloc;
        "HTTP/1.1 200 OK\r\n{head}Content-Length: 24\r\n\r\n{{\"clients\":2,\"owners\":3}}"
    )?;
    assert_eq!(rt; granted.as_slice(), wanted.as_bytes());
    Ok(())
}

/// Sockets of three clients. The first has asked, and took its reply; the second has sent half a request, and sends the rest in
/// some round; the third asks, and takes nothing until some round. A reload is wanted in the third round.
#[derive(Drop)]
struct Three {
    rounds: u64,
    come: u32,
    /// In which round the second sends the rest, and the third begins to take.
    rest_at: u64,
    take_at: u64,
    sent: u32,
    passed: Vec<u32>,
    closed: Vec<u32>,
}

const REQUEST: &[u8; 19] = b"GET /x HTTP/1.1\r\n\r\n";

/// What is sent of it behind the first nine bytes.
const REST: &[u8; 10] = b"TP/1.1\r\n\r\n";

impl Sockets for Three {
    ghost use Rattle.std.specs.Prelude.{⊤};

    ghost does = { λ _ _ _. ⊤ };

    fn wait(&mut self, _limit: Option<u64>, found: &mut [Ready]) -> Option<usize> {
        if found.len() < 4 || self.rounds > 60 {
            return None;
        }
        self.rounds = self.rounds.saturating_add(1);
        if self.rounds == 1 {
            found[0] = Ready::Listener;
            return Some(1);
        }
        for place in 0..3u32 {
            found[place as usize] = Ready::Connection {
                place,
                readable: self.rounds == 2 || (place == 1 && self.rounds == self.rest_at),
                writable: true,
                hung: false,
            };
        }
        if self.rounds != 3 {
            return Some(3);
        }
        found[3] = Ready::Reload;
        Some(4)
    }

    fn ask(&mut self) {}

    fn accept(&mut self, _place: u32) -> Accepted {
        if self.come >= 3 {
            return Accepted::Later;
        }
        self.come = self.come.saturating_add(1);
        Accepted::Taken
    }

    fn read(&mut self, place: u32, buffer: &mut [u8]) -> Received {
        if buffer.len() < 19 {
            return Received::Failed;
        }
        if place != 1 {
            buffer[..19].copy_from_slice(&REQUEST[..19]);
            return Received::Bytes(19);
        }
        self.sent = self.sent.saturating_add(1);
        match self.sent {
            1 => {
                buffer[..9].copy_from_slice(&REQUEST[..9]);
                Received::Bytes(9)
            }
            2 => {
                buffer[..10].copy_from_slice(&REST[..10]);
                Received::Bytes(10)
            }
            _ => Received::Later,
        }
    }

    fn write(&mut self, place: u32, bytes: &[u8]) -> Sent {
        if bytes.is_empty() || (place == 2 && self.rounds < self.take_at) {
            return Sent::Later;
        }
        Sent::Bytes(bytes.len())
    }

    fn close(&mut self, place: u32) {
        let _ = self.closed.push(place);
    }

    fn pass(&mut self, place: u32) {
        let _ = self.passed.push(place);
    }
}

fn served_three(alloc: Global, rest_at: u64, take_at: u64) -> Result<(Three, LoopFault), Fail> {
    let mut tools = Tools {
        sockets: Three {
            rounds: 0,
            come: 0,
            rest_at,
            take_at,
            sent: 0,
            passed: Vec::new(alloc),
            closed: Vec::new(alloc),
        },
        edge: edge_that_notes(alloc, false)?,
        clocks: Ticking { steady: 0 },
        generator: ChaCha20Rng::from_seed([0; 32]),
        journal: Count::new(),
        keeper: NoKeeper,
        tellings: Tellings::unwanted(alloc),
    };
    let limits = Limits {
        idle: 1000,
        crowded: 5,
        report: None,
        ahead: None,
    };
    let fault = serve_all(&mut tools, limits);
    Ok((tools.sockets, fault))
}

#[test]
fn the_loop_ends_for_a_reload_once_all_are_between_two_requests(
    rt: HostRuntime,
) -> Result<(), Fail> {
    let (sockets, fault) = served_three(rt.alloc(), 5, 6)?;
    assert_eq!(rt; fault, LoopFault::Reload);
    assert_eq!(rt; sockets.rounds, 6);
    let all: &[u32] = &[0, 1, 2];
    assert_eq!(rt; sockets.passed.as_slice(), all);
    assert!(rt; sockets.closed.is_empty());
    Ok(())
}

#[test]
fn it_waits_some_seconds_for_that(rt: HostRuntime) -> Result<(), Fail> {
    let (sockets, fault) = served_three(rt.alloc(), 1000, 5)?;
    assert_eq!(rt; fault, LoopFault::Reload);
    assert_eq!(rt; sockets.rounds, 9);
    let between: &[u32] = &[0, 2];
    let half: &[u32] = &[1];
    assert_eq!(rt; sockets.passed.as_slice(), between);
    assert_eq!(rt; sockets.closed.as_slice(), half);
    Ok(())
}
