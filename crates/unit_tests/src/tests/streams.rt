//! One connection served over a stream or by a clock that fails, and what the next connection is answered then.

use super::sockets::edge_that_notes;
use clients::ConfigFault;
use consent::Moment;
use hook_chain::Chain;
use http_edge::{ConnectionNo, Edge};
use rand_chacha::ChaCha20Rng;
use rand_core::SeedableRng;
use serving::{Clock, ServeFault, serve_one};
use std::alloc::Global;
use std::io::{self, ErrorKind, Read, Write};
use std::test::Fail;

/// A client asks for a token.
const REQUEST: &[u8] =
    b"POST /token HTTP/1.1\r\nContent-Length: 61\r\n\r\ngrant_type=client_credentials&client_id=bot&client_secret=b0t";

/// It does so three times.
const REQUESTS: &[&[u8]] = &[REQUEST, REQUEST, REQUEST];

/// The replies with the tokens of the first draws of three pieces: 32 bytes each of ChaCha20's blocks 0, 64 and 128, for a key
/// and a nonce of zeros.
const REPLIES: &[u8] =
    b"HTTP/1.1 200 OK\r\nContent-Type: application/json\r\nCache-Control: no-store\r\nPragma: no-cache\r\nContent-Length: 116\r\n\r\n{\"access_token\":\"drjgraDxPZBAXWrlU4a9KL3SGbigje0aqDbvzIt3Dcc\",\"expires_in\":300,\"scope\":\"read\",\"token_type\":\"Bearer\"}HTTP/1.1 200 OK\r\nContent-Type: application/json\r\nCache-Control: no-store\r\nPragma: no-cache\r\nContent-Length: 116\r\n\r\n{\"access_token\":\"HG9bKKN6Ha05n4xPLSzt0PcaaTfBCqeOKfgrT10S504\",\"expires_in\":300,\"scope\":\"read\",\"token_type\":\"Bearer\"}HTTP/1.1 200 OK\r\nContent-Type: application/json\r\nCache-Control: no-store\r\nPragma: no-cache\r\nContent-Length: 116\r\n\r\n{\"access_token\":\"ZK1dTf2Xr-o5IlLACZZNCmpXt_Q0KQlDMp2zYiDGB3U\",\"expires_in\":300,\"scope\":\"read\",\"token_type\":\"Bearer\"}";

/// It asks whether the tokens are active.
const QUESTIONS: &[&[u8]] = &[
    b"POST /introspect HTTP/1.1\r\nAuthorization: Basic Ym90OmIwdA==\r\nContent-Length: 49\r\n\r\ntoken=drjgraDxPZBAXWrlU4a9KL3SGbigje0aqDbvzIt3Dcc",
    b"POST /introspect HTTP/1.1\r\nAuthorization: Basic Ym90OmIwdA==\r\nContent-Length: 49\r\n\r\ntoken=HG9bKKN6Ha05n4xPLSzt0PcaaTfBCqeOKfgrT10S504",
    b"POST /introspect HTTP/1.1\r\nAuthorization: Basic Ym90OmIwdA==\r\nContent-Length: 49\r\n\r\ntoken=ZK1dTf2Xr-o5IlLACZZNCmpXt_Q0KQlDMp2zYiDGB3U",
];

const ACTIVE: &[u8] =
    b"HTTP/1.1 200 OK\r\nContent-Type: application/json\r\nCache-Control: no-store\r\nPragma: no-cache\r\nContent-Length: 92\r\n\r\n{\"active\":true,\"client_id\":\"bot\",\"exp\":1300,\"iat\":1000,\"scope\":\"read\",\"token_type\":\"Bearer\"}";

const INACTIVE: &[u8] =
    b"HTTP/1.1 200 OK\r\nContent-Type: application/json\r\nCache-Control: no-store\r\nPragma: no-cache\r\nContent-Length: 16\r\n\r\n{\"active\":false}";

const ANY: usize = usize::MAX;

/// What succeeds: so many reads, writes and looks at the clock. A write takes at most so many bytes.
#[derive(Clone, Copy)]
struct Course {
    reads: usize,
    writes: usize,
    takes: usize,
    moments: usize,
}

/// All does.
const SMOOTH: Course = Course {
    reads: ANY,
    writes: ANY,
    takes: ANY,
    moments: ANY,
};

/// A stream in memory. A read brings one request.
#[derive(Drop)]
struct Tape<'t> {
    requests: &'t [&'t [u8]],
    read: usize,
    course: Course,
    written: Vec<u8>,
}

impl Read for Tape<'_> {
    fn read(&mut self, buf: &mut [u8]) -> io::Result<usize> {
        if self.read == self.course.reads {
            return Err(io::Error::from(ErrorKind::ConnectionReset));
        }
        let Some(request) = self.requests.get(self.read) else {
            return Ok(0);
        };
        self.read = self.read.saturating_add(1);
        let count = request.len().min(buf.len());
        buf[..count].copy_from_slice(&request[..count]);
        Ok(count)
    }
}

impl Write for Tape<'_> {
    fn write(&mut self, buf: &[u8]) -> io::Result<usize> {
        if self.course.writes == 0 {
            return Err(io::Error::from(ErrorKind::BrokenPipe));
        }
        self.course.writes -= 1;
        let count = buf.len().min(self.course.takes);
        self.written.extend_from_slice(&buf[..count])?;
        Ok(count)
    }

    fn flush(&mut self) -> io::Result<()> {
        Ok(())
    }
}

/// A clock that stands still, until it fails.
#[derive(Drop)]
struct Still {
    moments: usize,
}

impl Clock for Still {
    fn now(&mut self) -> Option<Moment> {
        if self.moments == 0 {
            return None;
        }
        self.moments -= 1;
        Some(Moment::new(1000))
    }
}

/// Serves a connection on which these requests come: how that ended, and what was written.
fn served(
    alloc: Global,
    edge: &mut Edge<Chain>,
    rng: &mut ChaCha20Rng,
    requests: &[&[u8]],
    course: Course,
) -> (Result<(), ServeFault>, Vec<u8>) {
    let mut clock = Still {
        moments: course.moments,
    };
    let mut tape = Tape {
        requests,
        read: 0,
        course,
        written: Vec::new(alloc),
    };
    let end = serve_one(edge, ConnectionNo::new(1), &mut tape, &mut clock, rng);
    (end, tape.written)
}

/// What is to come of a connection: how it ends, how many bytes of the replies are written, and how many tokens are issued.
type Wanted = (Result<(), ServeFault>, usize, usize);

/// Whether the questions are answered as where so many tokens are active.
fn tells(answers: &[u8], active: usize) -> bool {
    let mut left = answers;
    for i in 0..3 {
        let Some(rest) = left.strip_prefix(if i < active { ACTIVE } else { INACTIVE }) else {
            return false;
        };
        left = rest;
    }
    left.is_empty()
}

/// Whether that comes of a connection, and of the next one of the same number, which asks for the tokens.
fn comes(alloc: Global, course: Course, wanted: Wanted) -> Result<bool, ConfigFault> {
    let mut edge = edge_that_notes(alloc, false)?;
    let mut rng = ChaCha20Rng::from_seed([0; 32]);
    let (ended, written) = served(alloc, &mut edge, &mut rng, REQUESTS, course);
    let (_, next) = served(alloc, &mut edge, &mut rng, QUESTIONS, SMOOTH);
    let (end, bytes, issued) = wanted;
    Ok(ended == end && Some(written.as_slice()) == REPLIES.get(..bytes) && tells(&next, issued))
}

const READ: Result<(), ServeFault> = Err(ServeFault::Read);

const WRITE: Result<(), ServeFault> = Err(ServeFault::Write);

const CLOCK: Result<(), ServeFault> = Err(ServeFault::Clock);

/// A reply has 231 bytes. What wants memory that is refused ends otherwise, so it is served twice then.
#[test]
fn a_read_or_a_write_or_the_clock_fails(rt: HostRuntime) -> Result<(), Fail> {
    // How many reads, writes, bytes of a write and looks at the clock succeed, and what comes of that.
    let cases: [([usize; 4], Wanted); 13] = [
        ([0, ANY, ANY, ANY], (READ, 0, 0)),
        ([1, ANY, ANY, ANY], (READ, 231, 1)),
        ([3, ANY, ANY, ANY], (READ, 693, 3)),
        ([ANY, 0, ANY, ANY], (WRITE, 0, 1)),
        ([ANY, 1, ANY, ANY], (WRITE, 231, 2)),
        ([ANY, 2, ANY, ANY], (WRITE, 462, 3)),
        ([ANY, 4, 100, ANY], (WRITE, 331, 2)),
        ([ANY, 9, 0, ANY], (WRITE, 0, 1)),
        ([ANY, ANY, 1, ANY], (Ok(()), 693, 3)),
        ([ANY, ANY, ANY, 0], (CLOCK, 0, 0)),
        ([ANY, ANY, ANY, 1], (CLOCK, 231, 1)),
        ([ANY, ANY, ANY, 2], (CLOCK, 462, 2)),
        ([ANY, ANY, ANY, ANY], (Ok(()), 693, 3)),
    ];
    for (i, ([reads, writes, takes, moments], wanted)) in cases.into_iter().enumerate() {
        let course = Course {
            reads,
            writes,
            takes,
            moments,
        };
        match comes(rt.alloc(), course, wanted) {
            Ok(true) => {}
            _ => assert!(rt; comes(rt.alloc(), course, wanted)?, "case {i}"),
        }
    }
    Ok(())
}
