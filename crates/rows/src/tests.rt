//! Clients of `serve` and `start`, over the machine's sockets.

use crate::world::World;
use command_line::perform;
use disk_file::Unknown;
use std::alloc::{AllocError, Global};
use std::cell::Cell;
use std::io::{self, ErrorKind, Read, Write};
use std::net::{OpenStream, Shutdown, TcpStream};
use std::process::Abort;
use std::random::RandomSource;
use std::rt::Clock;
use std::test::Fail;
use std::time::Duration;
use std::{fs, str};

const REGISTRY: &[u8] =
    br#"{"access_life":300,"refresh_life":86400,"operator":"op-key","owners":["ann-key"],"scopes":["read","write","admin"],"clients":[{"id":"app","secret":"s3cret","redirects":["https://app.example/cb"],"scope":"read write","grants":["authorization_code","refresh_token"]},{"id":"bot","secret":"b0t","redirects":[],"scope":"read","grants":["client_credentials"]}]}"#;

/// The hex of a seed.
const SEED: &str = "0707070707070707070707070707070707070707070707070707070707070707";

const REQUEST: &str = "GET /a HTTP/1.1\r\n\r\n";

const REPLY: &str = "HTTP/1.1 404 Not Found\r\nContent-Length: 0\r\n\r\n";

/// A client asks for a token for itself.
const TOKEN: &str =
    "POST /token HTTP/1.1\r\nAuthorization: Basic Ym90OmIwdA==\r\nContent-Length: 29\r\n\r\ngrant_type=client_credentials";

/// So often is the steady clock looked at before it fails in any case. Between two looks a second goes by at most.
const LOOKS: u32 = 20;

/// A client that sends a request and no more, and one that stays and sends nothing.
#[derive(Drop)]
struct Clients {
    asking: TcpStream,
    silent: TcpStream,
    reply: Vec<u8>,
    has_ended: bool,
}

impl Clients {
    /// Reads what has come of the reply, and its end.
    fn listen(&mut self) {
        let mut buffer = [0; 64];
        match self.asking.read(&mut buffer) {
            Ok(0) => self.has_ended = true,
            Ok(count) => {
                let _ = self.reply.extend_from_slice(&buffer[..count]);
            }
            Err(_) => {}
        }
    }
}

/// Where the clients of a server are, once they have come.
type Seats = Cell<Option<Clients>>;

/// A machine's clock, at each look at which the clients listen. It fails once all has come.
#[derive(Drop)]
struct Looked<'r> {
    rt: &'r HostRuntime,
    seats: &'r Seats,
    looks: Cell<u32>,
}

impl Looked<'_> {
    /// The clients listen. Whether all has come, or they have waited for long enough.
    fn is_over(&self) -> bool {
        let looks = self.looks.get().saturating_add(1);
        self.looks.set(looks);
        let Some(mut clients) = self.seats.replace(None) else {
            return false;
        };
        clients.listen();
        let has_ended = clients.has_ended;
        self.seats.set(Some(clients));
        has_ended || looks > LOOKS
    }
}

impl Clock for Looked<'_> {
    fn monotonic(&self) -> io::Result<Duration> {
        if self.is_over() {
            return Err(io::Error::from(ErrorKind::Other));
        }
        self.rt.monotonic()
    }

    fn since_1970(&self) -> io::Result<Duration> {
        self.rt.since_1970()
    }
}

/// What is written to it, with so much room, and whether it can't be brought to its end.
#[derive(Drop)]
struct Page {
    text: Vec<u8>,
    room: usize,
    is_full: bool,
}

impl Page {
    fn new(alloc: Global) -> Page {
        Page {
            text: Vec::new(alloc),
            room: usize::MAX,
            is_full: false,
        }
    }

    fn text(&self) -> &str {
        str::from_utf8(&self.text).unwrap_or("")
    }
}

impl Write for Page {
    fn write(&mut self, buf: &[u8]) -> io::Result<usize> {
        let count = buf.len().min(self.room);
        self.room -= count;
        self.text.extend_from_slice(&buf[..count])?;
        Ok(count)
    }

    fn flush(&mut self) -> io::Result<()> {
        if self.is_full {
            return Err(io::Error::from(ErrorKind::StorageFull));
        }
        Ok(())
    }
}

/// Where a server says in a line that it listens. Clients come as soon as it is said, of which one sends a request.
#[derive(Drop)]
struct Door<'r> {
    rt: &'r HostRuntime,
    seats: &'r Seats,
    request: &'r str,
    line: Page,
}

impl Write for Door<'_> {
    fn write(&mut self, buf: &[u8]) -> io::Result<usize> {
        self.line.write(buf)
    }

    fn flush(&mut self) -> io::Result<()> {
        let line = self.line.text();
        let address = line.strip_prefix("listening ").unwrap_or("").trim_end();
        let mut asking = TcpStream::connect(self.rt, address)?;
        asking.write_all(self.request.as_bytes())?;
        asking.shutdown(Shutdown::Write)?;
        asking.set_nonblocking(true)?;
        self.seats.set(Some(Clients {
            asking,
            silent: TcpStream::connect(self.rt, address)?,
            reply: Vec::new(self.rt.alloc()),
            has_ended: false,
        }));
        Ok(())
    }
}

/// What came of a command: its status, and what it wrote and told.
#[derive(Drop)]
struct Outcome {
    status: u8,
    out: Page,
    err: Page,
}

impl Outcome {
    /// Asserts that a command ended so, and told this.
    fn assert_ended(&self, rt: &impl Abort, status: u8, err: &str) {
        assert_eq!(rt; self.status, status);
        assert_eq!(rt; self.err.text(), err);
    }

    /// Asserts that a command ended so, and wrote nothing and told this.
    fn assert_silent(&self, rt: &impl Abort, status: u8, err: &str) {
        self.assert_ended(rt, status, err);
        assert_eq!(rt; self.out.text(), "");
    }
}

/// Words as the program is called with them.
fn words_of(alloc: Global, texts: &[&str]) -> Result<Vec<String>, AllocError> {
    let mut words = Vec::new(alloc);
    for text in texts {
        words.push(String::from_str(alloc, text)?)?;
    }
    Ok(words)
}

/// Carries out a command whose output has so much room, and is full at its end or not.
fn done_with(
    rt: &HostRuntime,
    texts: &[&str],
    room: usize,
    is_full: bool,
) -> Result<Outcome, Fail> {
    let words = words_of(rt.alloc(), texts)?;
    let mut out = Page::new(rt.alloc());
    out.room = room;
    out.is_full = is_full;
    let mut err = Page::new(rt.alloc());
    let status = perform::<_, _, _, Unknown>(rt, &words, rt.stdout(), &mut out, &mut err).code();
    Ok(Outcome { status, out, err })
}

/// Carries out a command.
fn done(rt: &HostRuntime, texts: &[&str]) -> Result<Outcome, Fail> {
    done_with(rt, texts, usize::MAX, false)
}

/// Serves clients as words say, of which one sends this request.
fn served(rt: &HostRuntime, texts: &[&str], request: &str) -> Result<(Outcome, Clients), Fail> {
    let words = words_of(rt.alloc(), texts)?;
    let seats = Cell::new(None);
    let clock = Looked {
        rt,
        seats: &seats,
        looks: Cell::new(0),
    };
    let visited = World { machine: rt, clock };
    let mut door = Door {
        rt,
        seats: &seats,
        request,
        line: Page::new(rt.alloc()),
    };
    let mut err = Page::new(rt.alloc());
    let status = perform::<_, _, _, Unknown>(
        &visited,
        &words,
        rt.stdout(),
        &mut door,
        &mut err,
    ).code();
    let clients = seats.replace(None).ok_or("nobody came")?;
    let out = door.line;
    Ok((Outcome { status, out, err }, clients))
}

/// The path of a file that nobody else has.
fn fresh_path(rt: &HostRuntime) -> Result<String, Fail> {
    let mut name = [0; 16];
    rt.fill_bytes(&mut name)?;
    let name = hex::encode(rt.alloc(), name)?;
    Ok(format!(in rt.alloc(); "/tmp/oauthd-{name}")?)
}

/// The path of a file of these bytes.
fn path_of(rt: &HostRuntime, bytes: &[u8]) -> Result<String, Fail> {
    let path = fresh_path(rt)?;
    fs::write(rt, &path, bytes)?;
    Ok(path)
}

/// Removes a state file, and the file of its lock.
fn remove_state(rt: &HostRuntime, path: &str) -> Result<(), Fail> {
    let lock = format!(in rt.alloc(); "{path}.lock")?;
    fs::remove_file(rt, path)?;
    fs::remove_file(rt, &lock)?;
    Ok(())
}

/// What a server tells whose clients have heard all: no connection ended by a fault, and no accept failed.
const STOPPED: &str = "oauthd: stopped: Clock\n";

#[test]
fn a_client_of_serve_reads_its_reply(rt: HostRuntime) -> Result<(), Fail> {
    let config = path_of(&rt, REGISTRY)?;
    let words = ["serve", "127.0.0.1:0", &config, SEED, "1"];
    let (ended, mut clients) = served(&rt, &words, REQUEST)?;
    fs::remove_file(&rt, &config)?;
    ended.assert_ended(&rt, 0, "");
    clients.asking.set_nonblocking(false)?;
    for _ in 0..LOOKS {
        clients.listen();
    }
    assert!(rt; clients.has_ended);
    assert!(rt; clients.reply.as_slice() == REPLY.as_bytes());
    Ok(())
}

#[test]
fn no_connection_is_served(rt: HostRuntime) -> Result<(), Fail> {
    let config = path_of(&rt, REGISTRY)?;
    let served = done(&rt, &["serve", "127.0.0.1:0", &config, SEED, "0"])?;
    fs::remove_file(&rt, &config)?;
    served.assert_ended(&rt, 0, "");
    let line = served.out.text();
    assert!(rt;
        line.starts_with("listening 127.0.0.1:") && !line.ends_with(":0\n"),
        "{line}"
    );
    Ok(())
}

#[test]
fn a_connection_of_start_comes_is_read_and_written_and_closed(rt: HostRuntime) -> Result<(), Fail> {
    let config = path_of(&rt, REGISTRY)?;
    let (ended, clients) = served(&rt, &["start", "127.0.0.1:0", &config], REQUEST)?;
    fs::remove_file(&rt, &config)?;
    ended.assert_ended(&rt, 2, STOPPED);
    assert!(rt; clients.has_ended);
    assert!(rt; clients.reply.as_slice() == REPLY.as_bytes());
    Ok(())
}

/// The access token in a reply.
fn token_in(reply: &[u8]) -> &str {
    let text = str::from_utf8(reply).unwrap_or("");
    let (_, behind) = text.split_once("\"access_token\":\"").unwrap_or(("", ""));
    let (token, _) = behind.split_once('"').unwrap_or(("", ""));
    token
}

#[test]
fn a_token_outlives_its_server(rt: HostRuntime) -> Result<(), Fail> {
    let alloc = rt.alloc();
    let config = path_of(&rt, REGISTRY)?;
    let path = fresh_path(&rt)?;
    done(&rt, &["state", "--new", &path])?.assert_silent(&rt, 0, "");
    let words = ["start", "127.0.0.1:0", &config, "--state", &path];
    let (first, clients) = served(&rt, &words, TOKEN)?;
    let token = token_in(&clients.reply);
    let asked = format!(in alloc;
        "POST /introspect HTTP/1.1\r\nAuthorization: Basic Ym90OmIwdA==\r\nContent-Length: 49\r\n\r\ntoken={token}"
    )?;
    let (second, clients) = served(&rt, &words, &asked)?;
    first.assert_ended(&rt, 2, STOPPED);
    second.assert_ended(&rt, 2, STOPPED);
    let told = str::from_utf8(&clients.reply).unwrap_or("");
    assert!(rt; told.contains("{\"active\":true,"), "{told}");
    fs::remove_file(&rt, &config)?;
    remove_state(&rt, &path)
}

/// A state file without a batch: what each begins with, and a zero.
const EMPTY_STATE: &[u8] = b"oauthd state v3\n\0";

#[test]
fn a_state_file_is_made_where_nothing_is(rt: HostRuntime) -> Result<(), Fail> {
    let path = fresh_path(&rt)?;
    let told = format!(in rt.alloc(); "oauthd: State Exists: {path}\n")?;
    for (status, told) in [(0u8, ""), (2, told.as_str())] {
        done(&rt, &["state", "--new", &path])?.assert_silent(&rt, status, told);
        assert!(rt; fs::read(&rt, &path)?.as_slice() == EMPTY_STATE);
    }
    fs::remove_file(&rt, &path)?;
    Ok(())
}

#[test]
fn what_an_unfinished_write_left_is_put_aside(rt: HostRuntime) -> Result<(), Fail> {
    let alloc = rt.alloc();
    let config = path_of(&rt, REGISTRY)?;
    let path = path_of(&rt, b"oauthd state v3\n\0abc")?;
    // It can't tell where it listens, and so it ends.
    let words = ["start", "127.0.0.1:0", &config, "--state", &path];
    let told = format!(in alloc;
        "oauthd: state: 4 bytes of an unfinished write are in {path}.torn\noauthd: cannot write\n"
    )?;
    done_with(&rt, &words, 0, false)?.assert_silent(&rt, 2, &told);
    let torn = format!(in alloc; "{path}.torn")?;
    assert!(rt; fs::read(&rt, &torn)?.as_slice() == b"\0abc".as_slice());
    let listed = done(&rt, &["state", &path])?;
    assert!(rt; listed.out.text().contains("\"batches\":1,\"torn\":0,"));
    fs::remove_file(&rt, &torn)?;
    fs::remove_file(&rt, &config)?;
    remove_state(&rt, &path)
}

#[test]
fn a_refused_start_writes_nothing(rt: HostRuntime) -> Result<(), Fail> {
    let config = path_of(&rt, REGISTRY)?;
    // A torn end behind a batch that is none.
    let bytes = hex::decode(rt.alloc(), REFUSED_STATE)?;
    let path = path_of(&rt, &bytes)?;
    let words = ["start", "127.0.0.1:0", &config, "--state", &path];
    let told = format!(in rt.alloc(); "oauthd: State NoRules: {path}\n")?;
    done(&rt, &words)?.assert_silent(&rt, 2, &told);
    assert!(rt; fs::read(&rt, &path)?.as_slice() == bytes.as_slice());
    let torn = format!(in rt.alloc(); "{path}.torn")?;
    assert!(rt; fs::read(&rt, &torn).is_err());
    fs::remove_file(&rt, &config)?;
    remove_state(&rt, &path)
}

/// A file whose first batch tells no rules, and three bytes of a write that was not finished.
const REFUSED_STATE: &str =
    "6f61757468642073746174652076330aff00000093208ed34fc4a715ef7e5c33df56658ba4010000000300000000000003e8010000000100000001000000000000000100000000000003e8030000000000000001000000010000000000abababababababababababababababababababababababababababababababab00000000000000030000012c00000000000003e806000000066c6973746564000000000000000100000010b700000001000000950000000000000000616263";

/// A hook that allows every grant.
const ALLOW: &str = "b7000000010000009500000000000000";

/// A record of version 1.
const RECORD: &str =
    "0100000001000000e80300000000000001000000000000000100000000000000030000000000000003000000000000002c010000000000000300000000000000";

#[test]
fn answers_and_faults_that_cannot_be_written(rt: HostRuntime) -> Result<(), Fail> {
    for (room, is_full) in [(0usize, false), (8, false), (4096, true)] {
        let ran = done_with(&rt, &["run", ALLOW, RECORD], room, is_full)?;
        ran.assert_ended(&rt, 2, "oauthd: cannot write\n");
    }
    let words = words_of(rt.alloc(), &["run", "", RECORD])?;
    let mut out = Page::new(rt.alloc());
    let mut err = Page::new(rt.alloc());
    err.room = 0;
    assert_eq!(rt;
        perform::<_, _, _, Unknown>(&rt, &words, rt.stdout(), &mut out, &mut err).code(),
        2
    );
    assert_eq!(rt; out.text(), "");
    Ok(())
}
