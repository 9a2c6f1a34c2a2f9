//! Talks: what comes on connections, and what goes out on them. A talk is told to `replay` as a transcript.
//!
//! A line of a talk is one of these, where C is the number of a connection:
//! - `open C`, `end C` and `bytes ..`, as in a transcript;
//! - `C MOMENT X/Y METHOD TARGET | PART | ..`: a request at that moment. Its two draws repeat the bytes X and Y, which are hex. A
//!   part with a colon and a space is a header's line, another one is the body, behind `0x` as hex. `Content-Length` is filled in
//!   where there is a body;
//! - `C MOMENT X/Y ^TEXT`: a text as it is, with CRLF in the place of each `^`;
//! - `C = CODE TEXT`: the reply that goes out on C, whose text is JSON, or a Location behind 302. With no text, 200 is the reply
//!   to a revocation, 400 that to a faulty head, and others are those that say nothing else;
//! - `# ..`, or no text at all: nothing.

use crate::row::{Pieces, Talk};
use std::alloc::{AllocError, Global};
use std::fmt::Write;
use std::str;

/// A request, as a line of a talk says it.
#[derive(Clone, Copy)]
struct Request<'t> {
    connection: &'t str,
    moment: &'t str,
    /// The hex of the bytes that its two draws repeat.
    draws: (&'t str, &'t str),
    /// Its line and its parts, or `^` and its text as it is.
    text: &'t str,
}

/// A reply, as a line of a talk says it.
#[derive(Clone, Copy)]
struct Reply<'t> {
    connection: &'t str,
    code: &'t str,
    /// Its JSON, or its Location, or nothing.
    text: &'t str,
}

/// A line of a talk.
#[derive(Clone, Copy)]
enum TalkLine<'t> {
    /// It says nothing.
    Nothing,
    /// A line of a transcript.
    Event(&'t str),
    /// `C MOMENT X/Y METHOD TARGET | PART | ..` or `C MOMENT X/Y ^TEXT`.
    Request(Request<'t>),
    /// `C = CODE TEXT`.
    Reply(Reply<'t>),
}

impl<'t> TalkLine<'t> {
    /// What a line says, unless it has another form.
    fn of(line: &'t str) -> Option<TalkLine<'t>> {
        if line.is_empty() || line.starts_with('#') {
            return Some(TalkLine::Nothing);
        }
        let (connection, rest) = line.split_once(' ')?;
        match connection {
            "open" | "end" | "bytes" => return Some(TalkLine::Event(line)),
            _ => {}
        }
        if let Some(reply) = rest.strip_prefix("= ") {
            let (code, text) = reply.split_once(' ').unwrap_or((reply, ""));
            return Some(TalkLine::Reply(Reply {
                connection,
                code,
                text,
            }));
        }
        let (moment, rest) = rest.split_once(' ')?;
        let (draws, text) = rest.split_once(' ')?;
        Some(TalkLine::Request(Request {
            connection,
            moment,
            draws: draws.split_once('/')?,
            text,
        }))
    }
}

impl<'t> Request<'t> {
    /// Its bytes in hex. Behind its head stands the line of its body's length, where it has a body.
    fn digits(&self, alloc: Global) -> Result<String, AllocError> {
        if let Some(raw) = self.text.strip_prefix('^') {
            let bytes = raw.replace(alloc, '^', "\r\n")?;
            return hex::encode(alloc, bytes.as_str());
        }
        let (line, parts) = self.text.split_once(" | ").unwrap_or((self.text, ""));
        let mut head = format!(in alloc; "{line} HTTP/1.1\r\n")?;
        let mut body = String::new(alloc);
        for part in parts.split(" | ") {
            if part.contains(": ") {
                write!(head, "{part}\r\n")?;
            } else if let Some(digits) = part.strip_prefix("0x") {
                body.push_str(digits)?;
            } else {
                body.push_str(hex::encode(alloc, part)?.as_str())?;
            }
        }
        if !body.is_empty() {
            let length = body.len() / 2;
            write!(head, "Content-Length: {length}\r\n")?;
        }
        head.push_str("\r\n")?;
        let mut digits = hex::encode(alloc, head.as_str())?;
        digits.push_str(body.as_str())?;
        Ok(digits)
    }

    /// What stands before its bytes in a line of a transcript: two draws are 32 bytes and 32 more.
    fn front(&self, alloc: Global) -> Result<String, AllocError> {
        let (connection, moment) = (self.connection, self.moment);
        let first = self.draws.0.repeat(alloc, 32)?;
        let second = self.draws.1.repeat(alloc, 32)?;
        format!(in alloc; "bytes {connection} {moment} {first}{second} ")
    }

    /// Puts the lines of its pieces behind those of a transcript, where it may be cut at a place.
    fn push_to(
        &self,
        alloc: Global,
        transcript: &mut String,
        pieces: Pieces,
        place: usize,
    ) -> Result<(), AllocError> {
        let front = self.front(alloc)?;
        let digits = self.digits(alloc)?;
        let (first, rest) = parted(digits.as_str(), place);
        match (self.connection, pieces) {
            ("1", Pieces::Bytes) => {
                for byte in digits.as_bytes().chunks(2) {
                    let byte = str::from_utf8(byte).unwrap_or("");
                    push_piece(transcript, front.as_str(), byte)?;
                }
                Ok(())
            }
            ("1", Pieces::Two) => {
                push_piece(transcript, front.as_str(), first)?;
                push_piece(transcript, front.as_str(), rest)
            }
            ("2", Pieces::Front) => push_piece(transcript, front.as_str(), first),
            _ => push_piece(transcript, front.as_str(), digits.as_str()),
        }
    }
}

/// The digits of so many bytes, and those behind them.
fn parted(digits: &str, place: usize) -> (&str, &str) {
    digits
        .split_at_checked(place.saturating_mul(2))
        .unwrap_or((digits, ""))
}

/// A piece goes behind what stands before it in its line, where it has any bytes.
fn push_piece(transcript: &mut String, front: &str, digits: &str) -> Result<(), AllocError> {
    if digits.is_empty() {
        return Ok(());
    }
    writeln!(transcript, "{front}{digits}")
}

const NOT_STORED: &str = "Cache-Control: no-store\r\nPragma: no-cache\r\n";

const JSON: &str = "Content-Type: application/json\r\n";

const BASIC: &str = "WWW-Authenticate: Basic realm=\"oauthd\"\r\n";

impl<'t> Reply<'t> {
    /// The phrase of its status.
    fn phrase(&self) -> &'static str {
        match self.code {
            "200" => "OK",
            "302" => "Found",
            "400" => "Bad Request",
            "401" => "Unauthorized",
            "403" => "Forbidden",
            "404" => "Not Found",
            "405" => "Method Not Allowed",
            _ => "Service Unavailable",
        }
    }

    /// Puts its bytes behind those of other replies.
    fn push_to(&self, replies: &mut String) -> Result<(), AllocError> {
        let (code, text, phrase) = (self.code, self.text, self.phrase());
        let (last, body) = match (code, text) {
            ("400", "") => ("Connection: close\r\n", ""),
            ("302", _) => ("", ""),
            (_, body) => ("", body),
        };
        let length = body.len();
        write!(replies, "HTTP/1.1 {code} {phrase}\r\n")?;
        match (code, text) {
            ("200", "") => replies.push_str(NOT_STORED)?,
            (_, "") => {}
            ("302", _) => write!(replies, "{NOT_STORED}Location: {text}\r\n")?,
            ("401", _) => write!(replies, "{JSON}{NOT_STORED}{BASIC}")?,
            _ => write!(replies, "{JSON}{NOT_STORED}")?,
        }
        write!(replies, "Content-Length: {length}\r\n{last}\r\n{body}")
    }
}

impl Talk {
    /// Whether a connection is opened.
    fn opens(&self, connection: &str) -> bool {
        self.lines
            .split('\n')
            .any(|line| line.strip_prefix("open ") == Some(connection))
    }

    /// Whether each line has one of the forms, and goes out on a connection that is opened, if it goes out.
    pub fn is_whole(&self) -> bool {
        self.lines.split('\n').all(|line| match TalkLine::of(line) {
            Some(TalkLine::Reply(reply)) => self.opens(reply.connection),
            said => said.is_some(),
        })
    }

    /// The transcript that says what comes, where requests may be cut at a place.
    pub fn transcript(&self, alloc: Global, place: usize) -> Result<String, AllocError> {
        let config = self.config.as_str();
        let mut transcript = format!(in alloc; "config {config}\n")?;
        for line in self.lines.split('\n') {
            match TalkLine::of(line) {
                Some(TalkLine::Event(event)) => writeln!(transcript, "{event}")?,
                Some(TalkLine::Request(request)) => {
                    request.push_to(alloc, &mut transcript, self.pieces, place)?;
                }
                _ => {}
            }
        }
        Ok(transcript)
    }

    /// All replies that go out on a connection.
    fn replies_on(&self, alloc: Global, connection: &str) -> Result<String, AllocError> {
        let mut replies = String::new(alloc);
        for line in self.lines.split('\n') {
            if let Some(TalkLine::Reply(reply)) = TalkLine::of(line)
                && reply.connection == connection
            {
                reply.push_to(&mut replies)?;
            }
        }
        Ok(replies)
    }

    /// What `replay` is to print: the replies on each connection, in the order in which they are opened.
    pub fn replies(&self, alloc: Global) -> Result<String, AllocError> {
        let mut all = String::new(alloc);
        for line in self.lines.split('\n') {
            if let Some(connection) = line.strip_prefix("open ") {
                let replies = self.replies_on(alloc, connection)?;
                let length = replies.len();
                write!(all, "connection {connection} {length}\n{replies}\n")?;
            }
        }
        Ok(all)
    }

    /// Where the longest request on a connection can be cut: behind so many bytes.
    fn cuts(&self, alloc: Global, connection: &str) -> Result<Vec<usize>, AllocError> {
        let mut longest = 0;
        for line in self.lines.split('\n') {
            if let Some(TalkLine::Request(request)) = TalkLine::of(line)
                && request.connection == connection
            {
                longest = longest.max(request.digits(alloc)?.len() / 2);
            }
        }
        (1..longest).collect(alloc)
    }

    /// The places of a cut, for each of which it runs.
    pub fn places(&self, alloc: Global) -> Result<Vec<usize>, AllocError> {
        match self.pieces {
            Pieces::Whole | Pieces::Bytes => Vec::from_slice(alloc, &[0]),
            Pieces::Two => self.cuts(alloc, "1"),
            Pieces::Front => self.cuts(alloc, "2"),
        }
    }
}
