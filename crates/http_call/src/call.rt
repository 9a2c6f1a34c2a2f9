//! A request and its response.

ghost use Rattle.std.specs.Prelude.{◌≡◌, ◌≤◌, ◌++◌, ℕ, IfOk, List, [], Ok, OnOk, drop, length, vec_len};
ghost use Rattle.std.specs.Io.KnownBytes.{Appends, Consumes};
ghost use Rattle.http_call.specs.Answers.{Answers, Ends, Grows, begun, reading};
ghost use Rattle.http_call.specs.Exchanged.{IsExchanged};
ghost use Rattle.http_call.specs.Sent.{asked, head_text, spelled, with_head};

use crate::fault::CallFault;
use http1::{BodySize, Client, Event, Header, Limits};
use httparse::spans::{EMPTY_HEADER_SPAN, HeaderSpan};
use std::alloc::Global;
use std::io::{Read, Write};

/// So many bytes are read at once.
const PIECE: usize = 1 << 16;

/// A response has so many header lines at most.
const HEADERS: usize = 64;

/// Between the events of a response so many more steps are taken at most, beside one for each byte of its body.
const STEPS: usize = 1 << 20;

/// A request with a body, by POST.
#[derive(Clone, Copy, Debug)]
pub struct Request<'a> {
    pub host: &'a str,
    pub path: &'a str,
    /// What stands in `Authorization`, if anything does.
    pub token: Option<&'a str>,
    pub body: &'a [u8],
}

/// A response, once it came to its end.
#[derive(Drop)]
pub struct Response {
    pub status: u16,
    pub body: Vec<u8>,
}

/// One connection.
#[derive(Drop)]
pub struct Caller<S> {
    pub stream: S,
    client: Client,
    /// What came and is not read.
    unread: Vec<u8>,
}

/// What one step of a response came to.
#[derive(Clone, Copy)]
enum Step {
    More,
    End,
}

/// Takes the first bytes away.
fn take_front(bytes: &mut Vec<u8>, count: usize)
    requires { count ≤ vec_len bytes.old }
    ensures { bytes.new.items ≡ drop count bytes.old.items }
{
    let left = bytes.len() - count;
    bytes.copy_within(count.., 0);
    bytes.truncate(left);
}

impl<S: Read + Write> Caller<S> {
    /// A connection on which nothing was sent.
    pub fn new(alloc: Global, stream: S) -> Caller<S>
        ensures stream { result.stream ≡ stream }
        ensures unread { result.unread.items ≡ [] }
    {
        Caller {
            stream,
            client: Client::new(Limits::default()),
            unread: Vec::new(alloc),
        }
    }

    /// Sends a request. Its response is read by `answer`.
    pub fn send(&mut self, alloc: Global, request: &Request<'_>) -> Result<(), CallFault>
        ensures sent { OnOk result (Appends (S.contents self.old.stream) (S.contents self.new.stream)
            (spelled self.old.client request.now)) }
        ensures client { OnOk result (self.new.client ≡ asked self.old.client request.now) }
        ensures unread { self.new.unread ≡ self.old.unread }
    {
        let text = self.spelled(alloc, request)?;
        self.stream.write_all(&text)?;
        self.stream.flush()?;
        Ok(())
    }

    /// The text of a request.
    fn spelled(&mut self, alloc: Global, request: &Request<'_>) -> Result<Vec<u8>, CallFault>
        ensures text { IfOk result (λ text. text.items ≡ spelled self.old.client request.now) }
        ensures client { OnOk result (self.new.client ≡ asked self.old.client request.now) }
        ensures stream { self.new.stream ≡ self.old.stream }
        ensures unread { self.new.unread ≡ self.old.unread }
    {
        let mut text = Vec::new(alloc);
        self.write_head(&mut text, request)?;
        self.client.write_data(&mut text, request.body)?;
        self.client.write_end(&mut text, &[])?;
        Ok(text)
    }

    /// Adds the head of a request.
    fn write_head(&mut self, text: &mut Vec<u8>, request: &Request<'_>) -> Result<(), CallFault>
        ensures text { OnOk result (text.new.items ≡ text.old.items ++ head_text self.old.client request.now) }
        ensures client { OnOk result (self.new.client ≡ with_head self.old.client request.now) }
        ensures stream { self.new.stream ≡ self.old.stream }
        ensures unread { self.new.unread ≡ self.old.unread }
    {
        let host = Header {
            name: b"Host",
            value: request.host.as_bytes(),
        };
        let kind = Header {
            name: b"Content-Type",
            value: b"application/json",
        };
        let size = BodySize::Known(request.body.len() as u64);
        let path = request.path.as_bytes();
        let Some(token) = request.token else {
            self.client
                .write_request(text, b"POST", path, &[host, kind], size)?;
            return Ok(());
        };
        let proof = Header {
            name: b"Authorization",
            value: token.as_bytes(),
        };
        self.client
            .write_request(text, b"POST", path, &[host, kind, proof], size)?;
        Ok(())
    }

    /// Reads the response to the request that was sent last. Its body has no more than so many bytes.
    pub fn answer(&mut self, alloc: Global, most: usize) -> Result<Response, CallFault>
        ensures within { IfOk result (λ response. length response.body.items ≤ most) }
        ensures answers { IfOk result (λ response. Answers (S.remaining self.old.stream) (S.remaining self.new.stream)
            (begun self.old) (reading self.new response)) }
    {
        let mut spans = [EMPTY_HEADER_SPAN; HEADERS];
        let mut response = Response {
            status: 0,
            body: Vec::new(alloc),
        };
        let mut left = most.saturating_add(STEPS);
        'steps: while left > 0 {
            left -= 1;
            match self.step(alloc, &mut spans, &mut response, most)? {
                Step::More => {}
                Step::End => return Ok(response),
            }
        }
        Err(CallFault::TooLong)
    }

    /// Sends a request, and reads its response. What came before it is no answer to it.
    pub fn exchange(
        &mut self,
        alloc: Global,
        request: &Request<'_>,
        most: usize,
    ) -> Result<Response, CallFault>
        ensures within { IfOk result (λ response. length response.body.items ≤ most) }
        ensures exchanged { IfOk result (IsExchanged S.contents S.remaining request.now self.old self.new) }
    {
        if !self.unread.as_slice().is_empty() {
            return Err(CallFault::NotHttp);
        }
        self.send(alloc, request)?;
        self.answer(alloc, most)
    }

    /// The next of it.
    fn step(
        &mut self,
        alloc: Global,
        spans: &mut [HeaderSpan],
        response: &mut Response,
        most: usize,
    ) -> Result<Step, CallFault>
        requires within { length response.old.body.items ≤ most }
        ensures within { length response.new.body.items ≤ most }
        ensures more { result ≡ Ok Step.More → Grows (S.remaining self.old.stream) (S.remaining self.new.stream)
            (reading self.old response.old) (reading self.new response.new) }
        ensures end { result ≡ Ok Step.End → Ends (reading self.old response.old) (reading self.new response.new) }
        ensures rest { result ≡ Ok Step.End → self.new.stream ≡ self.old.stream }
    {
        let read = self.client.read(&self.unread, spans)?;
        match read.event {
            Event::NeedMore => {
                take_front(&mut self.unread, read.consumed);
                self.fill(alloc)?;
                return Ok(Step::More);
            }
            Event::Informational(_) => {}
            Event::Head(head) => response.status = head.code,
            Event::Data(span) => {
                let piece = span.of(&self.unread);
                if piece.len() > most - response.body.len() {
                    return Err(CallFault::TooLong);
                }
                response.body.extend_from_slice(piece)?;
            }
            Event::End(_) => {
                take_front(&mut self.unread, read.consumed);
                return Ok(Step::End);
            }
            Event::Paused | Event::Upgraded | Event::Closed => return Err(CallFault::Closed),
        }
        take_front(&mut self.unread, read.consumed);
        Ok(Step::More)
    }

    /// Reads more from the connection.
    fn fill(&mut self, alloc: Global) -> Result<(), CallFault>
        ensures came { OnOk result ((came : List ℕ) × Consumes (S.remaining self.old.stream) (S.remaining self.new.stream) came
            × (self.new.unread.items ≡ self.old.unread.items ++ came)) }
        ensures client { self.new.client ≡ self.old.client }
    {
        let mut piece = vec![in alloc; 0; PIECE]?;
        let count = self.stream.read(&mut piece)?;
        if count == 0 {
            return Err(CallFault::Closed);
        }
        self.unread.extend_from_slice(&piece[..count])?;
        Ok(())
    }
}
