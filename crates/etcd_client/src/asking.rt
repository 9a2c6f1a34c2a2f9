//! One request to one member, and what became of it.

ghost use Rattle.std.specs.Prelude.{◌≡◌, ◌∷◌, [], IfErr, IfOk, None, OnErr, Some};
ghost use Rattle.std.specs.Duration.{as_nanos};
ghost use Rattle.etcd_client.specs.Connections.{IsAskedOver, IsOver, line_of, text_of_token};
ghost use Rattle.etcd_client.specs.Exchanges.{exchange, text_of};
ghost use Rattle.etcd_client.specs.Heard.{IsHeardOf};
ghost use Rattle.etcd_client.specs.Sendings.{attempted};
ghost use Rattle.etcd_client.specs.Told.{IsRefusedRight, is_refusal};
ghost use Rattle.etcd_client.specs.Tries.{AsksKnown, AsksOnce, AsksToken, IsNext, IsSent, LogsIn, asker, came_as, came_in, limit_of, next_of, turned};
ghost use Rattle.etcd_client.specs.declared.members.AskFault.TheVariants.{Unclear};

use crate::call_log::{Attempt, CallLog};
use crate::members::{AskFault, Members};
use etcd_json::{ReplyFault, fault_code, login_reply, login_request};
use http_call::{CallFault, Caller, Request, Response, TimedStream};
use std::alloc::Global;
use std::io::{Read, Write};
use std::net::{Net, SocketAddr};
use std::rt::Clock;
use std::thread;
use std::time::Duration;

/// A response has so many bytes at most.
const MOST: usize = 1 << 25;

/// The time for a request of few bytes, in milliseconds; and for so many more bytes a millisecond more.
const TIME: u64 = 1000;

const BYTES_A_MILLISECOND: u64 = 50;

/// Where the members of a cluster listen, and as which user they are asked.
#[derive(Drop)]
pub struct Access {
    pub members: Vec<SocketAddr>,
    pub user: Option<(String, String)>,
}

/// Members that are asked one after another.
#[derive(Drop)]
pub struct Asking<'r, R: Net> {
    rt: &'r R,
    alloc: Global,
    access: Access,
    /// The number of the one that is asked.
    at: usize,
    caller: Option<Caller<TimedStream<'r, R>>>,
    token: Option<String>,
    log: CallLog,
}

/// A member that was started anew has forgotten the token.
const FORGOTTEN: u64 = 16;

/// What a response tells.
#[derive(Drop)]
enum Heard {
    /// It is done, with this text.
    Done(Vec<u8>),
    /// Nothing is done, and this is why.
    Refused(u64),
    /// The token is not known any more.
    Forgotten,
    /// It may be done, be done later, or never.
    Unclear,
    /// So it is, and memory was refused to read why.
    Unread,
}

/// Whether nothing is done where a member answers with this code: the request is wrong as it stands, or asks for what stood there at
/// a revision that was let go of (11). A full database (8) is told of what was done, too.
fn is_refusal(code: u64) -> bool
    ensures { result ≡ is_refusal code }
{
    code == 3 || code == 5 || code == 7 || code == 9 || code == 11
}

/// How many milliseconds there are for a request of so many bytes.
fn limit_of(size: usize) -> u64
    ensures { result ≡ limit_of size }
{
    TIME.saturating_add(size as u64 / BYTES_A_MILLISECOND)
}

/// The member behind that one, of so many.
fn next_of(count: usize, at: usize) -> usize
    ensures { result ≡ next_of count at }
{
    let next = at.saturating_add(1);
    if next < count { next } else { 0 }
}

/// Sends a request over a connection, reads its response, and notes both.
fn ask_over<'x, S: Read + Write>(
    alloc: Global,
    log: &mut CallLog,
    caller: &mut Caller<S>,
    token: Option<&'x str>,
    attempt: &Attempt<'x>,
) -> Result<Response, CallFault>
    ensures asked { IfOk result (IsAskedOver S.contents S.remaining (text_of_token token.entry) attempt.now caller.old caller.new) }
    ensures tries { log.new.log.tries ≡ attempted (text_of_token token.entry) attempt.now (came_in result) ∷ log.old.log.tries }
    ensures exchanges { log.new.log.exchanges ≡ log.old.log.exchanges }
{
    let request = Request {
        host: "etcd",
        path: attempt.path,
        token,
        body: attempt.body,
    };
    let told = caller.exchange(alloc, &request, MOST);
    log.tried(token, attempt, &told);
    told
}

/// What a response tells: that something was done only where its status is 200.
fn heard_of(alloc: Global, response: Response) -> Heard
    ensures { IsHeardOf response result }
{
    if response.status == 200 {
        return Heard::Done(response.body);
    }
    match fault_code(alloc, &response.body) {
        Ok(code) => {
            if code == FORGOTTEN {
                return Heard::Forgotten;
            }
            if is_refusal(code) {
                return Heard::Refused(code);
            }
            Heard::Unclear
        }
        Err(ReplyFault::Strange) => Heard::Unclear,
        Err(ReplyFault::Memory) => Heard::Unread,
    }
}

impl<'r, R: Net + Clock> Asking<'r, R> {
    /// None was asked.
    pub fn new(rt: &'r R, alloc: Global, access: Access) -> Asking<'r, R>
        ensures exchanges { result.log.log.exchanges ≡ [] }
        ensures tries { result.log.log.tries ≡ [] }
        ensures unknown { result.token ≡ None }
    {
        Asking {
            rt,
            alloc,
            access,
            at: 0,
            caller: None,
            token: None,
            log: CallLog::new(),
        }
    }

    /// Another member is asked from then on, over another connection.
    fn next(&mut self)
        ensures turned { asker self.new.access self.new.at self.new.token self.new.log.log.tries
            ≡ turned (asker self.old.access self.old.at self.old.token self.old.log.log.tries) }
        ensures closed { self.new.caller ≡ None }
        ensures exchanges { self.new.log.log.exchanges ≡ self.old.log.log.exchanges }
    {
        self.caller = None;
        self.at = next_of(self.access.members.len(), self.at);
    }

    /// A connection to the member whose turn it is.
    fn connect(&self) -> Result<Caller<TimedStream<'r, R>>, AskFault>
        ensures { IfErr result (λ fault. fault ≡ Unclear) }
    {
        let Some(address) = self.access.members.get(self.at) else {
            return Err(AskFault::Unclear);
        };
        match self
            .rt
            .connect_timeout(*address, Duration::from_millis(TIME))
        {
            Ok(stream) => Ok(Caller::new(self.alloc, TimedStream::new(self.rt, stream))),
            Err(_) => Err(AskFault::Unclear),
        }
    }

    /// The connection that there is, or another one.
    fn line(&mut self) -> Result<Caller<TimedStream<'r, R>>, AskFault>
        ensures unclear { IfErr result (λ fault. fault ≡ Unclear) }
        ensures closed { self.new.caller ≡ None }
        ensures at { self.new.at ≡ self.old.at }
        ensures token { self.new.token ≡ self.old.token }
        ensures log { self.new.log ≡ self.old.log }
        ensures access { self.new.access ≡ self.old.access }
    {
        if let Some(caller) = self.caller.take() {
            return Ok(caller);
        }
        self.connect()
    }

    /// Sends a request once, over the connection that there is, or another one. It is kept only where a response came to its end.
    fn send<'x>(&mut self, path: &'x str, body: &'x [u8]) -> Result<Response, AskFault>
        ensures sent { IsSent path.now body.now result
            (asker self.old.access self.old.at self.old.token self.old.log.log.tries)
            (asker self.new.access self.new.at self.new.token self.new.log.log.tries) }
        ensures over { IfOk result (IsOver (line_of ⟦<TimedStream<'r, R> as Write>⟧.contents
            ⟦<TimedStream<'r, R> as Read>⟧.remaining (λ timed. as_nanos timed.limit))
            (asker self.old.access self.old.at self.old.token self.old.log.log.tries) path.now body.now self.new.caller) }
        ensures closed { OnErr result (self.new.caller ≡ None) }
        ensures exchanges { self.new.log.log.exchanges ≡ self.old.log.log.exchanges }
    {
        let mut caller = self.line()?;
        let limit = limit_of(body.len());
        if caller.stream.begin(Duration::from_millis(limit)).is_err() {
            return Err(AskFault::Unclear);
        }
        let attempt = Attempt {
            member: self.at,
            path,
            body,
            limit,
        };
        let token = self.token.as_deref();
        let response = ask_over(self.alloc, &mut self.log, &mut caller, token, &attempt)?;
        self.caller = Some(caller);
        Ok(response)
    }

    /// What a response tells, and who is asked next by that.
    fn hear(&mut self, response: Response) -> Result<Vec<u8>, AskFault>
        ensures next { IsNext (Some (came_as response.status response.body.items)) result
            (asker self.old.access self.old.at self.old.token self.old.log.log.tries)
            (asker self.new.access self.new.at self.new.token self.new.log.log.tries) }
        ensures exchanges { self.new.log.log.exchanges ≡ self.old.log.log.exchanges }
    {
        match heard_of(self.alloc, response) {
            Heard::Done(text) => Ok(text),
            Heard::Refused(code) => Err(AskFault::Refused(code)),
            Heard::Forgotten => {
                self.token = None;
                Err(AskFault::Unclear)
            }
            Heard::Unclear => {
                self.next();
                Err(AskFault::Unclear)
            }
            Heard::Unread => {
                self.token = None;
                self.next();
                Err(AskFault::Memory)
            }
        }
    }

    /// Sends a request once, and gives the text of the answer, where it was done. Where nothing is told, another member is next.
    fn ask_once(&mut self, path: &str, body: &[u8]) -> Result<Vec<u8>, AskFault>
        ensures once { AsksOnce path.now body.now result
            (asker self.old.access self.old.at self.old.token self.old.log.log.tries)
            (asker self.new.access self.new.at self.new.token self.new.log.log.tries) }
        ensures exchanges { self.new.log.log.exchanges ≡ self.old.log.log.exchanges }
    {
        match self.send(path, body) {
            Ok(response) => self.hear(response),
            Err(_) => {
                self.next();
                Err(AskFault::Unclear)
            }
        }
    }

    /// Asks for a token.
    fn ask_token(&mut self, body: &[u8]) -> Result<(), AskFault>
        ensures token { AsksToken body.now result
            (asker self.old.access self.old.at self.old.token self.old.log.log.tries)
            (asker self.new.access self.new.at self.new.token self.new.log.log.tries) }
        ensures exchanges { self.new.log.log.exchanges ≡ self.old.log.log.exchanges }
    {
        let text = self.ask_once("/v3/auth/authenticate", body)?;
        let token = login_reply(self.alloc, &text)?;
        self.token = Some(token);
        Ok(())
    }

    /// Where there is a user, a token is at hand.
    fn log_in(&mut self) -> Result<(), AskFault>
        ensures known { LogsIn result
            (asker self.old.access self.old.at self.old.token self.old.log.log.tries)
            (asker self.new.access self.new.at self.new.token self.new.log.log.tries) }
        ensures exchanges { self.new.log.log.exchanges ≡ self.old.log.log.exchanges }
    {
        if self.token.is_some() {
            return Ok(());
        }
        let Some((name, password)) = &self.access.user else {
            return Ok(());
        };
        let body = login_request(self.alloc, name, password)?;
        self.ask_token(&body)
    }

    /// Asks once, with a token where there is a user.
    fn ask_known(&mut self, path: &str, body: &[u8]) -> Result<Vec<u8>, AskFault>
        ensures known { AsksKnown path.now body.now result
            (asker self.old.access self.old.at self.old.token self.old.log.log.tries)
            (asker self.new.access self.new.at self.new.token self.new.log.log.tries) }
        ensures exchanges { self.new.log.log.exchanges ≡ self.old.log.log.exchanges }
    {
        self.log_in()?;
        self.ask_once(path, body)
    }
}

impl<R: Net + Clock> Members for Asking<'_, R> {
    // Each request but those for a token.
    ghost exchanges = { λ asking. asking.log.log.exchanges };

    fn ask(&mut self, path: &str, body: &[u8]) -> Result<Vec<u8>, AskFault>
        ensures asked { self.new.log.log.exchanges ≡ exchange path.now body.now (text_of result) ∷ self.old.log.log.exchanges }
        ensures refused { IfErr result IsRefusedRight }
        ensures known { AsksKnown path.now body.now result
            (asker self.old.access self.old.at self.old.token self.old.log.log.tries)
            (asker self.new.access self.new.at self.new.token self.new.log.log.tries) }
    {
        let told = self.ask_known(path, body);
        self.log.asked(path, body, &told);
        told
    }

    fn turn(&mut self) {
        self.next();
    }

    fn pause(&self, time: u64) {
        thread::sleep(self.rt, Duration::from_millis(time));
    }

    fn now(&self) -> Option<u64> {
        match self.rt.monotonic() {
            Ok(passed) => {
                let whole = passed.as_secs().saturating_mul(1000);
                Some(whole.saturating_add(passed.subsec_millis() as u64))
            }
            Err(_) => None,
        }
    }
}
