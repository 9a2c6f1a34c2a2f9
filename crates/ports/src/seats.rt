//! A listener of the machine, and the connections at their places.

ghost use Rattle.std.specs.Prelude.{◌≡◌, ◌≤◌, IsSome, Some, length, slice_get};
ghost use Rattle.outside.specs.Calls.{FindsWithin, ReadsWithin, SendsWithin};
ghost use Rattle.ports.specs.Passing.{HandsOn, KeepsWaiting, TakesOne};
ghost use Rattle.ports.specs.declared.seats.Seated.{Seated};

use crate::fault::{ListenFault, SocketFault};
use crate::listening::drop_rest;
use event_loop::PLACES;
use mio::event::Event;
use mio::net::{TcpListener, TcpStream};
use mio::{Events, Interest, Poll, Token};
use outside::{Accepted, Ready, Received, Sent};
use std::alloc::{AllocError, Global};
use std::io::{ErrorKind, Read, Write};
use std::net::{Net, Shutdown, SocketAddr, ToSocketAddrs};
use std::time::Duration;

/// The listener is told of under this number, and each connection under that of its place.
const LISTENER: Token = Token(PLACES as usize);

/// So much may be told at once: of the listener, and of each connection.
const TOLD_LIMIT: usize = PLACES as usize + 1;

/// So often is a call made that the system breaks off.
const TRIES: u32 = 16;

/// So many pieces are read of a connection that is seen off.
const LAST_PIECES: u32 = 64;

/// A connection at a place.
#[derive(Drop)]
struct Seated {
    stream: TcpStream,
    /// Nothing was read of it yet.
    is_new: bool,
    /// Its peer sends no more.
    is_hung: bool,
}

impl Seated {
    // Reads into a buffer that has room.
    fn read(&mut self, buffer: &mut [u8]) -> Received
        ensures { ReadsWithin result (length buffer.new) }
    {
        self.is_new = false;
        for _ in 0..TRIES {
            match self.stream.read(buffer) {
                Ok(0) => return Received::End,
                Ok(count) => return Received::Bytes(count),
                Err(error) => match error.kind() {
                    ErrorKind::WouldBlock => return Received::Later,
                    ErrorKind::Interrupted => {}
                    _ => return Received::Failed,
                },
            }
        }
        Received::Failed
    }

    // Writes the bytes, or as many of them as the socket takes.
    fn write(&mut self, bytes: &[u8]) -> Sent
        ensures { SendsWithin result (length bytes.now) }
    {
        for _ in 0..TRIES {
            match self.stream.write(bytes) {
                Ok(0) => return Sent::Failed,
                Ok(count) => return Sent::Bytes(count),
                Err(error) => match error.kind() {
                    ErrorKind::WouldBlock => return Sent::Later,
                    ErrorKind::Interrupted => {}
                    _ => return Sent::Failed,
                },
            }
        }
        Sent::Failed
    }
}

/// A listener and the connections at their places, and what tells of them.
#[derive(Drop)]
pub struct Ports {
    poll: Poll,
    events: Events,
    listener: TcpListener,
    streams: Vec<Option<Seated>>,
    /// Those that were handed on, and are accepted before others.
    passed: Vec<Seated>,
    address: SocketAddr,
}

/// A listener at the first of the addresses that a text names at which there can be one; or the fault of the last.
fn listener_at<R: Net>(rt: &R, address: &str) -> Result<TcpListener, ListenFault> {
    let mut fault = ListenFault::NoSocket(SocketFault::NoAddress);
    let Ok(addresses) = address.to_socket_addrs(rt) else {
        return Err(fault);
    };
    for each in addresses {
        match TcpListener::bind(rt, each) {
            Ok(listener) => return Ok(listener),
            Err(error) => fault = ListenFault::from(error),
        }
    }
    Err(fault)
}

/// So many places without a connection.
fn free_places(alloc: Global) -> Result<Vec<Option<Seated>>, AllocError> {
    let mut places = Vec::with_capacity(alloc, PLACES as usize)?;
    for _ in 0..PLACES {
        places.push(None)?;
    }
    Ok(places)
}

/// What an event tells.
fn ready_by(event: &Event) -> Ready {
    let is_over = event.is_error() || event.is_read_closed();
    match u32::try_from(event.token().0) {
        Ok(place) if place < PLACES => Ready::Connection {
            place,
            readable: event.is_readable() || is_over,
            writable: event.is_writable(),
            hung: is_over,
        },
        _ => Ready::Listener,
    }
}

/// Notes where a peer sends no more.
fn note_hung(streams: &mut [Option<Seated>], ready: Ready) {
    let Ready::Connection {
        place,
        hung: true,
        ..
    } = ready
    else {
        return;
    };
    if let Some(Some(seated)) = streams.get_mut(place as usize) {
        seated.is_hung = true;
    }
}

/// Puts what events tell at the front of `found`: how much it is.
fn list_ready(events: &Events, streams: &mut [Option<Seated>], found: &mut [Ready]) -> usize
    ensures { result ≤ length found.new }
{
    let mut count = 0;
    for event in events.iter() {
        if count < found.len() {
            let ready = ready_by(event);
            note_hung(streams, ready);
            found[count] = ready;
            count += 1;
        }
    }
    count
}

/// Lets a client have what was written to it. A socket that is closed before all of its bytes are read takes back what
/// its client has not read, so they are read here, as far as they have come, and dropped.
pub fn let_go(mut stream: TcpStream) {
    let _ = stream.shutdown(Shutdown::Write);
    drop_rest(&mut stream, LAST_PIECES);
}

impl Ports {
    /// Listens at an address.
    pub fn listen<R: Net>(rt: &R, alloc: Global, address: &str) -> Result<Ports, ListenFault> {
        let events = Events::with_capacity(alloc, TOLD_LIMIT)?;
        let streams = free_places(alloc)?;
        let passed = Vec::with_capacity(alloc, PLACES as usize)?;
        let mut listener = listener_at(rt, address)?;
        let poll = Poll::new(rt)?;
        poll.registry()
            .register(&mut listener, LISTENER, Interest::READABLE)?;
        let Ok(address) = listener.local_addr() else {
            return Err(ListenFault::NoSocket(SocketFault::Other));
        };
        Ok(Ports {
            poll,
            events,
            listener,
            streams,
            passed,
            address,
        })
    }

    /// Where it listens.
    pub fn address(&self) -> SocketAddr {
        self.address
    }

    // Puts a connection at its place.
    fn seat(&mut self, mut seated: Seated, place: u32) -> Accepted
        ensures { KeepsWaiting self.old self.new }
    {
        let both = Interest::READABLE | Interest::WRITABLE;
        let token = Token(place as usize);
        let Ok(()) = self
            .poll
            .registry()
            .register(&mut seated.stream, token, both)
        else {
            return Accepted::Failed;
        };
        let Some(held) = self.streams.get_mut(place as usize) else {
            return Accepted::Failed;
        };
        *held = Some(seated);
        Accepted::Taken
    }

    // Tells that a connection waits to be accepted, where one was handed on.
    fn tell_passed(&self, found: &mut [Ready], count: usize) -> usize
        requires within { count ≤ length found.old }
        ensures within { result ≤ length found.new }
    {
        if self.passed.is_empty() || count >= found.len() {
            return count;
        }
        found[count] = Ready::Listener;
        count + 1
    }

    /// Waits until something is ready, at most so many milliseconds, or for ever at `None`. What is ready is put at the front of
    /// `found`; how much it is, or `None` where the wait failed.
    pub fn wait(&mut self, limit: Option<u64>, found: &mut [Ready]) -> Option<usize>
        ensures within { FindsWithin result (length found.new) }
        ensures passed { KeepsWaiting self.old self.new }
    {
        let limit = if self.passed.is_empty() {
            limit
        } else {
            Some(0)
        };
        let timeout = limit.map(Duration::from_millis);
        let Ok(()) = self.poll.poll(&mut self.events, timeout) else {
            return None;
        };
        let count = list_ready(&self.events, &mut self.streams, found);
        Some(self.tell_passed(found, count))
    }

    /// Has the next wait tell whether a connection waits to be accepted.
    pub fn ask(&mut self)
        ensures { KeepsWaiting self.old self.new }
    {
        let _ = self
            .poll
            .registry()
            .reregister(&mut self.listener, LISTENER, Interest::READABLE);
    }

    /// Puts the next connection at a place: one that was handed on, or one that came.
    pub fn accept(&mut self, place: u32) -> Accepted
        ensures { TakesOne self.old self.new }
    {
        if let Some(seated) = self.passed.pop() {
            return self.seat(seated, place);
        }
        for _ in 0..TRIES {
            match self.listener.accept() {
                Ok((stream, _)) => {
                    let _ = stream.set_nodelay(true);
                    let (is_new, is_hung) = (true, false);
                    let seated = Seated {
                        stream,
                        is_new,
                        is_hung,
                    };
                    return self.seat(seated, place);
                }
                Err(error) => match error.kind() {
                    ErrorKind::WouldBlock => return Accepted::Later,
                    ErrorKind::Interrupted | ErrorKind::ConnectionAborted => {}
                    _ => return Accepted::Failed,
                },
            }
        }
        Accepted::Failed
    }

    /// Reads into a buffer that has room.
    pub fn read(&mut self, place: u32, buffer: &mut [u8]) -> Received
        ensures within { ReadsWithin result (length buffer.new) }
        ensures passed { KeepsWaiting self.old self.new }
    {
        let Some(Some(seated)) = self.streams.get_mut(place as usize) else {
            return Received::Failed;
        };
        seated.read(buffer)
    }

    /// Writes the bytes, or as many of them as the socket takes.
    pub fn write(&mut self, place: u32, bytes: &[u8]) -> Sent
        ensures within { SendsWithin result (length bytes.now) }
        ensures passed { KeepsWaiting self.old self.new }
    {
        let Some(Some(seated)) = self.streams.get_mut(place as usize) else {
            return Sent::Failed;
        };
        seated.write(bytes)
    }

    /// Closes a connection.
    pub fn close(&mut self, place: u32)
        ensures { KeepsWaiting self.old self.new }
    {
        let Some(held) = self.streams.get_mut(place as usize) else {
            return;
        };
        if let Some(seated) = held.take() {
            let_go(seated.stream);
        }
    }

    // Takes what is at a place, of which no event tells from then on.
    #[tactic(auto, using(std::proofs::lemmas::Option::slice_get_within, std::proofs::lemmas::Option::get_or_from_slice_get))]
    fn unseat(&mut self, place: u32) -> Option<Seated>
        ensures here { (seated : Seated) → slice_get self.old.streams.items place ≡ Some (Some seated) → IsSome result }
        ensures passed { KeepsWaiting self.old self.new }
    {
        let held = self.streams.get_mut(place as usize)?;
        let mut seated = held.take()?;
        let _ = self.poll.registry().deregister(&mut seated.stream);
        Some(seated)
    }

    /// Takes the connection from its place.
    pub fn take(&mut self, place: u32) -> Option<TcpStream>
        ensures { KeepsWaiting self.old self.new }
    {
        Some(self.unseat(place)?.stream)
    }

    /// Hands a connection on: it is accepted again before others.
    pub fn pass(&mut self, place: u32)
        ensures { HandsOn place self.old self.new }
    {
        let Some(seated) = self.unseat(place) else {
            return;
        };
        let _ = self.passed.push(seated);
    }

    /// Whether the peer of a connection sends no more.
    pub fn is_hung(&self, place: u32) -> bool {
        match self.streams.get(place as usize) {
            Some(Some(seated)) => seated.is_hung,
            _ => false,
        }
    }

    /// The first bytes of a connection of which nothing was read yet, as far as there is room: how many they are. They are left for
    /// the next read. None where something was read, or nothing came.
    pub fn front(&self, place: u32, buffer: &mut [u8]) -> Option<usize> {
        let Some(Some(seated)) = self.streams.get(place as usize) else {
            return None;
        };
        if !seated.is_new {
            return None;
        }
        seated.stream.peek(buffer).ok()
    }
}
