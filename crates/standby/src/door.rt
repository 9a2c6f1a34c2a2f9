//! Where those who come are told that nobody serves there, while a server waits.

ghost use Rattle.std.specs.Prelude.{◌≡◌, ◌≤◌, [], IfErr, IfOk, None, is_some, length, true};
ghost use Rattle.standby.specs.Doors.{OnlyRefuses, RefusesMeanwhile};
ghost use Rattle.standby.specs.declared.fault.ListFault.TheVariants.{NoSocket};

use crate::fault::ListFault;
use crate::porch::Porch;
use outside::{Accepted, Ready, Received};
use ports::Ports;
use std::alloc::Global;
use std::net::Net;
use std::rt::Clock;
use std::thread;
use std::time::Duration;

/// So many connections are there at once.
const PLACES: u32 = 64;

/// So many times more than that is looked for what is ready.
const LOOKS: u32 = 4096;

/// What each of them is told.
const REPLY: &[u8] =
    b"HTTP/1.1 503 Service Unavailable\r\nCache-Control: no-store\r\nContent-Length: 0\r\nConnection: close\r\n\r\n";

/// A socket at which it is told that nobody serves there, or none.
#[derive(Drop)]
pub struct Door<'r, R> {
    rt: &'r R,
    porch: Porch,
    /// The place that was taken last.
    at: u32,
}

/// Milliseconds of a clock that never goes back.
fn now<R: Clock>(rt: &R) -> Option<u64> {
    match rt.monotonic() {
        Ok(passed) => {
            let whole = passed.as_secs().saturating_mul(1000);
            Some(whole.saturating_add(passed.subsec_millis() as u64))
        }
        Err(_) => None,
    }
}

/// How many milliseconds are left of so many since that moment: none where the clock does not tell.
fn left_of<R: Clock>(rt: &R, began: u64, time: u64) -> u64
    ensures { result ≤ time }
{
    match now(rt) {
        Some(now) => time.saturating_sub(now.saturating_sub(began)),
        None => 0,
    }
}

/// Tells who is at a place that nobody serves there.
fn refuse(porch: &mut Porch, place: u32)
    ensures { OnlyRefuses porch.old porch.new }
{
    porch.tell(place, REPLY);
    porch.close(place);
}

/// Tells who is at a place that nobody serves there, once it has asked.
fn hear(porch: &mut Porch, place: u32)
    ensures { OnlyRefuses porch.old porch.new }
{
    let mut buffer = [0; 2048];
    match porch.read(place, &mut buffer) {
        Received::Later => {}
        Received::Bytes(_) => refuse(porch, place),
        Received::End | Received::Failed => porch.close(place),
    }
}

/// Accepts who comes, at the places behind that one, and gives the last one that was taken. Whoever was at a place goes.
fn let_in(porch: &mut Porch, at: u32) -> u32
    ensures { OnlyRefuses porch.old porch.new }
{
    let mut place = at;
    for _turn in 0..PLACES {
        let next = next_of(place);
        match porch.accept(next) {
            Accepted::Taken => place = next,
            Accepted::Later | Accepted::Failed => return place,
        }
    }
    porch.ask();
    place
}

/// The place behind that one.
fn next_of(place: u32) -> u32 {
    if place < PLACES - 1 { place + 1 } else { 0 }
}

/// Meets who is ready, and gives the place that was taken last.
fn meet(porch: &mut Porch, ready: Ready, at: u32) -> u32
    ensures { OnlyRefuses porch.old porch.new }
{
    match ready {
        Ready::Listener => let_in(porch, at),
        Ready::Connection { place, .. } => {
            hear(porch, place);
            at
        }
        Ready::Reload => at,
    }
}

/// Meets those who are ready, and gives the place that was taken last.
fn meet_all(porch: &mut Porch, found: &[Ready], at: u32) -> u32
    ensures { OnlyRefuses porch.old porch.new }
{
    let mut place = at;
    for ready in found {
        place = meet(porch, *ready, place);
    }
    place
}

impl<'r, R> Door<'r, R> {
    /// None: nobody comes.
    pub fn none(rt: &'r R) -> Door<'r, R>
        ensures deaf { result.porch.ports ≡ None }
        ensures untold { result.porch.log.events ≡ [] }
    {
        Door {
            rt,
            porch: Porch::none(),
            at: 0,
        }
    }
}

impl<'r, R: Net + Clock> Door<'r, R> {
    /// A socket that listens at an address.
    pub fn at(rt: &'r R, alloc: Global, address: &str) -> Result<Door<'r, R>, ListFault>
        ensures hears { IfOk result (λ door. is_some door.porch.ports ≡ true) }
        ensures untold { IfOk result (λ door. door.porch.log.events ≡ []) }
        ensures refused { IfErr result (λ fault. fault ≡ NoSocket) }
    {
        let porch = Porch::listen(rt, alloc, address)?;
        Ok(Door { rt, porch, at: 0 })
    }

    /// Waits so many milliseconds, and tells those who come meanwhile that nobody serves there, and nothing else.
    pub fn wait(&mut self, time: u64)
        ensures { RefusesMeanwhile 1 self.old self.new }
    {
        self.serve(time);
        self.porch.waited(time);
    }

    // For so many milliseconds it meets who comes.
    fn serve(&mut self, time: u64)
        ensures { OnlyRefuses self.old.porch self.new.porch }
    {
        let Some(began) = now(self.rt) else {
            thread::sleep(self.rt, Duration::from_millis(time));
            return;
        };
        for _look in 0..LOOKS {
            let left = left_of(self.rt, began, time);
            if left == 0 || !self.look(left) {
                return;
            }
        }
    }

    // Meets who comes first, within so many milliseconds. Whether others may come.
    fn look(&mut self, left: u64) -> bool
        ensures { OnlyRefuses self.old.porch self.new.porch }
    {
        let mut found = [Ready::Listener; 65];
        let Some(count) = self.porch.wait(left, &mut found) else {
            thread::sleep(self.rt, Duration::from_millis(left));
            return false;
        };
        self.at = meet_all(&mut self.porch, &found[..count], self.at);
        true
    }

    /// The socket, where there is one, without a connection: who comes now waits to be accepted.
    pub fn into_ports(self) -> Option<Ports>
        ensures { is_some result ≡ is_some self.entry.porch.ports }
    {
        let Door { mut porch, .. } = self;
        for place in 0..PLACES {
            porch.close(place);
        }
        porch.ask();
        porch.into_ports()
    }
}
