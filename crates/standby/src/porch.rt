//! A socket and those who come to it, or none, and what was told there.

ghost use Rattle.std.specs.Prelude.{◌≡◌, ◌∷◌, ◌≤◌, [], IfErr, IfOk, None, is_some, length, true};
ghost use Rattle.outside.specs.Calls.{FindsWithin};
ghost use Rattle.standby.specs.Doors.{OnlyRefuses};
ghost use Rattle.standby.specs.Events.{Told, Waited};
ghost use Rattle.standby.specs.declared.fault.ListFault.TheVariants.{NoSocket};

use crate::door_log::DoorLog;
use crate::fault::ListFault;
use outside::{Accepted, Ready, Received};
use ports::Ports;
use std::alloc::Global;
use std::net::Net;

/// A socket, or none, and a log of what was told there.
#[derive(Drop)]
pub struct Porch {
    ports: Option<Ports>,
    log: DoorLog,
}

impl Porch {
    /// No socket.
    pub(crate) fn none() -> Porch
        ensures deaf { result.ports ≡ None }
        ensures untold { result.log.events ≡ [] }
    {
        Porch {
            ports: None,
            log: DoorLog::new(),
        }
    }

    /// A socket that listens at an address.
    pub(crate) fn listen<R: Net>(rt: &R, alloc: Global, address: &str) -> Result<Porch, ListFault>
        ensures hears { IfOk result (λ porch. is_some porch.ports ≡ true) }
        ensures untold { IfOk result (λ porch. porch.log.events ≡ []) }
        ensures refused { IfErr result (λ fault. fault ≡ NoSocket) }
    {
        match Ports::listen(rt, alloc, address) {
            Ok(ports) => Ok(Porch {
                ports: Some(ports),
                log: DoorLog::new(),
            }),
            Err(_) => Err(ListFault::NoSocket),
        }
    }

    /// Waits until something is ready, at most so many milliseconds. None where the wait failed, or there is no socket.
    pub(crate) fn wait(&mut self, limit: u64, found: &mut [Ready]) -> Option<usize>
        ensures within { FindsWithin result (length found.new) }
        ensures same { OnlyRefuses self.old self.new }
    {
        match &mut self.ports {
            Some(ports) => ports.wait(Some(limit), found),
            None => None,
        }
    }

    /// Has the next wait tell whether a connection waits to be accepted.
    pub(crate) fn ask(&mut self)
        ensures { OnlyRefuses self.old self.new }
    {
        if let Some(ports) = &mut self.ports {
            ports.ask();
        }
    }

    /// Puts the next connection at a place. Whoever was there goes.
    pub(crate) fn accept(&mut self, place: u32) -> Accepted
        ensures { OnlyRefuses self.old self.new }
    {
        match &mut self.ports {
            Some(ports) => {
                ports.close(place);
                ports.accept(place)
            }
            None => Accepted::Failed,
        }
    }

    /// Reads into a buffer that has room.
    pub(crate) fn read(&mut self, place: u32, buffer: &mut [u8]) -> Received
        ensures { OnlyRefuses self.old self.new }
    {
        match &mut self.ports {
            Some(ports) => ports.read(place, buffer),
            None => Received::Failed,
        }
    }

    /// Tells bytes to who is at a place.
    pub(crate) fn tell(&mut self, place: u32, bytes: &[u8])
        ensures told { self.new.log.events ≡ Told bytes.now ∷ self.old.log.events }
        ensures hears { is_some self.new.ports ≡ is_some self.old.ports }
    {
        self.log.told(bytes);
        if let Some(ports) = &mut self.ports {
            let _ = ports.write(place, bytes);
        }
    }

    /// Closes a connection.
    pub(crate) fn close(&mut self, place: u32)
        ensures { OnlyRefuses self.old self.new }
    {
        if let Some(ports) = &mut self.ports {
            ports.close(place);
        }
    }

    /// So many milliseconds were waited.
    pub(crate) fn waited(&mut self, time: u64)
        ensures waited { self.new.log.events ≡ Waited time ∷ self.old.log.events }
        ensures hears { self.new.ports ≡ self.old.ports }
    {
        self.log.waited(time);
    }

    /// The socket, where there is one.
    pub(crate) fn into_ports(self) -> Option<Ports>
        ensures { result ≡ self.ports }
    {
        self.ports
    }
}
