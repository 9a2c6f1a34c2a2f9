//! What the faults of a server are to the service that it is.

ghost use Rattle.command_line.specs.Faults.{IsOfEnd, IsOfListening, IsOfOpening, IsOfServing};

use commands::CommandFault;
use daemon::{ListenFault, OpeningFault};
use disk_file::OpenFault;
use lifetime::LifeEnd;

/// The fault of a service for which no socket is had at an address.
pub(crate) fn deaf<'w>(address: &'w str, fault: ListenFault) -> CommandFault<'w>
    ensures { IsOfListening address.now fault result }
{
    match fault {
        ListenFault::NoSeed => CommandFault::NoSeed,
        ListenFault::NoSocket(fault) => CommandFault::CannotListen(address, fault),
        ListenFault::Unwritten => CommandFault::CannotWrite,
        ListenFault::Memory => CommandFault::OutOfMemory,
    }
}

/// The fault of `serve` where no socket is had for it.
pub(crate) fn unheard<'w>(fault: ListenFault) -> CommandFault<'w>
    ensures { IsOfServing fault result }
{
    match fault {
        ListenFault::NoSeed => CommandFault::NoSeed,
        ListenFault::NoSocket(_) => CommandFault::NoSocket,
        ListenFault::Unwritten => CommandFault::CannotWrite,
        ListenFault::Memory => CommandFault::OutOfMemory,
    }
}

/// The fault of a service for which no socket is had at an address, or the file of its state at a path is not opened.
pub(crate) fn unopened<'w>(address: &'w str, path: &'w str, fault: OpeningFault) -> CommandFault<'w>
    ensures { IsOfOpening address.now path.now fault result }
{
    match fault {
        OpeningFault::Socket(fault) => deaf(address, fault),
        OpeningFault::File(OpenFault::Memory) => CommandFault::OutOfMemory,
        OpeningFault::File(fault) => CommandFault::Unopened(path, fault),
    }
}

/// The fault with which a life ended on the file of a path.
pub(crate) fn end_of<'w>(path: &'w str, end: LifeEnd) -> CommandFault<'w>
    ensures { IsOfEnd path.now end result }
{
    match end {
        LifeEnd::Refused(fault) => CommandFault::of_state(path, fault),
        LifeEnd::ClockAhead(seconds) => CommandFault::ClockAhead(path, seconds),
        LifeEnd::Unopened => CommandFault::CannotWrite,
        LifeEnd::Stopped { fault, why } => CommandFault::Stopped(fault, why),
    }
}
