//! Sockets that listen, and the connections that come to them.

ghost use Rattle.std.specs.Prelude.{◌≡◌, ◌≢◌, OnOk, IfErr};
ghost use Rattle.std.specs.Io.KnownBytes.{Appends};
ghost use Rattle.ports.specs.Listening.{listening_text, Announces};
ghost use Rattle.ports.specs.declared.fault.ListenFault.TheVariants.{Unwritten};

use crate::fault::{ListenFault, SocketFault};
use std::io::{self, Read, Write};
use std::net::{Net, OpenListener, OpenStream, Shutdown, SocketAddr, TcpListener};
use std::rt::Clock;
use std::thread;
use std::time::Duration;

/// So many pieces are read of a connection that is seen off.
const LAST_PIECES: u32 = 256;

/// So many milliseconds pass before a connection is waited for again, where one could not be accepted.
const PAUSE: u64 = 100;

/// Listens at an address, and tells where: at a port that the system chose, where the address has port 0.
pub fn listen<R: Net, W: Write>(
    rt: &R,
    address: &str,
    out: &mut W,
) -> Result<R::Listener, ListenFault>
    ensures done { OnOk result (Announces (W.contents out.old) (W.contents out.new)) }
    ensures silent { IfErr result (λ fault. fault ≢ Unwritten → out.new ≡ out.old) }
{
    let listener = TcpListener::bind(rt, address)?;
    let bound = listener.local_addr()?;
    let Ok(()) = announce(out, bound) else {
        return Err(ListenFault::Unwritten);
    };
    Ok(listener)
}

/// Tells where a server listens.
pub fn announce<W: Write>(out: &mut W, address: SocketAddr) -> io::Result<()>
    ensures { OnOk result (Appends (W.contents out.old) (W.contents out.new) (listening_text address)) }
{
    writeln!(out, "listening {address}")?;
    out.flush()
}

/// The next connection of a listener. Where one can't be accepted, the next is waited for a moment later. Where the system
/// has refused more of them than can be counted, it refuses the socket.
pub fn next_connection<R: Clock, L: OpenListener>(
    rt: &R,
    listener: &L,
) -> Result<L::Stream, ListenFault> {
    for stream in listener.incoming() {
        match stream {
            Ok(stream) => return Ok(stream),
            Err(_) => thread::sleep(rt, Duration::from_millis(PAUSE)),
        }
    }
    Err(ListenFault::NoSocket(SocketFault::Other))
}

/// Reads at most so many pieces, as far as they come at once, and drops them.
pub fn drop_rest<S: Read>(stream: &mut S, pieces: u32) {
    let mut buffer = [0; 2048];
    for _ in 0..pieces {
        let Ok(count) = stream.read(&mut buffer) else {
            return;
        };
        if count == 0 {
            return;
        }
    }
}

/// Lets a client have what was written to it. A socket that is closed before all of its bytes are read takes back what
/// its client has not read, so they are read here, as far as they come at once, and dropped.
pub fn see_off<S: Read + OpenStream>(stream: &mut S) {
    let _ = stream.shutdown(Shutdown::Write);
    let _ = stream.set_read_timeout(Some(Duration::from_millis(PAUSE)));
    drop_rest(stream, LAST_PIECES);
}
