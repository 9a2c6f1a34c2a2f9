//! Where a server listens, told once it goes on.

ghost use Rattle.daemon.specs.Listening.{Tells};

use lifetime::{Opening, Unopened};
use ports::announce;
use std::io::Write;
use std::net::SocketAddr;

/// Where a server listens, and where that is to be told.
#[derive(Drop)]
pub(crate) struct Announcement<'o, W> {
    pub(crate) address: SocketAddr,
    pub(crate) out: &'o mut W,
}

impl<'o, W: Write> Opening for Announcement<'o, W> {
    ghost opens = { Tells W.contents };

    fn open(&mut self) -> Result<(), Unopened> {
        match announce(self.out, self.address) {
            Ok(()) => Ok(()),
            Err(_) => Err(Unopened),
        }
    }
}
